// How long a value is, told without a copy.
ghost use Rattle.std.specs.Prelude.{◌≡◌, ◌≤◌, ◌<◌, ◌+◌, ◌*◌, ◌^◌, true, length, sum_by, IfSome};
ghost use Rattle.std.specs.List.{list_all};
ghost use Rattle.std.specs.Option.{option_map};
ghost use Rattle.http_header.specs.Token.{lowercase};
ghost use Rattle.header_maps.specs.Kept.{is_short};
ghost use Rattle.header_maps.specs.Operations.{get_of};
ghost use Rattle.header_maps.specs.Pairs.{values_of};

use crate::judged::is_same_word;
use crate::list::HeaderList;
use crate::texts::Texts;

/// How many bytes the values of all fields of a name have, with a comma for each.
fn size_with_commas(items: &Texts, name: &[u8]) -> usize
    requires few { length items.now ≤ 104 }
    requires short { list_all is_short items.now ≡ true }
    ensures size { result ≡ sum_by (λ value. 1 + length value) (values_of (lowercase name.now) items.now) }
    ensures bound { result ≤ 104 * 16777217 }
{
    let mut size = 0;
    for at in 0..items.len() {
        let (field, value) = items.pair(at);
        if is_same_word(field, name) {
            size += 1 + value.len();
        }
    }
    size
}

/// How many bytes `HeaderList::get` gives for a name, and none where it gives none. It takes no memory.
pub fn value_len(list: &HeaderList, name: &[u8]) -> Option<usize>
    ensures len { result ≡ option_map length (get_of list.now name.now) }
    ensures bound { IfSome result (λ len. len < 2 ^ 32) }
{
    let _kind = list.kind();
    let _len = list.len();
    size_with_commas(list.texts(), name).checked_sub(1)
}
