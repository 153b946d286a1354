// Pairs out of bytes.
ghost use Rattle.std.specs.Prelude.{◌≡◌, ◌≤◌, true, length, IfOk, Err, Some, None};
ghost use Rattle.std.specs.List.{list_all};
ghost use Rattle.header_maps.specs.Kept.{byte_limit, is_short};
ghost use Rattle.pair_codec.specs.Reading.{pairs_in};
ghost use Rattle.pair_codec.specs.declared.end.PairsEnd.TheVariants as end;

use crate::end::PairsEnd;
use crate::serialised::Serialised;
use gate_base::Pairs;
use std::alloc::Global;

/// The pairs of a serialised form, or of no bytes. NotPairs comes exactly where the bytes are neither; until then nothing is copied. No name
/// or value is longer than the bytes.
pub fn read_pairs(alloc: Global, bytes: &[u8]) -> Result<Pairs, PairsEnd>
    ensures pairs { IfOk result (λ pairs. pairs_in bytes.now ≡ Some pairs) }
    ensures not_pairs { result ≡ Err end.NotPairs → pairs_in bytes.now ≡ None }
    ensures short { length bytes.now ≤ byte_limit → IfOk result (λ pairs. list_all is_short pairs ≡ true) }
{
    let Some(form) = Serialised::of(bytes) else {
        return Err(PairsEnd::NotPairs);
    };
    Ok(form.to_pairs(alloc)?)
}
