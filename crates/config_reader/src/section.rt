// The arrays of tables.
use crate::keys::{Key, plugin_keys, route_keys, vm_keys};

/// An array of tables.
#[derive(Clone, Copy)]
pub enum TableArray {
    /// `vm`.
    Vm,
    /// `plugin`.
    Plugin,
    /// `route`.
    Route,
}

impl TableArray {
    ghost use Rattle.std.specs.Prelude.{◌≡◌, map};
    ghost use Rattle.config_reader.specs.Rows.{row_of};
    ghost use Rattle.config_reader.specs.Whole.{name_of, keys_of, most_of};

    /// Its key in the top table.
    pub(crate) fn name(self) -> &'static str
        ensures { result.now ≡ name_of self }
    {
        match self {
            TableArray::Vm => "vm",
            TableArray::Plugin => "plugin",
            TableArray::Route => "route",
        }
    }

    /// The keys of an entry.
    pub(crate) fn keys(self) -> &'static [Key]
        ensures { map row_of result.now ≡ keys_of self }
    {
        match self {
            TableArray::Vm => vm_keys(),
            TableArray::Plugin => plugin_keys(),
            TableArray::Route => route_keys(),
        }
    }

    /// How many entries it has at most.
    pub(crate) fn most(self) -> usize
        ensures { result ≡ most_of self }
    {
        match self {
            TableArray::Vm => 16,
            TableArray::Plugin => 64,
            TableArray::Route => 256,
        }
    }
}
