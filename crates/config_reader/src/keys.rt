// The keys of each table: a row for each, in the order in which they are judged.
ghost use Rattle.std.specs.Prelude.{◌≡◌, map};
ghost use Rattle.config_reader.specs.Rows.{gateway_keys, vm_keys, plugin_keys, route_keys, top_keys, row_of};

/// What a key's value may be.
#[derive(Clone, Copy)]
pub enum KeyKind {
    /// A number within bounds.
    Number { least: u64, most: u64 },
    /// A text of so many bytes.
    Text { least: usize, most: usize },
    /// Four numbers with dots, a colon and a port.
    Address,
    /// The word of a log level.
    Level,
    /// `open` or `closed`.
    OpenOrClosed,
    /// A name that no VM has yet.
    NewVm,
    /// A name that no plug-in has yet.
    NewPlugin,
    /// The name of a VM.
    SomeVm,
    /// A path that the router takes beside those of the routes before it.
    Path,
    /// A list of names of plug-ins.
    Filters,
    /// A list of names of the plug-ins of streams, which are looked for later; nothing where there are routes.
    Streams { has_routes: bool },
    /// Tables, which are judged key by key.
    Tables,
}

/// What a key is where it is missing.
#[derive(Clone, Copy)]
pub enum Absent {
    /// It may not be missing.
    Refused,
    /// This number.
    Number { number: u64 },
    /// This text.
    Text { text: &'static str },
    /// A list without names, or no tables.
    NoNames,
}

/// A key of a table.
#[derive(Clone, Copy)]
pub struct Key {
    /// The key itself.
    pub name: &'static str,
    /// What its value may be.
    pub kind: KeyKind,
    /// What it is where it is missing.
    pub absent: Absent,
}

/// Where clients connect.
pub(crate) const LISTEN: Key = Key {
    name: "listen",
    kind: KeyKind::Address,
    absent: Absent::Text {
        text: "127.0.0.1:8080",
    },
};

/// Where the upstream listens.
pub(crate) const UPSTREAM: Key = Key {
    name: "upstream",
    kind: KeyKind::Address,
    absent: Absent::Text {
        text: "127.0.0.1:9000",
    },
};

/// How many workers there are.
pub(crate) const WORKERS: Key = Key {
    name: "workers",
    kind: KeyKind::Number { least: 1, most: 8 },
    absent: Absent::Number { number: 1 },
};

/// How long an exchange may take.
pub(crate) const DEADLINE_MS: Key = Key {
    name: "deadline_ms",
    kind: KeyKind::Number {
        least: 0,
        most: 3_600_000,
    },
    absent: Absent::Number { number: 0 },
};

/// The least level that is logged.
pub(crate) const LOG_LEVEL: Key = Key {
    name: "log_level",
    kind: KeyKind::Level,
    absent: Absent::Text { text: "info" },
};

/// The plug-ins of streams of bytes, where there is no route.
const TCP: Key = Key {
    name: "tcp",
    kind: KeyKind::Streams { has_routes: false },
    absent: Absent::NoNames,
};

/// The same where there are routes.
const TCP_BESIDE_ROUTES: Key = Key {
    name: "tcp",
    kind: KeyKind::Streams { has_routes: true },
    absent: Absent::NoNames,
};

static GATEWAY_KEYS: [Key; 6] = [LISTEN, UPSTREAM, WORKERS, DEADLINE_MS, LOG_LEVEL, TCP];

static GATEWAY_KEYS_BESIDE_ROUTES: [Key; 6] = [
    LISTEN,
    UPSTREAM,
    WORKERS,
    DEADLINE_MS,
    LOG_LEVEL,
    TCP_BESIDE_ROUTES,
];

/// The name of a VM.
pub(crate) const VM_NAME: Key = Key {
    name: "name",
    kind: KeyKind::NewVm,
    absent: Absent::Refused,
};

/// The file of its module.
pub(crate) const MODULE: Key = Key {
    name: "module",
    kind: KeyKind::Text {
        least: 1,
        most: 4096,
    },
    absent: Absent::Refused,
};

/// The configuration of a VM or a plug-in.
pub(crate) const CONFIGURATION: Key = Key {
    name: "configuration",
    kind: KeyKind::Text {
        least: 0,
        most: 65536,
    },
    absent: Absent::Text { text: "" },
};

/// The fuel of each of its calls.
pub(crate) const FUEL: Key = Key {
    name: "fuel",
    kind: KeyKind::Number {
        least: 1,
        most: 1_000_000_000_000,
    },
    absent: Absent::Number { number: 10_000_000 },
};

/// How many pages its memory has at most.
pub(crate) const PAGES: Key = Key {
    name: "pages",
    kind: KeyKind::Number {
        least: 1,
        most: 256,
    },
    absent: Absent::Number { number: 128 },
};

static VM_KEYS: [Key; 5] = [VM_NAME, MODULE, CONFIGURATION, FUEL, PAGES];

/// The name of a plug-in.
pub(crate) const PLUGIN_NAME: Key = Key {
    name: "name",
    kind: KeyKind::NewPlugin,
    absent: Absent::Refused,
};

/// The VM in which it runs.
pub(crate) const PLUGIN_VM: Key = Key {
    name: "vm",
    kind: KeyKind::SomeVm,
    absent: Absent::Refused,
};

/// What becomes of an exchange where it fails.
pub(crate) const FAIL: Key = Key {
    name: "fail",
    kind: KeyKind::OpenOrClosed,
    absent: Absent::Text { text: "closed" },
};

static PLUGIN_KEYS: [Key; 4] = [PLUGIN_NAME, PLUGIN_VM, CONFIGURATION, FAIL];

/// The path of a route.
pub(crate) const PATH: Key = Key {
    name: "path",
    kind: KeyKind::Path,
    absent: Absent::Refused,
};

/// The plug-ins of a route.
pub(crate) const FILTERS: Key = Key {
    name: "filters",
    kind: KeyKind::Filters,
    absent: Absent::NoNames,
};

static ROUTE_KEYS: [Key; 2] = [PATH, FILTERS];

static TOP_KEYS: [Key; 4] = [
    Key {
        name: "gateway",
        kind: KeyKind::Tables,
        absent: Absent::NoNames,
    },
    Key {
        name: "vm",
        kind: KeyKind::Tables,
        absent: Absent::NoNames,
    },
    Key {
        name: "plugin",
        kind: KeyKind::Tables,
        absent: Absent::NoNames,
    },
    Key {
        name: "route",
        kind: KeyKind::Tables,
        absent: Absent::NoNames,
    },
];

/// The keys of `gateway`, whether or not there are routes.
pub(crate) fn gateway_keys(has_routes: bool) -> &'static [Key]
    ensures { map row_of result.now ≡ gateway_keys has_routes }
{
    if has_routes {
        GATEWAY_KEYS_BESIDE_ROUTES.as_slice()
    } else {
        GATEWAY_KEYS.as_slice()
    }
}

/// The keys of a VM.
pub(crate) fn vm_keys() -> &'static [Key]
    ensures { map row_of result.now ≡ vm_keys }
{
    VM_KEYS.as_slice()
}

/// The keys of a plug-in.
pub(crate) fn plugin_keys() -> &'static [Key]
    ensures { map row_of result.now ≡ plugin_keys }
{
    PLUGIN_KEYS.as_slice()
}

/// The keys of a route.
pub(crate) fn route_keys() -> &'static [Key]
    ensures { map row_of result.now ≡ route_keys }
{
    ROUTE_KEYS.as_slice()
}

/// The tables at the top.
pub(crate) fn top_keys() -> &'static [Key]
    ensures { map row_of result.now ≡ top_keys }
{
    TOP_KEYS.as_slice()
}
