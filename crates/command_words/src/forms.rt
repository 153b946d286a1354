// The plain definition of the forms, as tests.
ghost use Rattle.std.specs.Prelude.{◌≡◌, map, string_bytes};
ghost use Rattle.std.specs.List.{list_all};
ghost use Rattle.command_words.specs.Forms.{is_plain, names_script, is_digit, is_number, number_of, is_between, are_plain, are_numbers, is_replay, is_replay_config, is_serve, is_serve_until, is_check, is_invoke, is_generate, is_report};

/// What a list of words asks for.
#[derive(Drop)]
pub enum Form<'a> {
    /// `replay SCRIPT MODULE..`: runs a script over the plain configuration with a VM for each module.
    Replay {
        script: &'a str,
        modules: &'a [String],
    },
    /// `replay --config CONFIG SCRIPT`: runs a script over a configuration.
    ReplayConfig {
        config: &'a str,
        script: &'a str,
    },
    /// `serve CONFIG`, and `--stop-after N` where it is to stop once N lines were accepted and have closed.
    Serve {
        config: &'a str,
        stop_after: Option<u32>,
    },
    /// `check CONFIG`: reads a configuration and its modules.
    Check {
        config: &'a str,
    },
    /// `invoke MODULE EXPORT ARGUMENT..`: calls an exported function.
    Invoke {
        module: &'a str,
        export: &'a str,
        arguments: &'a [String],
    },
    /// `generate N`: runs the built-in load of this number.
    Generate {
        n: u32,
    },
    /// `report MODULE`: says what a module imports and exports.
    Report {
        module: &'a str,
    },
}

/// Whether a word is not empty, and does not begin with `-`.
fn is_plain(word: &[u8]) -> bool
    ensures { result ≡ is_plain word.now }
{
    match word {
        [] => false,
        [first, ..] => *first != b'-',
    }
}

/// Whether a word names a script: it is not empty, and does not begin with `-` but for `-` alone.
fn names_script(word: &[u8]) -> bool
    ensures { result ≡ names_script word.now }
{
    match word {
        [] => false,
        [_] => true,
        [first, ..] => *first != b'-',
    }
}

/// Whether a word is a number of any length: decimal digits, and no zero in front of others.
fn is_number(word: &[u8]) -> bool
    ensures { result ≡ is_number word.now }
{
    match word {
        [] => false,
        [only] => is_digit(*only),
        [first, ..] => *first != b'0' && are_digits(word),
    }
}

/// Whether all bytes are decimal digits.
fn are_digits(word: &[u8]) -> bool
    ensures { result ≡ list_all is_digit word.now }
{
    word.iter().all(|b| is_digit(*b))
}

/// Whether a byte is a decimal digit.
fn is_digit(b: u8) -> bool
    ensures { result ≡ is_digit b }
{
    b.is_ascii_digit()
}

/// The number below 2^32 that a word writes.
#[tactic(auto, unfolding(crate::specs::Forms::number_of))]
pub(crate) fn number_of(word: &str) -> Option<u32>
    ensures { result ≡ number_of word.now }
{
    if !is_number(word.as_bytes()) {
        return None;
    }
    match word.parse::<u32>() {
        Ok(n) => Some(n),
        Err(_) => None,
    }
}

/// Whether a word is a number within these bounds.
fn is_between(least: u32, most: u32, word: &str) -> bool
    ensures { result ≡ is_between least most word.now }
{
    match number_of(word) {
        Some(n) => least <= n && n <= most,
        None => false,
    }
}

/// Whether all words are plain.
fn are_plain(words: &[String]) -> bool
    ensures { result ≡ are_plain (map string_bytes words.now) }
{
    all_are_plain(words)
}

/// The same, said of the words one by one.
fn all_are_plain(words: &[String]) -> bool
    ensures { result ≡ list_all (λ w. is_plain (string_bytes w)) words.now }
{
    words.iter().all(|word| is_plain(word.as_bytes()))
}

/// Whether all words are numbers.
fn are_numbers(words: &[String]) -> bool
    ensures { result ≡ are_numbers (map string_bytes words.now) }
{
    all_are_numbers(words)
}

/// The same, said of the words one by one.
fn all_are_numbers(words: &[String]) -> bool
    ensures { result ≡ list_all (λ w. is_number (string_bytes w)) words.now }
{
    words.iter().all(|word| is_number(word.as_bytes()))
}

/// Whether the words are `replay SCRIPT` and then 0 to 16 words MODULE.
pub(crate) fn is_replay(words: &[String]) -> bool
    ensures { result ≡ is_replay (map string_bytes words.now) }
{
    match words {
        [command, script, modules @ ..] => {
            command.as_str() == "replay"
                && names_script(script.as_bytes())
                && modules.len() <= 16
                && are_plain(modules)
        }
        _ => false,
    }
}

/// Whether the words are `replay --config CONFIG SCRIPT`.
pub(crate) fn is_replay_config(words: &[String]) -> bool
    ensures { result ≡ is_replay_config (map string_bytes words.now) }
{
    match words {
        [command, option, config, script] => {
            command.as_str() == "replay"
                && option.as_str() == "--config"
                && is_plain(config.as_bytes())
                && names_script(script.as_bytes())
        }
        _ => false,
    }
}

/// Whether the words are `serve CONFIG`.
pub(crate) fn is_serve(words: &[String]) -> bool
    ensures { result ≡ is_serve (map string_bytes words.now) }
{
    match words {
        [command, config] => command.as_str() == "serve" && is_plain(config.as_bytes()),
        _ => false,
    }
}

/// Whether the words are `serve CONFIG --stop-after N`.
pub(crate) fn is_serve_until(words: &[String]) -> bool
    ensures { result ≡ is_serve_until (map string_bytes words.now) }
{
    match words {
        [command, config, option, n] => {
            command.as_str() == "serve"
                && option.as_str() == "--stop-after"
                && is_plain(config.as_bytes())
                && is_between(1, 1_000_000, n.as_str())
        }
        _ => false,
    }
}

/// Whether the words are `check CONFIG`.
pub(crate) fn is_check(words: &[String]) -> bool
    ensures { result ≡ is_check (map string_bytes words.now) }
{
    match words {
        [command, config] => command.as_str() == "check" && is_plain(config.as_bytes()),
        _ => false,
    }
}

/// Whether the words are `invoke MODULE EXPORT` and then 0 to 16 numbers.
pub(crate) fn is_invoke(words: &[String]) -> bool
    ensures { result ≡ is_invoke (map string_bytes words.now) }
{
    match words {
        [command, module, export, arguments @ ..] => {
            command.as_str() == "invoke"
                && is_plain(module.as_bytes())
                && is_plain(export.as_bytes())
                && arguments.len() <= 16
                && are_numbers(arguments)
        }
        _ => false,
    }
}

/// Whether the words are `generate N`.
pub(crate) fn is_generate(words: &[String]) -> bool
    ensures { result ≡ is_generate (map string_bytes words.now) }
{
    match words {
        [command, n] => command.as_str() == "generate" && is_between(0, u32::MAX, n.as_str()),
        _ => false,
    }
}

/// Whether the words are `report MODULE`.
pub(crate) fn is_report(words: &[String]) -> bool
    ensures { result ≡ is_report (map string_bytes words.now) }
{
    match words {
        [command, module] => command.as_str() == "report" && is_plain(module.as_bytes()),
        _ => false,
    }
}
