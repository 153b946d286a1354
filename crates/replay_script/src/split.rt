// Texts split at a byte.
ghost use Rattle.std.specs.Prelude.{◌≡◌, ◌∷◌, ◌++◌, MatchOption};
ghost use Rattle.replay_script.specs.Commands.{IsFree};

/// What stands before the first such byte and what stands after it. There is none where the byte is not in the text.
pub(crate) fn split_once(text: &[u8], byte: u8) -> Option<(&[u8], &[u8])>
    ensures { MatchOption result (IsFree byte text.now) (λ parts. IsFree byte parts.0.now × (text.now ≡ parts.0.now ++ (byte ∷ parts.1.now))) }
{
    for (at, b) in text.iter().enumerate() {
        if *b == byte {
            return Some((&text[..at], &text[at + 1..]));
        }
    }
    None
}
