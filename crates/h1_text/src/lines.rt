// The lines of a text, and where a part of it ends that ends with an empty line.
ghost use Rattle.std.specs.Prelude.{◌≡◌, ◌+◌, ◌^◌, ◌<◌, ◌≤◌, [], ◌∷◌, length, take, drop, IfSome, MatchOption};
ghost use Rattle.h1_model.specs.Lines.{whole_lines, is_empty_line, cut_at, cut_open};
ghost use Rattle.h1_text.specs.Cuts.{seen_cut, IsCutWithin};

use memchr::memchr;

/// How many bytes of a head may come, from its first line on, or of a trailer section.
pub const BYTE_LIMIT: usize = 65_536;

/// How many field lines may stand in front of the empty line.
const LINE_LIMIT: usize = 100;

/// Where a head or a trailer section ends, as far as it has come.
#[derive(Clone, Copy)]
pub enum Cut {
    /// A whole one of so many bytes, its empty line with it, and of so many field lines.
    Whole { len: usize, lines: usize },
    /// It has grown past a limit before its empty line came.
    TooLarge,
    /// Its empty line has not come.
    Unfinished,
}

/// The length of the first line of a text with its end, if that line is whole.
pub fn line_len(text: &[u8]) -> Option<usize>
    ensures within { IfSome result (λ len. (0 < len) × (len ≤ length text.now)) }
    ensures lines { MatchOption result (whole_lines text.now ≡ [])
        (λ len. whole_lines text.now ≡ take len text.now ∷ whole_lines (drop len text.now)) }
{
    let at = memchr(b'\n', text)?;
    Some(at + 1)
}

/// The length of the line at a place, if it is whole.
pub fn line_len_at(text: &[u8], at: usize) -> Option<usize>
    requires { at ≤ length text.now }
    ensures within { IfSome result (λ len. (0 < len) × (at + len ≤ length text.now)) }
    ensures lines { MatchOption result (whole_lines (drop at text.now) ≡ [])
        (λ len. whole_lines (drop at text.now) ≡ take len (drop at text.now) ∷ whole_lines (drop len (drop at text.now))) }
{
    line_len(&text[at..])
}

/// Whether a line is an LF, or a CR and an LF.
pub fn is_empty_line(line: &[u8]) -> bool
    ensures { result ≡ is_empty_line line.now }
{
    matches!(line, b"\n" | b"\r\n")
}

/// What stands where no empty line has come in so many bytes and so many field lines.
pub fn open_cut(bytes: usize, lines: usize) -> Cut
    ensures { seen_cut result ≡ cut_open bytes lines }
{
    if bytes >= BYTE_LIMIT || lines > LINE_LIMIT {
        Cut::TooLarge
    } else {
        Cut::Unfinished
    }
}

/// What stands where an empty line of so many bytes comes at a place, after so many field lines.
pub fn closed_cut(at: usize, lines: usize, len: usize) -> Cut
    requires { at + len < 2 ^ 64 }
    ensures cut { seen_cut result ≡ cut_at at (lines, len) }
    ensures within { IsCutWithin (at + len) result }
{
    if lines > LINE_LIMIT {
        Cut::TooLarge
    } else {
        Cut::Whole {
            len: at + len,
            lines,
        }
    }
}
