// Where a head begins and ends.
ghost use Rattle.std.specs.Prelude.{◌≡◌, ◌≤◌, length};
ghost use Rattle.h1_model.specs.Lines.{head_limit, empty_line_bytes, head_cut, window_cut};
ghost use Rattle.h1_text.specs.Cuts.{seen_cut, IsCutWithin};

use h1_text::{BYTE_LIMIT, Cut, closed_cut, is_empty_line, line_len, line_len_at, open_cut};

/// How many bytes the empty lines at the front of a text take (RFC 9112 section 2.2).
pub fn skip_empty_lines(text: &[u8]) -> usize
    ensures value { result ≡ empty_line_bytes text.now }
    ensures within { result ≤ length text.now }
{
    let mut at = 0;
    while let Some(len) = line_len_at(text, at) {
        if !is_empty_line(&text[at..at + len]) {
            break;
        }
        at += len;
    }
    at
}

/// Where the head at the front of a text ends, of which all is looked at.
fn window_cut(window: &[u8]) -> Cut
    ensures cut { seen_cut result ≡ window_cut window.now }
    ensures within { IsCutWithin (length window.now) result }
{
    let Some(first) = line_len(window) else {
        return open_cut(window.len(), 0);
    };
    let mut at = first;
    let mut lines = 0;
    while let Some(len) = line_len_at(window, at) {
        if is_empty_line(&window[at..at + len]) {
            return closed_cut(at, lines, len);
        }
        at += len;
        lines += 1;
    }
    open_cut(window.len(), lines)
}

/// Where the head that a text begins with ends, by its first 65,536 bytes.
pub fn head_cut(text: &[u8]) -> Cut
    ensures cut { seen_cut result ≡ head_cut text.now }
    ensures within { IsCutWithin (length text.now) result }
    ensures limit { IsCutWithin head_limit result }
{
    window_cut(&text[..text.len().min(BYTE_LIMIT)])
}
