// Where a trailer section ends.
ghost use Rattle.std.specs.Prelude.{◌≡◌, length};
ghost use Rattle.h1_model.specs.Lines.{head_limit};
ghost use Rattle.h1_model.specs.Trailers.{section_cut, window_section};
ghost use Rattle.h1_text.specs.Cuts.{seen_cut, IsCutWithin};

use h1_text::{BYTE_LIMIT, Cut, closed_cut, is_empty_line, line_len_at, open_cut};

/// Where the section at the front of a text ends, of which all is looked at.
fn window_section(window: &[u8]) -> Cut
    ensures cut { seen_cut result ≡ window_section window.now }
    ensures within { IsCutWithin (length window.now) result }
{
    let mut at = 0;
    let mut lines = 0;
    while let Some(len) = line_len_at(window, at) {
        if is_empty_line(&window[at..at + len]) {
            return closed_cut(at, lines, len);
        }
        at += len;
        lines += 1;
    }
    open_cut(window.len(), lines)
}

/// Where the trailer section that a text begins with ends, by its first 65,536 bytes (RFC 9112 section 7.1.2).
pub fn section_cut(text: &[u8]) -> Cut
    ensures cut { seen_cut result ≡ section_cut text.now }
    ensures within { IsCutWithin (length text.now) result }
    ensures limit { IsCutWithin head_limit result }
{
    window_section(&text[..text.len().min(BYTE_LIMIT)])
}
