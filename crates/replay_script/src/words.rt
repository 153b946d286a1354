// Words of a line, printed.
ghost use Rattle.std.specs.Prelude.{◌≡◌, ◌∷◌, ◌++◌, OnOk, decimal};
ghost use Rattle.hex.specs.Hex.{encode_lower};

use gate_base::{LineNo, Octets, OutOfMemory};
use itoa::Buffer;
use std::alloc::Global;

/// Puts a word and a number at the end.
pub(crate) fn print_decimal(out: &mut Octets, word: &[u8], number: u64) -> Result<(), OutOfMemory>
    ensures { OnOk result (out.new ≡ out.old ++ (word.now ++ decimal number)) }
{
    out.extend_from_slice(word)?;
    out.extend_from_slice(Buffer::new().format(number).as_bytes())
}

/// Puts a word and the number of a line at the end.
pub(crate) fn print_number(out: &mut Octets, word: &[u8], line: LineNo) -> Result<(), OutOfMemory>
    ensures { OnOk result (out.new ≡ out.old ++ (word.now ++ decimal line)) }
{
    print_decimal(out, word, u64::from(line.get()))
}

/// Puts a word, the number of a line, a space and the bytes in hexadecimal at the end.
pub(crate) fn print_bytes(
    alloc: Global,
    out: &mut Octets,
    word: &[u8],
    line: LineNo,
    bytes: &[u8],
) -> Result<(), OutOfMemory>
    ensures { OnOk result (out.new ≡ out.old ++ (word.now ++ (decimal line ++ (32 ∷ encode_lower bytes.now)))) }
{
    print_number(out, word, line)?;
    out.push(b' ')?;
    print_hex(alloc, out, bytes)
}

/// Puts bytes in lower-case hexadecimal at the end.
pub(crate) fn print_hex(alloc: Global, out: &mut Octets, bytes: &[u8]) -> Result<(), OutOfMemory>
    ensures { OnOk result (out.new ≡ out.old ++ encode_lower bytes.now) }
{
    let digits = hex::encode(alloc, bytes)?;
    out.extend_from_slice(digits.as_bytes())
}
