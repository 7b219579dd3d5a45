//! What is printed of a sheet: its sizes, its bytes, and that they read back the same; or why it is none.

ghost use Rattle.std.specs.Prelude.{◌≡◌, ◌<◌, ◌++◌, IfOk, string_bytes, OnOk};
ghost use Rattle.std.specs.List.{flat_map};
ghost use Rattle.bits.specs.Bits.{lettered};
ghost use Rattle.packing.specs.Texts.{text_of_fault};
ghost use Rattle.packing.specs.Reports.{hex_letter, hex_byte, verdict_text, text_of_sizes, Loaded, Reported};

use crate::compare::same_bits;
use crate::letters::{LetterFault, letters_of};
use crate::pack::{Sizes, measure, pack};
use bits::tape::LetteredTape;
use packed::tape::PackedTape;
use std::alloc::{AllocError, Global};

/// A hexadecimal digit.
fn hex_digit(n: u8) -> char
    requires { n < 16 }
    ensures { result ≡ hex_letter n }
{
    if n < 10 {
        (b'0' + n) as char
    } else {
        (b'A' - 10 + n) as char
    }
}

// Digit by digit: with `write!` and `{:02X}` a text of 4,096 bytes took 2 to 7 times as long.
/// Adds a byte to a text, as a space and two hexadecimal digits.
fn push_hex(out: &mut String, byte: u8) -> Result<(), AllocError>
    ensures { OnOk result (string_bytes out.new ≡ string_bytes out.old ++ hex_byte byte) }
{
    out.push(' ')?;
    out.push(hex_digit(byte / 16))?;
    out.push(hex_digit(byte % 16))
}

/// Bytes in hexadecimal, a space before each.
pub fn hex(heap: Global, bytes: &[u8]) -> Result<String, AllocError>
    ensures { IfOk result (λ t. string_bytes t ≡ flat_map hex_byte bytes.now) }
{
    let mut out = String::new(heap);
    for byte in bytes {
        push_hex(&mut out, *byte)?;
    }
    Ok(out)
}

/// Why a text is no sheet, in a sentence.
pub fn fault_text(heap: Global, fault: LetterFault) -> Result<String, AllocError>
    ensures { IfOk result (λ t. string_bytes t ≡ text_of_fault fault) }
{
    format!(in heap; "{fault}")
}

/// The verdict on reading back.
fn verdict(same: bool) -> &'static str
    ensures { result.now ≡ verdict_text same }
{
    if same { "the same" } else { "not the same" }
}

/// The lines on a packed sheet.
fn sizes_text(heap: Global, sizes: Sizes, digits: &str, same: bool) -> Result<String, AllocError>
    ensures { IfOk result (λ t. string_bytes t ≡ text_of_sizes sizes.bits sizes.ones sizes.bytes digits.now same) }
{
    let Sizes { bits, ones, bytes } = sizes;
    let answer = verdict(same);
    format!(in heap;
        "Bits in the sheet: {bits}\nOnes among them: {ones}\nBytes to load: {bytes}\nIn hexadecimal:{digits}\nRead back from these bytes, the letters are {answer}.\n"
    )
}

/// Packs letters, reads them back, and tells of it.
pub fn load_text(heap: Global, letters: &[u8]) -> Result<String, AllocError>
    ensures { IfOk result (λ t. Loaded (lettered letters.now) (string_bytes t)) }
{
    let sheet = LetteredTape { text: letters };
    let mut bytes = [0u8; 4096];
    let Ok(count) = pack(&sheet, &mut bytes) else {
        unreachable()
    };
    let read = PackedTape {
        bytes: &bytes,
        count,
    };
    let sizes = measure(&read);
    let used = sizes.bytes;
    let digits = hex(heap, &bytes[0..used])?;
    sizes_text(heap, sizes, digits.as_str(), same_bits(&read, &sheet))
}

/// What is printed for an input.
pub fn report(heap: Global, input: &[u8]) -> Result<String, AllocError>
    ensures { IfOk result (λ t. Reported input.now (string_bytes t)) }
{
    match letters_of(input) {
        Ok(letters) => load_text(heap, letters),
        Err(fault) => fault_text(heap, fault),
    }
}
