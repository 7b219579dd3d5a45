//! Numbers, as the fields of a line write them.

ghost use Rattle.std.specs.Prelude.{◌≡◌};
ghost use Rattle.std.specs.Option.{option_map};
ghost use Rattle.book.specs.Held.{numbers};
ghost use Rattle.commands.specs.Texts.{fields};
ghost use Rattle.commands.specs.Numbers.{begun_well, one_digit_on, number_of, numbers_in, up_to_five, NumbersAreDecimal};

use crate::line::cut;
use book::fields::Fields;

/// Whether a text begins as a number does: with no needless nought.
fn well_begun(text: &[u8]) -> bool
    ensures { result ≡ begun_well text.now }
{
    match text {
        [] => false,
        [_] => true,
        [first, ..] => *first != b'0',
    }
}

/// A number with one digit more behind it.
fn with_digit(n: u32, byte: u8) -> Option<u32>
    ensures { result ≡ one_digit_on n byte }
{
    if !byte.is_ascii_digit() {
        return None;
    }
    n.checked_mul(10)?.checked_add(u32::from(byte - b'0'))
}

/// The number that a text writes: decimal digits without a needless leading nought, at most 4,294,967,295.
pub fn number_of(text: &[u8]) -> Option<u32>
    ensures { result ≡ number_of text.now }
{
    if !well_begun(text) {
        return None;
    }
    let mut n: u32 = 0;
    for byte in text {
        n = with_digit(n, *byte)?;
    }
    Some(n)
}

/// The numbers that the fields of a text write, if each writes one and they are five at most.
pub fn numbers_of(text: &[u8]) -> Option<Fields>
    ensures { option_map numbers result ≡ up_to_five (numbers_in (fields text.now)) }
{
    let mut values = [0u32; 5];
    let mut rest = text;
    // By index, since the loop goes over fields, and the numbers so far are cut out of `values` where the last field ends.
    for at in 0..5 {
        let Some((field, behind)) = cut(rest, b',') else {
            values[at] = number_of(rest)?;
            return Some(Fields::new(&values[..=at]));
        };
        values[at] = number_of(field)?;
        rest = behind;
    }
    None
}

/// A field writes a number exactly as that number is written in decimal.
pub fn numbers_are_decimal() -> u8
    ensures { NumbersAreDecimal }
{
    0
}
