//! The letters of a sheet, read off a text.

ghost use Rattle.std.specs.Prelude.{◌≡◌, Some, MatchResult};
ghost use Rattle.packing.specs.Texts.{trimmed, LetteredSheet, Faulty, text_of_fault};

use bits::tape::MOST_BITS;
use std::fmt;

/// Why a text is no lettered sheet. The first that applies is told, in this order.
#[derive(Clone, Copy, PartialEq, Eq, Debug)]
pub enum LetterFault {
    /// There is no letter.
    Empty,
    /// There are more than 32,768 letters.
    TooLong,
    /// The byte at this place, counted from 0, is the first that is neither `(` nor `)`.
    Stray(usize),
}

impl fmt::Display for LetterFault {
    ghost output = { λ fault. Some (text_of_fault fault) };

    fn fmt<W: fmt::Write>(&self, f: &mut fmt::Formatter<W>) -> fmt::Result {
        match self {
            LetterFault::Empty => f.write_str("The sheet is empty. Nothing is packed.\n"),
            LetterFault::TooLong => {
                f.write_str("The sheet has more than 32768 letters. Nothing is packed.\n")
            }
            LetterFault::Stray(place) => write!(
                f,
                "The character at place {place}, counted from 0, is neither ( nor ). Nothing is packed.\n"
            ),
        }
    }
}

/// The text without a line feed at its end.
fn without_line_feed(text: &[u8]) -> &[u8]
    ensures { result.now ≡ trimmed text.now }
{
    match text {
        [letters @ .., b'\n'] => letters,
        _ => text,
    }
}

/// The letters of a text, which may end in a line feed.
pub fn letters_of(text: &[u8]) -> Result<&[u8], LetterFault>
    ensures { MatchResult result (λ t. (t.now ≡ trimmed text.now) × LetteredSheet (trimmed text.now)) (λ e. Faulty (trimmed text.now) e) }
{
    let letters = without_line_feed(text);
    if letters.is_empty() {
        return Err(LetterFault::Empty);
    }
    if letters.len() > MOST_BITS {
        return Err(LetterFault::TooLong);
    }
    match letters.iter().position(|b| *b != b'(' && *b != b')') {
        Some(place) => Err(LetterFault::Stray(place)),
        None => Ok(letters),
    }
}
