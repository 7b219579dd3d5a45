//! Whether the bits of a tape are a sheet.

ghost use Rattle.std.specs.Prelude.{◌≡◌, true, ◌≤◌, [], length, take, drop, Some};
ghost use Rattle.leaders.specs.Refusal.{answered};
ghost use Rattle.leaders.specs.Verdict.{closes, has_too_many, lowest, walk, walked, verdict};
ghost use Rattle.reading.specs.Faults.{told, sentence};
ghost use Rattle.reading.specs.Lots.{lot_number, is_lot};

use crate::path::{MOST_BRACKETS, Path};
use bits::iter::Bits;
use bits::tape::Tape;
use bits::views::Window;
use std::fmt;

/// Why a tape is not taken.
#[derive(Clone, Copy, PartialEq, Eq, Debug)]
pub enum SheetFault {
    /// It is empty, begins with `)`, or never has as many `)` as `(`.
    Unbalanced,
    /// The brackets first balance after more than 8,002 bits.
    TooManyLots,
    /// There are more or fewer bits after the brackets than the spines must have.
    WrongLength,
    /// The spine of this lot, and of no lower one, has more 0s than L(k) or more 1s than R(k).
    BadWord(u32),
}

impl SheetFault {
    /// The number of the refusal: reply lines and C tell it by that.
    pub fn number(&self) -> u32
        ensures { result ≡ (told self.now).number }
    {
        match self {
            SheetFault::Unbalanced => 7,
            SheetFault::TooManyLots => 8,
            SheetFault::WrongLength => 9,
            SheetFault::BadWord(_) => 10,
        }
    }
}

impl fmt::Display for SheetFault {
    ghost output = { λ fault. Some (sentence fault) };

    fn fmt<W: fmt::Write>(&self, f: &mut fmt::Formatter<W>) -> fmt::Result {
        match self {
            SheetFault::Unbalanced => {
                f.write_str("This is no sheet: its brackets do not begin, or never close.")
            }
            SheetFault::TooManyLots => f.write_str(
                "This is no sheet: it has more than 4,000 lots.",
            ),
            SheetFault::WrongLength => f.write_str(
                "This is no sheet: it has too few or too many letters after its brackets.",
            ),
            SheetFault::BadWord(lot) => {
                write!(f, "This is no sheet: the spine of lot {lot} is wrong.")
            }
        }
    }
}

/// Where the brackets first balance.
fn balance<T: Tape>(tape: &T) -> Option<usize>
    ensures { result ≡ closes (T.Tape.bits tape.now) }
{
    if !tape.get(0)? {
        return None;
    }
    let mut open: usize = 0;
    for (read, bit) in Bits::between(tape, 1, tape.len()).enumerate() {
        if bit {
            open += 1;
        } else {
            if open == 0 {
                return Some(read + 2);
            }
            open -= 1;
        }
    }
    None
}

/// Are there more than `p` zeros or more than `q` ones among the `size` bits from `from` on?
fn too_many<T: Tape>(tape: &T, from: usize, size: usize, p: usize, q: usize) -> bool
    ensures { result ≡ has_too_many p q (take size (drop from (T.Tape.bits tape.now))) }
{
    let word = Window {
        below: tape,
        from,
        most: size,
    };
    let n = word.len();
    let ones = word.rank(n);
    n - ones > p || ones > q
}

/// Where the last word ends, and the first lot whose word is wrong, if one is.
#[derive(Drop)]
struct Walk {
    at: usize,
    bad: Option<u32>,
    ghost lot: { is_lot bad ≡ true },
}

/// The first lot whose word is wrong.
fn first_bad(lot: u32, bad: Option<u32>, wrong: bool) -> Option<u32>
    requires lot { 1 ≤ lot }
    requires bad { is_lot bad ≡ true }
    ensures is { lot_number result ≡ lowest lot (lot_number bad) wrong }
    ensures lot { is_lot result ≡ true }
{
    bad.or(wrong.then_some(lot))
}

/// Over the brackets, `m` bits.
fn walk_over<T: Tape>(tape: &T, m: usize) -> Walk
    requires { (m ≤ MOST_BRACKETS) × (m ≤ length (T.Tape.bits tape.now)) }
    ensures { walked result.at (lot_number result.bad) ≡ walk (T.Tape.bits tape.now) 0 [] 0 m 0 (drop 1 (take m (T.Tape.bits tape.now))) }
{
    let mut path = Path::new();
    let mut d: u16 = 0;
    let mut lot = 0;
    let mut at = m;
    let mut bad = None;
    for bit in Bits::between(tape, 1, m) {
        if bit {
            d += 1;
        } else {
            let root = path.is_empty();
            let before = path.settle(d);
            if !root {
                let size = (before + d as usize).saturating_sub(1);
                lot += 1;
                bad = first_bad(lot, bad, too_many(tape, at, size, before, d as usize));
                at += size;
            }
            d = 0;
        }
    }
    Walk { at, bad }
}

/// How many lots the sheet on the tape has, or why it is none.
pub fn check<T: Tape>(tape: &T) -> Result<u32, SheetFault>
    ensures { answered told result ≡ verdict (T.Tape.bits tape.now) }
{
    let Some(m) = balance(tape) else {
        return Err(SheetFault::Unbalanced);
    };
    if m > MOST_BRACKETS {
        return Err(SheetFault::TooManyLots);
    }
    let end = walk_over(tape, m);
    if end.at != tape.len() {
        return Err(SheetFault::WrongLength);
    }
    match end.bad {
        Some(lot) => Err(SheetFault::BadWord(lot)),
        None => Ok((m / 2).saturating_sub(1) as u32),
    }
}
