//! Casting a sheet: the lots are linked into a tree, and its brackets and words are punched.
#![tactic(auto)]

ghost use Rattle.std.specs.Prelude.{◌≡◌, ℕ, suc, ◌+◌, ◌*◌, ◌^◌, ◌<◌, ◌≤◌, Bool, length, drop};
ghost use Rattle.leaders.specs.Order.{Strict};
ghost use Rattle.leaders.specs.Refusal.{answered};
ghost use Rattle.leaders.specs.Sheet.{sheet};
ghost use Rattle.casting.specs.Casts.{told, casting, punch_of_sheet, cast_sheet};

use bits::punch::Punch;
use links::Links;
use links::sides::{Sides, Words};

mod linking;
mod writing;

/// What is cast: lots numbered from 1, and which lot beats which.
pub trait Lots {
    // Lot i beats lot j: an order of all numbers.
    ghost order: { Self → (ℕ → ℕ → Bool) };

    ghost count: { Self → ℕ };

    fn len(&self) -> usize
        ensures count { result ≡ count self.now }
        ensures few { result < 2 ^ 30 }
        ensures strict { Strict (order self.now) };

    fn beats(&self, i: usize, j: usize) -> bool
        requires first { (1 ≤ i) × (i ≤ count self.now) }
        requires second { (1 ≤ j) × (j ≤ count self.now) }
        ensures { result ≡ order self.now i j };
}

/// Why nothing is cast.
#[derive(Clone, Copy, PartialEq, Eq, Debug)]
pub enum CastFault {
    /// There are fewer than 4(n + 1) working numbers.
    FewNumbers,
    /// The sheet has so many bits, more than the punch has room for.
    TooLong(u32),
}

impl CastFault {
    /// The number of the refusal: reply lines tell it by that, a book's and a hall's.
    pub fn number(&self) -> u32
        ensures { result ≡ (told self.now).number }
    {
        match self {
            CastFault::FewNumbers => 5,
            CastFault::TooLong(_) => 6,
        }
    }
}

/// Casts with exactly the working numbers that it takes.
fn cast_in<L: Lots, P: Punch>(lots: &L, punch: &mut P, work: &mut [u32]) -> Result<u32, CastFault>
    requires { length work.old ≡ 4 * (L.Lots.count lots.now + 1) }
    ensures bits { casting (P.Punch.written punch.new) (answered told result) ≡ punch_of_sheet (sheet (L.Lots.order lots.now) (L.Lots.count lots.now)) (P.Punch.room punch.old) (P.Punch.written punch.old) }
    ensures room { P.Punch.room punch.new ≡ P.Punch.room punch.old }
    ensures home { P.Punch.home punch.new ≡ P.Punch.home punch.old }
{
    let n = lots.len();
    let mut links = Links::over(work, n);
    linking::link(lots, &mut links);
    let Links {
        n,
        up: sizes,
        left,
        right,
        kids,
    } = links;
    let words = Words {
        sides: Sides { n, left, right },
        kids,
    };
    writing::punch_linked(lots, punch, words, sizes)
}

/// Casts the sheet of `lots`: links them in the working numbers, and then punches the brackets and the words.
pub fn cast<L: Lots, P: Punch>(lots: &L, punch: &mut P, work: &mut [u32]) -> Result<u32, CastFault>
    ensures bits { casting (P.Punch.written punch.new) (answered told result) ≡ cast_sheet (sheet (L.Lots.order lots.now) (L.Lots.count lots.now)) (L.Lots.count lots.now) (P.Punch.room punch.old) (length work.old) (P.Punch.written punch.old) }
    ensures room { P.Punch.room punch.new ≡ P.Punch.room punch.old }
    ensures home { P.Punch.home punch.new ≡ P.Punch.home punch.old }
    ensures rest { drop (4 * suc (L.Lots.count lots.now)) work.new ≡ drop (4 * suc (L.Lots.count lots.now)) work.old }
    ensures kept { length work.old < 4 * suc (L.Lots.count lots.now) → work.new ≡ work.old }
{
    let n = lots.len();
    if work.len() / 4 <= n {
        return Err(CastFault::FewNumbers);
    }
    cast_in(lots, punch, &mut work[0..4 * (n + 1)])
}
