//! In front of the best lot of a range: the path to lot 1, where the lot's spine begins, and which of two symbols comes first in it.

ghost use Rattle.std.specs.Prelude.{◌≡◌, ℕ, ◌+◌, ◌≤◌, drop};
ghost use Rattle.leaders.specs.Tree.{sooner};
ghost use Rattle.reading.specs.Place.{Begins, lonely};
ghost use Rattle.reading.specs.Reading.{On, Small, Few, Stepped, Goes};

use crate::climb::{Climb, Mark, number_back, pass};
use bits::iter::Bits;
use bits::tape::Tape;

/// The way back in front of a lot, from the lot before it: how many lots have none below them on either side, and whether the next one has none if a lot with children stands before it.
#[derive(Clone, Copy)]
pub struct Way {
    pub at: usize,
    pub left: Climb,
    pub lone: usize,
    pub bare: bool,
}

/// The same, with a reader that goes along.
#[derive(Clone, Copy)]
pub struct Ways {
    pub way: Way,
    pub own: Climb,
}

/// One more lot that has none below it on either side, if a lot with so many children stands before it?
pub(crate) fn one_more(bare: bool, children: usize) -> usize
    ensures is { result ≡ lonely bare children }
    ensures few { result ≤ 1 }
{
    if bare && children > 0 { 1 } else { 0 }
}

/// Back over the number of `before`, the lot before, which has so many children.
pub(crate) fn step_back(w: Way, before: Mark, children: usize) -> Way
    requires lot { w.left.lot ≡ before.lot + 1 }
    requires few { Few w }
    ensures is { Stepped w before.at children result }
    ensures lot { result.left.lot ≡ before.lot }
    ensures few { Few result }
{
    Way {
        at: before.at,
        left: pass(w.left, before.lot, children),
        lone: w.lone + one_more(w.bare, children),
        bare: children == 0,
    }
}

/// Back to lot `low`.
pub(crate) fn go_back<T: Tape>(tape: &T, low: u32, from: Way) -> Way
    requires begins { Begins (T.Tape.bits tape.now) from.left.lot from.at }
    requires range { (1 ≤ low) × (low ≤ from.left.lot) }
    requires few { Few from }
    ensures is { Goes (T.Tape.bits tape.now) from low result }
    ensures few { Few result }
{
    let mut w = from;
    for lot in (low..from.left.lot).rev() {
        let end = w.at - 1;
        let at = number_back(tape, end);
        w = step_back(w, Mark { lot, at }, end - at);
    }
    w
}

/// Back to lot 1, with another reader.
pub(crate) fn go_home<T: Tape>(tape: &T, from: Ways) -> Ways
    requires begins { Begins (T.Tape.bits tape.now) from.way.left.lot from.way.at }
    requires lot { (1 ≤ from.way.left.lot) × (from.own.lot ≡ from.way.left.lot) }
    requires few { Few from.way }
    requires small { Small from.own }
    ensures way { Goes (T.Tape.bits tape.now) from.way 1 result.way }
    ensures own { (m c : ℕ) → from.own.lot ≤ m → On (T.Tape.bits tape.now) m from.own.lot c from.own → On (T.Tape.bits tape.now) m 1 c result.own }
    ensures few { Few result.way }
{
    let mut w = from;
    for lot in (1..from.way.left.lot).rev() {
        let end = w.way.at - 1;
        let at = number_back(tape, end);
        w = Ways {
            way: step_back(w.way, Mark { lot, at }, end - at),
            own: pass(w.own, lot, end - at),
        };
    }
    w
}

/// Does a zero that `x` zeros precede, from `from` on, come before a one that `y` ones precede?
pub(crate) fn zero_first<T: Tape>(tape: &T, from: usize, x: usize, y: usize) -> bool
    ensures { result ≡ sooner (drop from (T.Tape.bits tape.now)) x y }
{
    let mut zeros = x;
    let mut ones = y;
    for bit in Bits::between(tape, from, tape.len()) {
        if bit {
            if ones == 0 {
                return false;
            }
            ones -= 1;
        } else {
            if zeros == 0 {
                return true;
            }
            zeros -= 1;
        }
    }
    false
}
