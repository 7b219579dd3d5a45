//! Back through the numbers of children, from lot to lot.

ghost use Rattle.std.specs.Prelude.{◌≡◌, ◌+◌, ◌≤◌, false, Some};
ghost use Rattle.bits.specs.Bits.{bit_at};
ghost use Rattle.leaders.specs.Sheet.{unary};
ghost use Rattle.reading.specs.Climbing.{at, climb};
ghost use Rattle.reading.specs.Place.{Number, Begins};
ghost use Rattle.reading.specs.Reading.{Small, Swept, Widened};

use bits::tape::Tape;

/// How far a reader has gone back. That its counts are small is a clause and no part of the type: definitions make such values without a proof.
#[derive(Clone, Copy)]
pub struct Climb {
    pub lot: u32,
    pub best: u32,
    pub above: usize,
    pub steps: usize,
}

/// Where a reader begins.
pub(crate) fn start_at(lot: u32) -> Climb
    ensures { result ≡ at lot lot 0 0 }
{
    Climb {
        lot,
        best: lot,
        above: 0,
        steps: 0,
    }
}

/// Back over the number of `lot`, the lot before, which has so many children.
pub(crate) fn pass(s: Climb, lot: u32, children: usize) -> Climb
    requires lot { s.lot ≡ lot + 1 }
    requires small { Small s }
    ensures is { result ≡ climb (unary children) s }
    ensures lot { result.lot ≡ lot }
    ensures small { Small result }
{
    if children > s.above {
        Climb {
            lot,
            best: lot,
            above: 0,
            steps: s.steps + 1,
        }
    } else {
        Climb {
            lot,
            best: s.best,
            above: s.above + 1 - children,
            steps: s.steps,
        }
    }
}

/// Where the number of children begins that ends with the zero at `end`.
pub(crate) fn number_back<T: Tape>(tape: &T, end: usize) -> usize
    requires { bit_at (T.Tape.bits tape.now) end ≡ Some false }
    ensures short { result ≤ end }
    ensures is { Number (T.Tape.bits tape.now) end result }
{
    // By places and not by `Bits`: with a chain that counts the ones, pages of all rising prices took 2.1 times as long as by hand in C, over the bar of 1.5; as here, 1.4.
    for p in (0..end).rev() {
        if !tape.get(p).unwrap_or(true) {
            return p + 1;
        }
    }
    0
}

/// A lot, and the bit where its number of children begins.
#[derive(Clone, Copy)]
pub struct Mark {
    pub lot: u32,
    pub at: usize,
}

/// What a reader has seen on its way back: where the number of the best lot begins, the best lot behind it, if there is one, and the children of the best behind that one.
#[derive(Clone, Copy)]
pub struct Sweep {
    pub all: Climb,
    pub here: usize,
    pub right: Option<u32>,
    // Beside the option and not in it: with an option of both, ten of 250 random lots took 1.51 times as long as by hand in C, over the bar of 1.5; as here, 1.32.
    pub later: usize,
}

/// Back over the number of `before`, the lot before, which has so many children.
pub(crate) fn widen(s: Sweep, before: Mark, children: usize) -> Sweep
    requires lot { s.all.lot ≡ before.lot + 1 }
    requires small { Small s.all }
    ensures all { result.all ≡ climb (unary children) s.all }
    ensures lot { result.all.lot ≡ before.lot }
    ensures small { Small result.all }
    ensures rest { Widened s before.at children result }
{
    let all = pass(s.all, before.lot, children);
    if children > s.all.above {
        Sweep {
            all,
            here: before.at,
            right: Some(s.all.best),
            later: children - s.all.above - 1,
        }
    } else {
        Sweep {
            all,
            here: s.here,
            right: s.right,
            later: s.later,
        }
    }
}

/// From the lot at `high` back to lot `low`.
pub(crate) fn sweep_back<T: Tape>(tape: &T, low: u32, high: Mark) -> Sweep
    requires begins { Begins (T.Tape.bits tape.now) high.lot high.at }
    requires range { (1 ≤ low) × (low ≤ high.lot) }
    ensures is { Swept (T.Tape.bits tape.now) low high.lot result }
    ensures short { result.here ≤ high.at }
    ensures small { Small result.all }
{
    let mut at = high.at;
    let mut s = Sweep {
        all: start_at(high.lot),
        here: high.at,
        right: None,
        later: 0,
    };
    // Written out here, in `go_back` and in `go_home`: with one iterator over the lots for the three, pages of ten lots of random books took 1.9 to 2.4 times as long as by hand in C, over the bar of 1.5; as here, 1.3 to 1.5.
    for lot in (low..high.lot).rev() {
        let end = at - 1;
        at = number_back(tape, end);
        s = widen(s, Mark { lot, at }, end - at);
    }
    s
}
