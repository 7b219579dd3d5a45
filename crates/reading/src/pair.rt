//! The best and the second of a range, from the bits of a sheet.

ghost use Rattle.std.specs.Prelude.{◌≡◌, ℕ, ◌+◌, ◌-◌, ◌≤◌};
ghost use Rattle.reading.specs.Place.{after};
ghost use Rattle.reading.specs.Reading.{is_left_first, runner_up_of, Small, Swept, Few, Front};
ghost use Rattle.reading.specs.Leads.{Shows, Finds};

use crate::climb::{Mark, Sweep, start_at, sweep_back};
use crate::place::{Way, Ways, go_back, go_home, zero_first};
use bits::tape::Tape;

/// Whether the best in front of the best lot of a sweep, to which a reader has gone `within` steps, is better than the best behind it.
fn left_first<T: Tape>(tape: &T, lots: u32, s: Sweep, within: usize, w: Ways) -> bool
    requires short { s.here ≤ 32768 }
    requires few { Few w.way }
    ensures { (a above : ℕ) → Front (T.Tape.bits tape.now) s.all.best a within s.all.steps w → s.here ≡ after s.all.best (T.Tape.bits tape.now) → s.later ≡ after (s.all.best + 1) (T.Tape.bits tape.now) - after s.all.best (T.Tape.bits tape.now) - (2 + above) → result ≡ is_left_first (T.Tape.bits tape.now) lots s.all.best a above }
{
    let way = w.way;
    let depth = w.own.steps.saturating_sub(s.all.steps);
    let x = way.left.steps.saturating_sub(within).saturating_sub(depth);
    let before = (s.all.best as usize).saturating_sub(1);
    let children = s.here.saturating_sub(way.at).saturating_sub(before);
    let lone = if way.bare { way.lone + 1 } else { way.lone };
    let symbols = 2 * lots as usize + 2 + children + lone;
    zero_first(tape, symbols.saturating_sub(way.left.steps + 1), x, s.later)
}

/// The second of the lots from `low` to `high`, over which a sweep has gone, if there is another.
fn runner_up<T: Tape>(tape: &T, lots: u32, low: u32, high: u32, s: Sweep) -> Option<u32>
    requires swept { Swept (T.Tape.bits tape.now) low high s }
    requires low { 1 ≤ low }
    requires short { s.here ≤ 32768 }
    requires small { Small s.all }
    ensures { result ≡ runner_up_of (T.Tape.bits tape.now) lots low high s.all.best }
{
    let k = s.all.best;
    if low >= k {
        return s.right;
    }
    let start = Way {
        at: s.here,
        left: start_at(k),
        lone: 0,
        bare: false,
    };
    let before = go_back(tape, k - 1, start);
    let next = Way {
        at: before.at,
        left: start_at(k - 1),
        lone: before.lone,
        bare: before.bare,
    };
    let near = go_back(tape, low, next);
    let a = near.left.best;
    if k >= high {
        return Some(a);
    }
    let ways = Ways {
        way: near,
        own: s.all,
    };
    let far = go_home(tape, ways);
    if left_first(tape, lots, s, near.left.steps, far) {
        Some(a)
    } else {
        s.right
    }
}

/// The best lot of a range, and the second if there is one.
#[derive(Clone, Copy, PartialEq, Eq, Debug)]
pub struct Pair {
    pub best: u32,
    pub second: Option<u32>,
}

/// The best and the second of the lots `i` to `j`, of `lots` lots, as far as the tape has them: right where its bits are a sheet of so many, and the range is one of them.
pub fn find_pair<T: Tape>(tape: &T, lots: u32, i: u32, j: u32) -> Option<Pair>
    ensures { Finds (T.Tape.bits tape.now) lots i j result }
{
    if i == 0 || j < i {
        return None;
    }
    let n = tape.len();
    let p = tape.select_zero(j as usize)?;
    let high = Mark {
        lot: j,
        at: n.min(p.saturating_add(1)),
    };
    let s = sweep_back(tape, i, high);
    let second = runner_up(tape, lots, i, j, s);
    Some(Pair {
        best: s.all.best,
        second,
    })
}

/// The same, with lot 0 where the tape has no such lots.
pub fn pair_of<T: Tape>(tape: &T, lots: u32, i: u32, j: u32) -> Pair
    ensures { Shows (T.Tape.bits tape.now) lots i j result }
{
    let none = Pair {
        best: 0,
        second: None,
    };
    find_pair(tape, lots, i, j).unwrap_or(none)
}
