//! Rebuilding prices from a sheet: the lots are linked by its bits, the orders of all parts are joined, and prices are handed out in the order of all lots.
#![tactic(auto)]

ghost use Rattle.std.specs.Prelude.{◌≡◌, ℕ, suc, ◌+◌, ◌*◌, ◌≤◌, Bool, length, drop, is_ok};
ghost use Rattle.leaders.specs.Order.{Strict};
ghost use Rattle.leaders.specs.Sheet.{sheet};
ghost use Rattle.leaders.specs.Rebuilt.{rebuilt};
ghost use Rattle.rebuilding.specs.Rebuilding.{enough, Declined, Written};

use bits::tape::Tape;
use joining::{Order, Parts, Seam, TapeWords};
use linking::link_sheet;
use links::Links;
use links::sides::Sides;

mod joining;
mod pricing;

/// Why no prices are written: there are fewer than n of them, or fewer than 4(n + 1) working numbers.
#[derive(Clone, Copy, PartialEq, Eq, Debug)]
pub struct FewNumbers;

/// Rebuilds with exactly the prices and the working numbers that it takes.
fn rebuild_in<T: Tape>(tape: &T, prices: &mut [u32], work: &mut [u32])
    requires few { length prices.old ≤ 16383 }
    requires numbers { length work.old ≡ 4 * (length prices.old + 1) }
    ensures { (b : ℕ → ℕ → Bool) → Strict b → sheet b (length prices.old) ≡ T.Tape.bits tape.now → prices.new ≡ rebuilt b (length prices.old) }
{
    let mut links = Links::over(work, prices.len());
    link_sheet(tape, &mut links, prices);
    let Links {
        n,
        up: ends,
        left,
        right,
        kids: next,
    } = links;
    // Node 0 is the root, which hangs on none.
    ends[0] = 0;
    next.fill(0);
    let sides = Sides { n, left, right };
    let mut parts = Parts {
        order: Order {
            sides,
            next,
            seam: Seam::default(),
        },
        ends,
        words: TapeWords {
            tape,
            starts: prices,
        },
    };
    parts.join_all();
    let Parts { order, .. } = parts;
    pricing::hand_out(prices, &order, sides.right[0]);
}

/// Writes the prices that the merge order of the sheet on the tape defines, for `lots` lots.
pub fn rebuild_prices<T: Tape>(
    tape: &T,
    lots: u32,
    prices: &mut [u32],
    work: &mut [u32],
) -> Result<(), FewNumbers>
    ensures reply { is_ok result ≡ enough lots (length prices.old) (length work.old) }
    ensures declined { Declined result prices.old prices.new work.old work.new }
    ensures written { Written result (T.Tape.bits tape.now) lots prices.old prices.new }
    ensures past { drop lots prices.new ≡ drop lots prices.old }
    ensures rest { drop (4 * suc lots) work.new ≡ drop (4 * suc lots) work.old }
{
    let n = lots as usize;
    if prices.len() < n || work.len() / 4 <= n {
        return Err(FewNumbers);
    }
    // A sheet of n lots has at least 2n + 2 bits.
    if tape.len() / 2 <= n {
        return Ok(());
    }
    rebuild_in(tape, &mut prices[0..n], &mut work[0..4 * (n + 1)]);
    Ok(())
}
