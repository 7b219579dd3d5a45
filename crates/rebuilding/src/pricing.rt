// Prices in the order of all lots.
ghost use Rattle.std.specs.Prelude.{◌≡◌, ◌≤◌, length};
ghost use Rattle.rebuilding.specs.Prices.{Prices};

use crate::joining::Order;

/// Hands out the prices from the number of lots down to 1, to the lots from `first` on along the order.
pub(crate) fn hand_out(prices: &mut [u32], order: &Order, first: u32)
    requires prices { length prices.old ≡ order.now.sides.n }
    requires first { first ≤ order.now.sides.n }
    ensures { Prices order.now.sides.n order.now.next.now first prices.new }
{
    let mut x = first;
    // Not `1..=`, with which a loop ends in two ways.
    for price in (1..order.sides.n + 1).rev() {
        // 0 ends the list, as it is stored.
        if x == 0 {
            return;
        }
        prices[x as usize - 1] = price as u32;
        x = order.next[x as usize];
    }
}
