//! What the benchmark calls: pages without the take before each, and a cast into lent bytes.
#![tactic(auto)]

ghost use Rattle.timing.specs.Timed.{CastInto};

use board::board::Board;
use book::lots::KeyLots;
use casting::cast;
use keys::price::Price;
use packed::punch::PackedPunch;
use packed::tape::PackedTape;
use panel::kept::Kept;
use panel::shown::Shown;

/// The lots shown as one number, 0 for a blank panel.
fn both(shown: Shown) -> u32 {
    let best = shown.best().unwrap_or(0).wrapping_mul(65_536);
    best.wrapping_add(shown.second().unwrap_or(0))
}

/// A page: its first lot, and how many lots it has.
#[derive(Clone, Copy)]
#[repr(C)]
pub struct Page {
    pub start: u32,
    pub size: u32,
}

/// Takes the sheet once, asks for each page, and adds up what is shown.
#[unsafe(no_mangle)]
pub extern "C" fn leading_pair_time_pages(bytes: &[u8], bits: usize, pages: &[Page]) -> u32 {
    let mut board = Board::new(PackedTape { bytes, count: bits });
    let mut panel = Kept::new();
    let _ = board.take();
    let mut sum: u32 = 0;
    for page in pages {
        let _ = board.page(&mut panel, page.start, page.size);
        sum = sum.wrapping_add(both(panel.value));
    }
    sum
}

/// Casts the sheet of the prices into the bytes, and says how many bits it has, or 0 where the cast is refused.
#[unsafe(no_mangle)]
pub extern "C" fn leading_pair_time_cast(
    prices: &[Price],
    bytes: &mut [u8],
    work: &mut [u32],
) -> u32
    ensures { CastInto prices.now bytes.new result }
{
    let mut punch = PackedPunch::new(bytes);
    match cast(&KeyLots { keys: prices }, &mut punch, work) {
        Ok(bits) => bits,
        Err(_) => 0,
    }
}
