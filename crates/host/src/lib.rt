//! What C is offered: three functions on packed bytes, without heap or state. The crate `host_c` exports them.
#![tactic(auto)]

ghost use Rattle.std.specs.Prelude.{◌≡◌};
ghost use Rattle.leaders.specs.Verdict.{verdict};
ghost use Rattle.packed.specs.Packed.{packed};
ghost use Rattle.host.specs.Answers.{refusal_number, best_shown, second_shown, Reads};

use board::board::Board;
use packed::tape::PackedTape;
use panel::kept::Kept;
use panel::shown::Shown;

/// What a board shows that takes the bits and is asked for a page.
fn page_of(bytes: &[u8], bits: usize, start: u32, size: u32) -> Shown
    ensures { Reads (λ s. s) (packed bytes.now bits) start size result }
{
    let mut board = Board::new(PackedTape { bytes, count: bits });
    let mut panel = Kept::new();
    let _ = board.take();
    let _ = board.page(&mut panel, start, size);
    panel.value
}

/// Whether the first bits of the bytes are a sheet: 0, or the number of the refusal.
pub fn leading_pair_take(bytes: &[u8], bits: usize) -> u32
    ensures { result ≡ refusal_number (verdict (packed bytes.now bits)) }
{
    let mut board = Board::new(PackedTape { bytes, count: bits });
    match board.take() {
        Ok(_) => 0,
        Err(fault) => fault.number(),
    }
}

/// The best lot of a page of the sheet, or 0 where take or page is refused.
pub fn leading_pair_best(bytes: &[u8], bits: usize, start: u32, size: u32) -> u32
    ensures { Reads best_shown (packed bytes.now bits) start size result }
{
    page_of(bytes, bits, start, size).best().unwrap_or(0)
}

/// The second lot of a page of the sheet, or 0 where there is none, and where take or page is refused.
pub fn leading_pair_second(bytes: &[u8], bits: usize, start: u32, size: u32) -> u32
    ensures { Reads second_shown (packed bytes.now bits) start size result }
{
    page_of(bytes, bits, start, size).second().unwrap_or(0)
}
