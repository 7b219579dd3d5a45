//! A board over one tape.

ghost use Rattle.std.specs.Prelude.{◌≡◌, ℕ, suc, ◌*◌, Bool, ◌↔◌, length, drop, IfOk, None, Ok, OnErr};
ghost use Rattle.leaders.specs.Refusal.{answered};
ghost use Rattle.leaders.specs.Verdict.{verdict};
ghost use Rattle.panel.specs.declared.shown.Shown.TheVariants.{Blank};
ghost use Rattle.board.specs.Faults.{told};
ghost use Rattle.board.specs.Pages.{CastBySome, lots_by, page_reply, page_shows, rebuild_reply, Rewritten, Knows, Found};

use crate::fault::BoardFault;
use bits::tape::Tape;
use panel::Panel;
use reading::check::check;
use reading::pair::{Pair, find_pair};
use rebuilding::rebuild_prices;

/// A board: it stands over one tape, and has the lots of the sheet that it has taken.
#[derive(Drop)]
pub struct Board<T> {
    tape: T,
    lots: Option<u32>,
}

impl<T: Tape> Board<T> {
    /// A board over a tape, of which it has taken nothing yet.
    pub fn new(tape: T) -> Board<T>
        ensures tape { result.tape ≡ tape }
        ensures empty { result.lots ≡ None }
    {
        Board { tape, lots: None }
    }

    /// Checks the tape, and says how many lots its sheet has. After a refusal the board is empty.
    pub fn take(&mut self) -> Result<u32, BoardFault>
        ensures verdict { answered told result ≡ verdict (T.Tape.bits self.old.tape) }
        ensures cast { (n : ℕ) → (result ≡ Ok n) ↔ CastBySome (T.Tape.bits self.old.tape) n }
        ensures lots { self.new.lots ≡ lots_by (verdict (T.Tape.bits self.old.tape)) }
        ensures tape { self.new.tape ≡ self.old.tape }
    {
        self.lots = None;
        let n = check(&self.tape)?;
        self.lots = Some(n);
        Ok(n)
    }

    // `start` and `size` as two numbers, as C and the command lines bring them.
    /// Shows the best and the second of the `size` lots from `start` on, or of as many as there are. A refused page blanks the panel.
    pub fn page<P: Panel>(&self, panel: &mut P, start: u32, size: u32) -> Result<(), BoardFault>
        ensures reply { answered told result ≡ page_reply self.now.lots start size }
        ensures declined { OnErr result (P.Panel.shows panel.new ≡ Blank) }
        ensures shown { (b : ℕ → ℕ → Bool) → Knows b self.now.lots (T.Tape.bits self.now.tape) → P.Panel.shows panel.new ≡ page_shows b self.now.lots start size }
    {
        let found = self.find(start, size);
        match found {
            Ok(Some(pair)) => panel.show(pair.best, pair.second),
            _ => panel.blank(),
        }
        found.map(|_| ())
    }

    /// Writes the prices that the sheet's merge order defines, in lot order, and says how many. They lead every page as the real ones do.
    pub fn rebuild(&self, prices: &mut [u32], work: &mut [u32]) -> Result<u32, BoardFault>
        ensures reply { answered told result ≡ rebuild_reply self.now.lots (length prices.old) (length work.old) }
        ensures declined { OnErr result ((prices.new ≡ prices.old) × (work.new ≡ work.old)) }
        ensures written { IfOk result (λ n. (b : ℕ → ℕ → Bool) → Knows b self.now.lots (T.Tape.bits self.now.tape) → Rewritten b n (T.Tape.bits self.now.tape) prices.old prices.new) }
        ensures past { IfOk result (λ n. drop n prices.new ≡ drop n prices.old) }
        ensures rest { IfOk result (λ n. drop (4 * suc n) work.new ≡ drop (4 * suc n) work.old) }
    {
        let n = self.lots.ok_or(BoardFault::NotTaken)?;
        rebuild_prices(&self.tape, n, prices, work)?;
        Ok(n)
    }

    /// The best and the second of a page.
    fn find(&self, start: u32, size: u32) -> Result<Option<Pair>, BoardFault>
        ensures { Found (T.Tape.bits self.now.tape) self.now.lots start size result }
    {
        let n = self.lots.ok_or(BoardFault::NotTaken)?;
        if start == 0 || start > n || size == 0 {
            return Err(BoardFault::NoPage);
        }
        let last = if size > n - start {
            n
        } else {
            start + size - 1
        };
        Ok(find_pair(&self.tape, n, start, last))
    }
}
