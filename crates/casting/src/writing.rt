// The brackets and the words of linked lots.
ghost use Rattle.std.specs.Prelude.{◌≡◌, ℕ, suc, ◌+◌, ◌*◌, ◌<◌, ◌≤◌, Bool, length};
ghost use Rattle.leaders.specs.Sheet.{unary, spread, spines, sheet};
ghost use Rattle.leaders.specs.Refusal.{answered};
ghost use Rattle.links.specs.Made.{WordsReady};
ghost use Rattle.links.specs.Walks.{turn, merge, walked, tallies, Sized};
ghost use Rattle.casting.specs.Adding.{Adds};
ghost use Rattle.casting.specs.Casts.{told, casting, punch_of_sheet};

use crate::{CastFault, Lots};
use bits::punch::Punch;
use links::sides::{Sides, Words};

/// Writes how many symbols each lot's word has, and gives their sum.
fn measure(words: Words, sizes: &mut [u32]) -> usize
    requires { length sizes.old ≡ suc words.sides.n }
    // for every order that the words are ready for
    ensures { (b : ℕ → ℕ → Bool) → WordsReady b words.entry → Sized b words.entry.sides.n words.entry.sides.n sizes.new × (result ≡ length (spines b words.entry.sides.n)) }
{
    let mut all = 0;
    // By the lots' numbers, by which all lists are read; node 0 has no word. Not `1..=`, with which a loop ends in two ways.
    for k in 1..words.sides.n + 1 {
        let size = words.size(k);
        sizes[k] = size as u32;
        all += size;
    }
    all
}

/// Punches a count: so many set bits and then another.
fn punch_count<P: Punch>(punch: &mut P, count: u32)
    requires { length (P.Punch.written punch.old) + suc count ≤ P.Punch.room punch.old }
    ensures { Adds P.Punch.written P.Punch.room P.Punch.home punch.old punch.new (unary count) }
{
    for _ in 0..count {
        let _ = punch.append(true);
    }
    let _ = punch.append(false);
}

/// Punches the counts of children.
fn punch_brackets<P: Punch>(punch: &mut P, kids: &[u32])
    requires { length (P.Punch.written punch.old) + length (tallies kids.now) ≤ P.Punch.room punch.old }
    ensures { Adds P.Punch.written P.Punch.room P.Punch.home punch.old punch.new (tallies kids.now) }
{
    for count in kids {
        punch_count(punch, *count);
    }
}

/// Where the two walks of a word stand, one along the right and the other along the left; 0 where a walk has ended, as it is stored.
#[derive(Clone, Copy)]
struct Walks {
    lower: u32,
    upper: u32,
}

/// Whether the next symbol is that of the walk along the left.
fn turns<L: Lots>(lots: &L, at: Walks) -> bool
    requires { (at.lower ≤ L.Lots.count lots.now) × (at.upper ≤ L.Lots.count lots.now) }
    ensures { result ≡ turn (L.Lots.order lots.now) at.lower at.upper }
{
    at.lower == 0 || (at.upper != 0 && !lots.beats(at.lower as usize, at.upper as usize))
}

/// What a sheet is punched from: the lots, their words, and how many symbols each word has.
#[derive(Drop)]
struct Sheet<'a, L: Lots> {
    lots: &'a L,
    words: Words<'a>,
    sizes: &'a [u32],
    ghost count: { words.sides.n ≡ L.Lots.count lots.now },
    ghost sizes_long: { length sizes.now ≡ suc words.sides.n },
}

impl<L: Lots> Sheet<'_, L> {
    /// Punches the first `size` symbols of two merged walks.
    fn punch_word<P: Punch>(&self, punch: &mut P, from: Walks, size: u32)
        requires from { (from.lower ≤ self.now.words.sides.n) × (from.upper ≤ self.now.words.sides.n) }
        requires room { length (P.Punch.written punch.old) + size ≤ P.Punch.room punch.old }
        ensures { Adds P.Punch.written P.Punch.room P.Punch.home punch.old punch.new (merge (L.Lots.order self.now.lots.now) self.now.words.sides.left.now self.now.words.sides.right.now size from.lower from.upper) }
    {
        let sides = self.words.sides;
        let mut at = from;
        for _ in 0..size {
            let bit = turns(self.lots, at);
            let _ = punch.append(bit);
            if bit {
                at.upper = sides.left[at.upper as usize];
            } else {
                at.lower = sides.right[at.lower as usize];
            }
        }
    }

    /// Punches the symbols of all lots' walks, for each lot as many as its size says.
    fn punch_words<P: Punch>(&self, punch: &mut P)
        requires { length (P.Punch.written punch.old) + length (spread (walked (L.Lots.order self.now.lots.now) self.now.words.sides.left.now self.now.words.sides.right.now self.now.sizes.now) 1 self.now.words.sides.n) ≤ P.Punch.room punch.old }
        ensures { Adds P.Punch.written P.Punch.room P.Punch.home punch.old punch.new (spread (walked (L.Lots.order self.now.lots.now) self.now.words.sides.left.now self.now.words.sides.right.now self.now.sizes.now) 1 self.now.words.sides.n) }
    {
        let sides = self.words.sides;
        // By the lots' numbers, by which all lists are read; node 0 has no word. Not `1..=`, with which a loop ends in two ways.
        for k in 1..sides.n + 1 {
            let from = Walks {
                lower: sides.left[k],
                upper: sides.right[k],
            };
            self.punch_word(punch, from, self.sizes[k]);
        }
    }

    /// Punches all, where there is room and the sizes are those of the words.
    fn punch_all<P: Punch>(&self, punch: &mut P)
        requires ready { WordsReady (L.Lots.order self.now.lots.now) self.now.words }
        requires sized { Sized (L.Lots.order self.now.lots.now) self.now.words.sides.n self.now.words.sides.n self.now.sizes.now }
        requires room { length (sheet (L.Lots.order self.now.lots.now) self.now.words.sides.n) ≤ P.Punch.room punch.old }
        ensures bits { P.Punch.written punch.new ≡ sheet (L.Lots.order self.now.lots.now) self.now.words.sides.n }
        ensures room { P.Punch.room punch.new ≡ P.Punch.room punch.old }
        ensures home { P.Punch.home punch.new ≡ P.Punch.home punch.old }
    {
        punch.clear();
        let _ = punch.append(true);
        punch_brackets(punch, self.words.kids);
        self.punch_words(punch);
    }
}

/// Punches the sheet of linked lots, if there is room for it; `sizes` has the sizes of the words meanwhile.
pub(crate) fn punch_linked<L: Lots, P: Punch>(
    lots: &L,
    punch: &mut P,
    words: Words,
    sizes: &mut [u32],
) -> Result<u32, CastFault>
    requires lots { words.sides.n ≡ L.Lots.count lots.now }
    requires sizes { length sizes.old ≡ suc words.sides.n }
    requires ready { WordsReady (L.Lots.order lots.now) words }
    ensures bits { casting (P.Punch.written punch.new) (answered told result) ≡ punch_of_sheet (sheet (L.Lots.order lots.now) words.entry.sides.n) (P.Punch.room punch.old) (P.Punch.written punch.old) }
    ensures room { P.Punch.room punch.new ≡ P.Punch.room punch.old }
    ensures home { P.Punch.home punch.new ≡ P.Punch.home punch.old }
{
    let length = 2 * (words.sides.n + 1) + measure(words, sizes);
    if punch.capacity() < length {
        return Err(CastFault::TooLong(length as u32));
    }
    Sheet { lots, words, sizes }.punch_all(punch);
    Ok(length as u32)
}
