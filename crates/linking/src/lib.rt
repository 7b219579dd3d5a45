//! The links of the lots of a sheet, from its bits.
#![tactic(auto)]

ghost use Rattle.std.specs.Prelude.{◌≡◌, ℕ, ◌+◌, ◌-◌, ◌*◌, ◌<◌, ◌≤◌, Bool, ◌⊎◌, List, ◌++◌, length, drop, slice_index};
ghost use Rattle.leaders.specs.Order.{Strict};
ghost use Rattle.leaders.specs.Sheet.{unary, sheet};
ghost use Rattle.links.specs.Made.{LotsLinked, WordsReady};
ghost use Rattle.links.specs.Walks.{AtMost};
ghost use Rattle.linking.specs.Linking.{Starts, Tame, less_place};

use bits::iter::Bits;
use bits::tape::Tape;
use links::Links;
use links::sides::Words;

/// A run of ones: how many they are, and the bit after the zero that ends it.
#[derive(Clone, Copy)]
struct Run {
    ones: u32,
    next: usize,
}

impl Run {
    /// The run of ones from bit `at` on.
    fn read<T: Tape>(tape: &T, at: usize) -> Run
        ensures { (d : ℕ) (rest : List Bool) → drop at (T.Tape.bits tape.now) ≡ unary d ++ rest → (result.ones ≡ d) × (drop result.next (T.Tape.bits tape.now) ≡ rest) }
    {
        let ones = Bits::between(tape, at, tape.len())
            .take_while(|bit| *bit)
            .count();
        Run {
            ones: ones as u32,
            next: at.saturating_add(ones).saturating_add(1),
        }
    }
}

/// Takes one of the places of node `x`; node 0, the root, needs none.
fn take_place(places: &mut [u32], x: u32)
    requires node { x ≤ length places.old }
    requires free { (x ≡ 0) ⊎ (1 ≤ slice_index places.old (x - 1)) }
    ensures { places.new ≡ less_place places.old x }
{
    if x != 0 {
        places[(x - 1) as usize] -= 1;
    }
}

/// Links the lots by their numbers of children; `places` has the child places left meanwhile.
fn link<T: Tape>(tape: &T, links: &mut Links, places: &mut [u32])
    requires { length places.old ≡ links.old.n }
    ensures lots { links.new.n ≡ links.old.n }
    ensures linked { (b : ℕ → ℕ → Bool) → Strict b → sheet b links.new.n ≡ T.Tape.bits tape.now → LotsLinked b links.new.n links.new }
    ensures tame { Tame links.new.n links.new.up.now links.new.left.now links.new.right.now }
    ensures kids { AtMost links.new.n links.new.kids.now }
{
    links.clear();
    let mut at = Run::read(tape, 1).next;
    // By the lots' numbers, since a lot is linked by its number. Not `1..=`, with which a loop ends in two ways.
    for k in 1..links.n + 1 {
        let own = Run::read(tape, at);
        let place = links.climb(k, |x| places[(x - 1) as usize] != 0);
        links.hang(k, place);
        take_place(places, place.parent);
        places[k - 1] = own.ones;
        at = own.next;
    }
}

/// Writes where each lot's word begins, by the sizes of the words.
fn place_words(starts: &mut [u32], words: Words)
    requires few { words.sides.n ≤ 16383 }
    requires starts { length starts.old ≡ words.sides.n }
    ensures { (b : ℕ → ℕ → Bool) → WordsReady b words.entry → Starts b words.entry.sides.n words.entry.sides.n starts.new }
{
    let mut at = 2 * words.sides.n + 2;
    for (i, start) in starts.iter_mut().enumerate() {
        let size = words.size(i + 1);
        *start = at as u32;
        at += size;
    }
}

/// Links the lots of the sheet on the tape in the working numbers, and writes where each lot's word begins.
/// Public for our crate `rebuilding` only, which has the numbers that it requires.
pub fn link_sheet<T: Tape>(tape: &T, links: &mut Links, starts: &mut [u32])
    requires few { links.old.n ≤ 16383 }
    requires starts { length starts.old ≡ links.old.n }
    ensures lots { links.new.n ≡ links.old.n }
    // for every order whose sheet the bits are
    ensures linked { (b : ℕ → ℕ → Bool) → Strict b → sheet b links.new.n ≡ T.Tape.bits tape.now → LotsLinked b links.new.n links.new }
    ensures starts { (b : ℕ → ℕ → Bool) → Strict b → sheet b links.new.n ≡ T.Tape.bits tape.now → Starts b links.new.n links.new.n starts.new }
    // whatever the bits are
    ensures tame { Tame links.new.n links.new.up.now links.new.left.now links.new.right.now }
{
    link(tape, links, starts);
    place_words(starts, links.words());
}
