// The orders of all parts of the tree, each joined of the orders of its two sides.
ghost use Rattle.std.specs.Prelude.{◌≡◌, ℕ, suc, ◌+◌, ◌-◌, ◌*◌, ◌<◌, ◌≤◌, length, take, drop, slice_index};
ghost use Rattle.leaders.specs.Tree.{Tree, size, Wellformed, list_of};
ghost use Rattle.links.specs.Walks.{top, Chain, AtMost};
ghost use Rattle.rebuilding.specs.Held.{end_of_word, word_at, Holds};
ghost use Rattle.rebuilding.specs.Leaving.{Leaves};
ghost use Rattle.rebuilding.specs.Splices.{Joins};
ghost use Rattle.rebuilding.specs.Seams.{Inside, Hangs, Splices, Finishes, Closes};

use bits::iter::Bits;
use bits::tape::Tape;
use links::sides::Sides;

/// Where the orders of the two sides of a lot are joined: the last lot that hangs, where what is left of each side begins, and the next lot of each side's spine. 0 stands for no lot, as in the lists.
#[derive(Clone, Copy, Default)]
pub(crate) struct Seam {
    pub tail: u32,
    pub lower: u32,
    pub upper: u32,
    pub low: u32,
    pub high: u32,
}

/// The orders of parts of the tree, which `next` links, beside the sides that they are joined of; and the seam at which two are joined.
#[derive(Drop)]
pub(crate) struct Order<'a> {
    pub sides: Sides<'a>,
    pub next: &'a mut [u32],
    pub seam: Seam,
    ghost next_long: { length next.now ≡ suc sides.n },
    ghost next_most: { AtMost sides.n next.now },
    ghost seam_inside: { Inside sides.n seam },
}

impl Order<'_> {
    /// Hangs one side's lots up to the next lot of its spine: the right side's if `bit` is set, else the left side's.
    fn hang(&mut self, bit: bool)
        ensures sides { self.new.sides ≡ self.old.sides }
        ensures hangs { Hangs self.old.next.now self.new.next.now self.old.sides.left.now self.old.sides.right.now bit self.old.seam self.new.seam }
    {
        let s = self.seam;
        if bit {
            self.next[s.tail as usize] = s.upper;
            self.seam = Seam {
                tail: s.high,
                upper: self.next[s.high as usize],
                high: self.sides.left[s.high as usize],
                ..s
            };
        } else {
            self.next[s.tail as usize] = s.lower;
            self.seam = Seam {
                tail: s.low,
                lower: self.next[s.low as usize],
                low: self.sides.right[s.low as usize],
                ..s
            };
        }
    }

    /// Hangs the lots of both sides of `x` by the bits from `from` up to `upto`.
    fn splice<T: Tape>(&mut self, tape: &T, x: u32, from: usize, upto: usize)
        requires lot { x ≤ self.old.sides.n }
        requires word { upto ≤ length (T.Tape.bits tape.now) }
        ensures sides { self.new.sides ≡ self.old.sides }
        ensures spliced { Splices self.old.next.now self.new.next.now self.old.sides.left.now self.old.sides.right.now x (drop from (take upto (T.Tape.bits tape.now))) self.new.seam }
    {
        let low = self.sides.left[x as usize];
        let high = self.sides.right[x as usize];
        self.seam = Seam {
            tail: x,
            lower: low,
            upper: high,
            low,
            high,
        };
        for bit in Bits::between(tape, from, upto) {
            self.hang(bit);
        }
    }

    /// Hangs the lots of the symbol that the tape leaves out: it is known by which spine has a lot left.
    fn finish(&mut self)
        ensures sides { self.new.sides ≡ self.old.sides }
        ensures finishes { Finishes self.old.next.now self.new.next.now self.old.sides.left.now self.old.sides.right.now self.old.seam self.new.seam }
    {
        if self.seam.low != 0 {
            self.hang(false);
        } else if self.seam.high != 0 {
            self.hang(true);
        }
    }

    /// Hangs what is left of both sides, whose last lots are given. Gives the last lot.
    fn close(&mut self, end_left: u32, end_right: u32) -> u32
        requires { (end_left ≤ self.old.sides.n) × (end_right ≤ self.old.sides.n) }
        ensures sides { self.new.sides ≡ self.old.sides }
        ensures last { result ≤ self.old.sides.n }
        ensures closes { Closes self.old.next.now self.new.next.now self.old.seam end_left end_right result }
    {
        let s = self.seam;
        let mut last = s.tail;
        if s.lower != 0 {
            self.next[last as usize] = s.lower;
            last = end_left;
        }
        self.next[last as usize] = s.upper;
        if s.upper != 0 { end_right } else { last }
    }
}

/// The lots' words on a tape, by where each begins.
#[derive_where(Clone, Copy)]
pub(crate) struct TapeWords<'a, T> {
    pub tape: &'a T,
    pub starts: &'a [u32],
}

impl<T: Tape> TapeWords<'_, T> {
    /// Where the word of lot `x` ends in the tape.
    fn end(&self, x: usize) -> usize
        ensures is { result ≡ end_of_word (T.Tape.bits self.now.tape.now) self.now.starts.now (length self.now.starts.now) x }
        ensures short { result ≤ length (T.Tape.bits self.now.tape.now) }
    {
        let end = self.tape.len();
        if x < self.starts.len() {
            end.min(self.starts[x] as usize)
        } else {
            end
        }
    }
}

/// All parts of the tree, while their orders are joined: `ends` has the last lot of each part's order, and until the part is joined the node that its best lot hangs on.
#[derive(Drop)]
pub(crate) struct Parts<'a, 'w, T> {
    pub order: Order<'a>,
    pub ends: &'a mut [u32],
    pub words: TapeWords<'w, T>,
    ghost ends_long: { length ends.now ≡ suc order.sides.n },
    ghost ends_most: { AtMost order.sides.n ends.now },
    ghost starts_long: { length words.starts.now ≡ order.sides.n },
}

impl<T: Tape> Parts<'_, '_, T> {
    /// Joins the orders of both sides of `x` to the order of the part that `x` is the best of. Gives its last lot.
    fn join(&mut self, x: u32) -> u32
        requires { (1 ≤ x) × (x ≤ self.old.order.sides.n) }
        ensures sides { self.new.order.sides ≡ self.old.order.sides }
        ensures words { self.new.words ≡ self.old.words }
        ensures ends { self.new.ends.now ≡ self.old.ends.now }
        ensures last { result ≤ self.old.order.sides.n }
        ensures joined { Joins self.old.order.next.now self.new.order.next.now self.old.order.sides.left.now self.old.order.sides.right.now x (word_at (T.Tape.bits self.old.words.tape.now) self.old.words.starts.now self.old.order.sides.n x) (slice_index self.old.ends.now (slice_index self.old.order.sides.left.now x)) (slice_index self.old.ends.now (slice_index self.old.order.sides.right.now x)) result }
    {
        let k = x as usize;
        let words = self.words;
        let from = words.starts[k - 1] as usize;
        let upto = words.end(k);
        self.order.splice(words.tape, x, from, upto);
        self.order.finish();
        let end_left = self.ends[self.order.sides.left[k] as usize];
        let end_right = self.ends[self.order.sides.right[k] as usize];
        self.order.close(end_left, end_right)
    }

    /// Joins the lots from `from` up, as long as they are above `limit`: where a lot hung, the last lot of its order is written.
    fn leave(&mut self, from: u32, limit: u32)
        requires { from ≤ self.old.order.sides.n }
        ensures sides { self.new.order.sides ≡ self.old.order.sides }
        ensures words { self.new.words ≡ self.old.words }
        ensures leaves { Leaves self.old.order.sides.left.now self.old.order.sides.right.now (word_at (T.Tape.bits self.old.words.tape.now) self.old.words.starts.now self.old.order.sides.n) self.old.order.next.now self.old.ends.now self.new.order.next.now self.new.ends.now limit from }
    {
        let mut x = from;
        // Each turn goes on to the lot that the last one hung on, and none is indexed by a count.
        while x > limit {
            let parent = self.ends[x as usize];
            let last = self.join(x);
            self.ends[x as usize] = last;
            x = parent.min(x - 1);
        }
    }

    /// Joins the orders of all parts: for each lot the lots leave from the one before it up to the node that it hangs on, and at last all others.
    pub(crate) fn join_all(&mut self)
        ensures sides { self.new.order.sides ≡ self.old.order.sides }
        ensures ordered { (t : Tree) → size t ≡ self.old.order.sides.n → Wellformed t → Holds self.old.ends.now self.old.order.sides.left.now self.old.order.sides.right.now (word_at (T.Tape.bits self.old.words.tape.now) self.old.words.starts.now self.old.order.sides.n) 0 t → Chain self.new.order.next.now (top 0 t) (list_of 0 t) }
    {
        let n = self.order.sides.n;
        // By the lots' numbers, as they are in `leave`. Not `1..=`, with which a loop ends in two ways.
        for k in 1..n + 1 {
            let limit = self.ends[k];
            self.leave((k - 1) as u32, limit);
        }
        self.leave(n as u32, 0);
    }
}
