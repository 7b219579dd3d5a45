//! Tapes: fixed lists of bits, read by place, by rank and by select.

ghost use Rattle.std.specs.Prelude.{◌≡◌, ◌≤◌, Bool, true, not, List, map, length, Decides};
ghost use Rattle.bits.specs.Bits.{rank_of, bit_at, which_are, Select, lettered};
ghost use Rattle.bits.specs.Laws.{Agrees, OneSelect};

/// The most bits that a tape shows and a punch takes.
pub const MOST_BITS: usize = 32_768;

/// A fixed list of at most 32,768 bits, numbered from 0.
pub trait Tape {
    // The list that every answer is about.
    ghost bits: { Self → List Bool };

    /// How many bits there are.
    fn len(&self) -> usize
        ensures is { result ≡ length (bits self.now) }
        ensures short { result ≤ 32768 };

    /// The bit at `p`, absent from the length on.
    fn get(&self, p: usize) -> Option<bool>
        ensures { result ≡ bit_at (bits self.now) p };

    /// The ones before `p`: all of them if `p` is past the end.
    fn rank(&self, p: usize) -> usize
        ensures { result ≡ rank_of (bits self.now) p }
    {
        // A loop over places: with `filter` and `count` a rank of 29,000 letters took 12 times as long, by a sum 3 times, and `Bits` would ask that a tape has a known size.
        let end = p.min(self.len());
        let mut count = 0;
        for i in 0..end {
            if self.get(i).unwrap_or(false) {
                count += 1;
            }
        }
        count
    }

    /// The place of the `j`-th bit that is `bit`, counted from 1: absent if `j` is 0 or too large.
    fn place(&self, bit: bool, j: usize) -> Option<usize>
        ensures { Select (which_are bit (bits self.now)) j result }
    {
        (0..self.len())
            .filter(|p| self.get(*p) == Some(bit))
            .nth(j.checked_sub(1)?)
    }

    /// The place of the `j`-th one, counted from 1: absent if `j` is 0 or too large.
    fn select(&self, j: usize) -> Option<usize>
        ensures { Select (bits self.now) j result }
    {
        self.place(true, j)
    }

    /// The place of the `j`-th zero, counted from 1: absent if `j` is 0 or too large.
    fn select_zero(&self, j: usize) -> Option<usize>
        ensures { Select (map not (bits self.now)) j result }
    {
        self.place(false, j)
    }
}

/// Do two tapes give the same four answers at `p`? Tapes with the same bits do, of whatever make they are.
pub fn agree_at<S: Tape, T: Tape>(s: &S, t: &T, p: usize) -> bool
    ensures told { Decides result (Agrees (S.Tape.bits s.now) (T.Tape.bits t.now) p) }
    ensures same { S.Tape.bits s.now ≡ T.Tape.bits t.now → result ≡ true }
{
    let lengths = s.len() == t.len();
    let bits = s.get(p) == t.get(p);
    let ranks = s.rank(p) == t.rank(p);
    let places = s.select(p) == t.select(p);
    lengths && bits && ranks && places
}

/// Select has one answer: no two differ that both meet its contract.
pub fn select_has_one_answer() -> u8
    ensures { OneSelect }
{
    0
}

/// The bytes of a text, 32,768 at most: `(` is 1 and every other byte 0.
#[derive(Clone, Copy)]
pub struct LetteredTape<'a> {
    pub text: &'a [u8],
}

impl<'a> Tape for LetteredTape<'a> {
    ghost bits = { λ t. lettered t.text.now };

    fn len(&self) -> usize {
        self.text.len().min(MOST_BITS)
    }

    fn get(&self, p: usize) -> Option<bool> {
        if p < self.len() {
            Some(self.text[p] == b'(')
        } else {
            None
        }
    }
}
