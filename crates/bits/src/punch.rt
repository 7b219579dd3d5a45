//! Punches: bits written one after another into lent memory.

ghost use Rattle.std.specs.Prelude.{◌≡◌, ℕ, ◌≤◌, Bool, List, [], length};
ghost use Rattle.std.proofs.Common.{refl};
ghost use Rattle.bits.specs.Punching.{Appends, letter, letters, letter_room, put_letter};

use crate::byte_punch::{BytePunch, Cells, TapeCells};
use crate::tape::{LetteredTape, MOST_BITS};

/// The capacity is reached: there is no room for another bit.
#[derive(Clone, Copy, PartialEq, Eq, Debug)]
pub struct Full;

/// The bits written so far, and a fixed capacity.
pub trait Punch {
    // The bits written so far.
    ghost written: { Self → List Bool };

    // The capacity.
    ghost room: { Self → ℕ };

    // Which memory it writes: the ghost name of a mutable reference, which no call changes.
    ghost home: { Self → ℕ };

    /// How many bits there is room for in all.
    fn capacity(&self) -> usize
        ensures { result ≡ room self.now };

    /// How many bits are written.
    fn len(&self) -> usize
        ensures is { result ≡ length (written self.now) }
        ensures within { result ≤ room self.now };

    /// Leaves no bits.
    fn clear(&mut self)
        ensures empty { written self.new ≡ [] }
        ensures room { room self.new ≡ room self.old }
        ensures home { home self.new ≡ home self.old };

    /// Adds one bit at the end; refuses exactly when the capacity is reached, and then the bits remain.
    fn append(&mut self, bit: bool) -> Result<(), Full>
        ensures bits { Appends result (room self.old) (written self.old) (written self.new) bit }
        ensures room { room self.new ≡ room self.old }
        ensures home { home self.new ≡ home self.old };
}

/// The letter of a bit: `(` for 1 and `)` for 0.
pub fn letter_of(bit: bool) -> u8
    ensures { result ≡ letter bit }
{
    if bit { b'(' } else { b')' }
}

/// The cells of letters, one to a bit, 32,768 at most: `(` for 1 and `)` for 0.
pub struct Letters;

/// One letter to a bit in lent bytes, with their count beside them since nothing is allocated, 32,768 at most: `(` for 1 and `)` for 0.
pub type LetteredPunch<'a> = BytePunch<'a, Letters>;

impl Cells for Letters {
    ghost bits = { letters };

    ghost room = { letter_room };

    ghost put = { put_letter };

    ghost none = { λ text. refl };

    fn room_of(bytes: &[u8]) -> usize {
        bytes.len().min(MOST_BITS)
    }

    fn put_bit(bytes: &mut [u8], p: usize, bit: bool) {
        bytes[p] = letter_of(bit);
    }
}

impl<'b> TapeCells<'b> for Letters {
    type Tape = LetteredTape<'b>;

    fn tape_over(bytes: &'b [u8], count: usize) -> LetteredTape<'b> {
        LetteredTape {
            text: &bytes[..count.min(Letters::room_of(bytes))],
        }
    }
}
