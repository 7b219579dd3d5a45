//! The packed punch.

ghost use Rattle.std.proofs.Common.{refl};
ghost use Rattle.packed.specs.Packed.{packed, packed_room, put_at, PutBitLaw};

use crate::bytes;
use crate::tape::PackedTape;
use bits::byte_punch::{BytePunch, Cells, TapeCells};

/// Cells of which eight lie in a byte, the highest bit first, in the first 4,096 bytes at most.
pub struct Packing;

/// Packs its bits into lent bytes, of which it uses the first 4,096 at most. Nothing is allocated, and the count is one of bits.
pub type PackedPunch<'a> = BytePunch<'a, Packing>;

impl Cells for Packing {
    ghost bits = { packed };

    ghost room = { packed_room };

    ghost put = { put_at };

    ghost none = { λ bytes. refl };

    fn room_of(bytes: &[u8]) -> usize {
        bytes::room_of(bytes)
    }

    fn put_bit(bytes: &mut [u8], p: usize, bit: bool) {
        bytes::put_bit(bytes, p, bit);
    }
}

impl<'b> TapeCells<'b> for Packing {
    type Tape = PackedTape<'b>;

    fn tape_over(bytes: &'b [u8], count: usize) -> PackedTape<'b> {
        PackedTape { bytes, count }
    }
}

/// A byte into which a bit is put keeps its bits before that one, has it, and has zeros after it.
pub fn put_bit_keeps_the_front() -> u8
    ensures { PutBitLaw }
{
    0
}
