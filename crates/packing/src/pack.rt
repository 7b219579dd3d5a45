//! A tape packed into bytes, and its sizes.

ghost use Rattle.std.specs.Prelude.{◌≡◌, ◌<◌, length, MatchResult};
ghost use Rattle.bits.specs.Bits.{ones};
ghost use Rattle.packed.specs.Packed.{packed_room};
ghost use Rattle.packing.specs.Packs.{bytes_for, PackedInto};

use bits::iter::Bits;
use bits::punch::{Full, Punch};
use bits::tape::Tape;
use packed::punch::PackedPunch;

/// How large a tape is: its bits, the ones among them, and the bytes that hold the bits.
#[derive(Clone, Copy)]
pub struct Sizes {
    pub bits: usize,
    pub ones: usize,
    pub bytes: usize,
}

/// The sizes of a tape.
pub fn measure<T: Tape>(tape: &T) -> Sizes
    ensures bits { result.bits ≡ length (T.Tape.bits tape.now) }
    ensures ones { result.ones ≡ ones (T.Tape.bits tape.now) }
    ensures bytes { result.bytes ≡ bytes_for (length (T.Tape.bits tape.now)) }
{
    let bits = tape.len();
    Sizes {
        bits,
        ones: tape.rank(bits),
        bytes: (bits + 7) / 8,
    }
}

/// Packs the bits of a tape into bytes and tells how many they are; refused, with the bytes unchanged, if there is no room.
pub fn pack<T: Tape>(tape: &T, bytes: &mut [u8]) -> Result<usize, Full>
    ensures { MatchResult result (λ n. PackedInto (T.Tape.bits tape.now) n bytes.old bytes.new) (λ _. (packed_room bytes.old < length (T.Tape.bits tape.now)) × (bytes.new ≡ bytes.old)) }
{
    let n = tape.len();
    let mut punch = PackedPunch::new(bytes);
    if punch.capacity() < n {
        return Err(Full);
    }
    for bit in Bits::of(tape) {
        punch.append(bit)?;
    }
    Ok(n)
}
