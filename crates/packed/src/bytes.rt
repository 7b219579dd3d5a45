//! Bits in bytes: reads, counts and one write. Only this crate calls them, so they may ask that a place lies within the bytes.

ghost use Rattle.std.specs.Prelude.{◌≡◌, ◌+◌, ◌*◌, ◌/◌, ◌%◌, ◌<◌, ◌≤◌, length, Some, slice_index, slice_set};
ghost use Rattle.bits.specs.Bits.{bit_at, rank_of};
ghost use Rattle.packed.specs.Packed.{all_bits, packed_room, put_bit};

/// The most bytes that count: 32,768 bits.
const MOST_BYTES: usize = 4_096;

/// How many bits the bytes hold, 32,768 at most.
pub(crate) fn room_of(bytes: &[u8]) -> usize
    ensures { result ≡ packed_room bytes.now }
{
    bytes.len().min(MOST_BYTES) * 8
}

/// The bit at `p`.
pub(crate) fn bit_at(bytes: &[u8], p: usize) -> bool
    requires { p < 8 * length bytes.now }
    ensures { Some result ≡ bit_at (all_bits bytes.now) p }
{
    let byte = bytes[p / 8];
    (byte >> (7 - p % 8)) % 2 == 1
}

/// The ones among the first `end` bits: whole bytes at a time, then the highest bits of the next.
pub(crate) fn ones_before(bytes: &[u8], end: usize) -> usize
    requires { (end ≤ 8 * length bytes.now) × (end ≤ 32768) }
    ensures { result ≡ rank_of (all_bits bytes.now) end }
{
    let whole = end / 8;
    let mut count = 0;
    for byte in &bytes[0..whole] {
        count += byte.count_ones() as usize;
    }
    let rest = end % 8;
    if rest > 0 {
        count += (bytes[whole] >> (8 - rest)).count_ones() as usize;
    }
    count
}

/// Whole bytes at the front, and how many zeros they have.
#[derive(Clone, Copy)]
pub(crate) struct Passed {
    pub(crate) bytes: usize,
    pub(crate) zeros: usize,
}

/// The bytes, of the first `whole`, before the one that has the `j`-th zero.
pub(crate) fn pass_zeros(bytes: &[u8], whole: usize, j: usize) -> Passed
    requires { (whole ≤ length bytes.now) × ((whole ≤ 4096) × (0 < j)) }
    ensures upto { result.bytes ≤ whole }
    ensures zeros { result.zeros + rank_of (all_bits bytes.now) (8 * result.bytes) ≡ 8 * result.bytes }
    ensures few { result.zeros < j }
{
    let mut zeros = 0;
    for (i, byte) in bytes[0..whole].iter().enumerate() {
        let more = zeros + 8 - byte.count_ones() as usize;
        if more >= j {
            return Passed { bytes: i, zeros };
        }
        zeros = more;
    }
    Passed {
        bytes: whole,
        zeros,
    }
}

/// Writes the bit at `p`: the bits before it stay, and those after it in its byte become 0.
pub(crate) fn put_bit(bytes: &mut [u8], p: usize, bit: bool)
    requires { p < 8 * length bytes.old }
    ensures { bytes.new ≡ slice_set bytes.old (p / 8) (put_bit (slice_index bytes.old (p / 8)) (p % 8) bit) }
{
    let low = 7 - p % 8;
    let top = (bytes[p / 8] >> low) / 2 * 2 + u8::from(bit);
    bytes[p / 8] = top << low;
}
