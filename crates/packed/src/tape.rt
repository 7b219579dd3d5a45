//! The packed tape.

ghost use Rattle.packed.specs.Packed.{packed};

use crate::bytes::{bit_at, ones_before, pass_zeros, room_of};
use bits::tape::Tape;

/// The first `count` bits of borrowed bytes, as far as they go, and 32,768 at most. C gives bytes and count so.
#[derive(Clone, Copy)]
pub struct PackedTape<'a> {
    pub bytes: &'a [u8],
    pub count: usize,
}

impl<'a> Tape for PackedTape<'a> {
    ghost bits = { λ t. packed t.bytes.now t.count };

    fn len(&self) -> usize {
        self.count.min(room_of(self.bytes))
    }

    fn get(&self, p: usize) -> Option<bool> {
        if p < self.len() {
            Some(bit_at(self.bytes, p))
        } else {
            None
        }
    }

    fn rank(&self, p: usize) -> usize {
        ones_before(self.bytes, p.min(self.len()))
    }

    fn select_zero(&self, j: usize) -> Option<usize> {
        if j == 0 {
            return None;
        }
        let n = self.len();
        let passed = pass_zeros(self.bytes, n / 8, j);
        (8 * passed.bytes..n)
            .filter(|p| self.get(*p) == Some(false))
            .nth(j - 1 - passed.zeros)
    }
}
