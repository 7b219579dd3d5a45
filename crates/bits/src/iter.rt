//! Going through the bits of a tape, forward or backward.

ghost use Rattle.std.specs.Prelude.{◌≡◌, ◌≤◌, length, take, drop};
ghost use Rattle.std.specs.Iterator.{YieldsFirst, YieldsLast, item_count};
ghost use Rattle.bits.specs.Bits.{bits_between};

use crate::tape::Tape;

/// The bits of a tape from one place up to another, in order.
#[derive(Drop)]
pub struct Bits<'a, T: Tape> {
    pub tape: &'a T,
    pub from: usize,
    pub upto: usize,
    ghost inside: { upto ≤ length (T.Tape.bits tape.now) },
}

impl<'a, T: Tape> Bits<'a, T> {
    /// All bits of a tape.
    pub fn of(tape: &'a T) -> Bits<'a, T>
        ensures { bits_between (T.Tape.bits result.tape.now) result.from result.upto ≡ T.Tape.bits tape.now }
    {
        Bits::between(tape, 0, tape.len())
    }

    /// The bits from `from` up to `upto`, as far as there are any.
    pub fn between(tape: &'a T, from: usize, upto: usize) -> Bits<'a, T>
        ensures { bits_between (T.Tape.bits result.tape.now) result.from result.upto ≡ bits_between (T.Tape.bits tape.now) from upto }
    {
        Bits {
            tape,
            from,
            upto: upto.min(tape.len()),
        }
    }
}

impl<'a, T: Tape> Iterator for Bits<'a, T> {
    type Item = bool;

    ghost next_gives = { YieldsFirst (λ s. bits_between (T.Tape.bits s.tape.now) s.from s.upto) };

    ghost remaining = { item_count (λ s. bits_between (T.Tape.bits s.tape.now) s.from s.upto) };

    fn next(&mut self) -> Option<bool> {
        if self.from >= self.upto {
            return None;
        }
        let bit = self.tape.get(self.from)?;
        self.from += 1;
        Some(bit)
    }
}

impl<'a, T: Tape> DoubleEndedIterator for Bits<'a, T> {
    ghost next_back_gives = { YieldsLast (λ s. bits_between (T.Tape.bits s.tape.now) s.from s.upto) };

    fn next_back(&mut self) -> Option<bool> {
        if self.from >= self.upto {
            return None;
        }
        let last = self.upto - 1;
        let bit = self.tape.get(last)?;
        self.upto = last;
        Some(bit)
    }
}
