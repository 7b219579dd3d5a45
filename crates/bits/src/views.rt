//! Tapes over other tapes: a window, a flipped tape, a borrowed one.

ghost use Rattle.std.specs.Prelude.{not, map, take, drop};

use crate::tape::Tape;

/// The bits of the tape below, 0 for 1 and 1 for 0.
#[derive(Clone, Copy)]
pub struct Flipped<T> {
    pub below: T,
}

impl<T: Tape> Tape for Flipped<T> {
    ghost bits = { λ t. map not (T.Tape.bits t.below) };

    fn len(&self) -> usize {
        self.below.len()
    }

    fn get(&self, p: usize) -> Option<bool> {
        self.below.get(p).map(|bit| !bit)
    }

    fn rank(&self, p: usize) -> usize {
        let end = p.min(self.below.len());
        end - self.below.rank(end)
    }
}

/// The bits of the tape below from bit `from` on, `most` at most, cut at its end.
#[derive(Clone, Copy)]
pub struct Window<T> {
    pub below: T,
    pub from: usize,
    pub most: usize,
}

impl<T: Tape> Tape for Window<T> {
    ghost bits = { λ t. take t.most (drop t.from (T.Tape.bits t.below)) };

    fn len(&self) -> usize {
        self.below.len().saturating_sub(self.from).min(self.most)
    }

    fn get(&self, p: usize) -> Option<bool> {
        let rest = self.below.len().saturating_sub(self.from);
        if p < rest.min(self.most) {
            self.below.get(self.from + p)
        } else {
            None
        }
    }
}

impl<'a, T: Tape> Tape for &'a T {
    ghost bits = { λ t. T.Tape.bits t.now };

    fn len(&self) -> usize {
        T::len(*self)
    }

    fn get(&self, p: usize) -> Option<bool> {
        T::get(*self, p)
    }

    fn rank(&self, p: usize) -> usize {
        T::rank(*self, p)
    }

    fn place(&self, bit: bool, j: usize) -> Option<usize> {
        T::place(*self, bit, j)
    }

    fn select(&self, j: usize) -> Option<usize> {
        T::select(*self, j)
    }

    fn select_zero(&self, j: usize) -> Option<usize> {
        T::select_zero(*self, j)
    }
}
