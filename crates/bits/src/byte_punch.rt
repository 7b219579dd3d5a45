//! Punches over lent bytes, for any way in which bits lie in bytes.

ghost use Rattle.std.specs.Prelude.{◌≡◌, ℕ, ◌+◌, ◌<◌, min, Bool, List, [], ◌∷◌, ◌++◌, length};
ghost use Rattle.bits.specs.Punching.{Appends, AppendsBy};

use crate::punch::{Full, Punch};
use crate::tape::Tape;
use std::marker::PhantomData;

/// A way in which bits lie in bytes, one after another. Public for the kinds of punches of our crates: only a punch calls it, and finds room before it puts a bit.
pub trait Cells {
    // The first bits in bytes, as many as are said.
    ghost bits: { List ℕ → ℕ → List Bool };

    // How many bits there is room for in bytes.
    ghost room: { List ℕ → ℕ };

    // Bytes into which a bit is put at a place.
    ghost put: { List ℕ → ℕ → Bool → List ℕ };

    /// How many bits there is room for in bytes. It also says how many bits any number comes to.
    fn room_of(bytes: &[u8]) -> usize
        ensures is { result ≡ room bytes.now }
        ensures counted { (n : ℕ) → length (bits bytes.now n) ≡ min n (room bytes.now) };

    /// Puts a bit at a place that there is room for: it stands behind those before that place.
    fn put_bit(bytes: &mut [u8], p: usize, bit: bool)
        requires { p < room bytes.old }
        ensures put { bytes.new ≡ put bytes.old p bit }
        ensures added { bits bytes.new (p + 1) ≡ bits bytes.old p ++ bit ∷ [] }
        ensures room { room bytes.new ≡ room bytes.old };

    // No bits, where none are said.
    ghost none: { (bytes : List ℕ) → bits bytes 0 ≡ [] };
}

/// Cells whose bits a tape shows.
pub trait TapeCells<'b>: Cells {
    type Tape: Tape;

    /// A tape over the first `count` bits.
    fn tape_over(bytes: &'b [u8], count: usize) -> Self::Tape
        ensures { Self.Tape.Tape.bits result ≡ Self.bits bytes.now count };
}

/// Writes its bits into lent bytes, with their count beside them since nothing is allocated.
#[derive(Drop)]
pub struct BytePunch<'a, C> {
    pub bytes: &'a mut [u8],
    pub count: usize,
    pub cells: PhantomData<C>,
}

impl<'a, C: Cells> Punch for BytePunch<'a, C> {
    ghost written = { λ p. C.Cells.bits p.bytes.now p.count };

    ghost room = { λ p. C.Cells.room p.bytes.now };

    ghost home = { λ p. p.bytes.ghost_name };

    fn capacity(&self) -> usize
        ensures is { result ≡ C.Cells.room self.now.bytes.now }
        ensures counted { (n : ℕ) → length (C.Cells.bits self.now.bytes.now n) ≡ min n (C.Cells.room self.now.bytes.now) }
    {
        C::room_of(self.bytes)
    }

    fn len(&self) -> usize {
        self.count.min(self.capacity())
    }

    fn clear(&mut self)
        ensures empty { C.Cells.bits self.new.bytes.now self.new.count ≡ [] }
        ensures room { C.Cells.room self.new.bytes.now ≡ C.Cells.room self.old.bytes.now }
        ensures home { self.new.bytes.ghost_name ≡ self.old.bytes.ghost_name }
        ensures bytes { self.new.bytes.now ≡ self.old.bytes.now }
        ensures none { self.new.count ≡ 0 }
    {
        self.count = 0;
    }

    fn append(&mut self, bit: bool) -> Result<(), Full>
        ensures bits { Appends result (C.Cells.room self.old.bytes.now) (C.Cells.bits self.old.bytes.now self.old.count) (C.Cells.bits self.new.bytes.now self.new.count) bit }
        ensures room { C.Cells.room self.new.bytes.now ≡ C.Cells.room self.old.bytes.now }
        ensures home { self.new.bytes.ghost_name ≡ self.old.bytes.ghost_name }
        ensures bytes { AppendsBy C.Cells.put result self.old.bytes.now self.old.count bit self.new.bytes.now self.new.count }
    {
        if self.count < self.capacity() {
            C::put_bit(self.bytes, self.count, bit);
            self.count += 1;
            Ok(())
        } else {
            Err(Full)
        }
    }
}

impl<'a, C: Cells> BytePunch<'a, C> {
    /// A punch over `bytes` with no bits.
    pub fn new(bytes: &'a mut [u8]) -> Self
        ensures bytes { result.bytes.now ≡ bytes.old }
        ensures home { result.bytes.ghost_name ≡ bytes.entry.ghost_name }
        ensures none { result.count ≡ 0 }
    {
        BytePunch {
            bytes,
            count: 0,
            cells: PhantomData,
        }
    }

    /// A tape over what is written.
    pub fn tape<'b>(&'b self) -> <C as TapeCells<'b>>::Tape
    where
        C: TapeCells<'b>,
        ensures { ⟦<C::Tape as Tape>⟧.bits result ≡ C.Cells.bits self.now.bytes.now self.now.count }
    {
        <C as TapeCells<'b>>::tape_over(self.bytes, self.count)
    }
}
