//! A book of lots over a list that it is lent.

ghost use Rattle.std.specs.Prelude.{◌≡◌, suc, ◌*◌, ◌<◌, [], length, drop};
ghost use Rattle.leaders.specs.Refusal.{answered};
ghost use Rattle.casting.specs.Casts.{casting, cast_sheet};
ghost use Rattle.book.specs.Faults.{told};
ghost use Rattle.book.specs.Entries.{entry, room_for, add_key, set_key, strike_lot, sheet_of};
ghost use Rattle.book.specs.Held.{keys_in};

use crate::fault::BookFault;
use crate::lots::KeyLots;
use crate::slots::{close, put};
use bits::punch::Punch;
use casting::{Lots, cast};
use keys::key::Key;

/// The places of the book, the bits of the punch, and the working numbers that 4,000 lots need.
pub const PLACES: usize = 4_000;

pub const BITS: usize = 14_000;

pub const NUMBERS: usize = 16_004;

/// A book: lots in order, numbered from 1, each with one key. It keeps the keys in the list that it is lent, with their count beside it since nothing is allocated.
#[derive(Drop)]
pub struct Book<'a, K> {
    list: &'a mut [K],
    count: u32,
}

impl<'a, K: Key + Copy> Book<'a, K> {
    /// A book with no lots.
    pub fn new(list: &'a mut [K]) -> Book<'a, K>
        ensures empty { keys_in result ≡ [] }
        ensures list { result.list.now ≡ list.old }
        ensures lender { result.list.ghost_name ≡ list.entry.ghost_name }
    {
        Book { list, count: 0 }
    }

    /// How many lots there are.
    pub fn len(&self) -> u32
        ensures { result ≡ length (keys_in self.now) }
    {
        let most = (self.count as usize).min(PLACES);
        most.min(self.list.len()) as u32
    }

    /// Adds a lot at the end, and says how many there are now.
    pub fn add(&mut self, fields: &[u32]) -> Result<u32, BookFault>
        ensures entry { entry (keys_in self.new) (answered told result) ≡ add_key (room_for (length self.old.list.now)) (keys_in self.old) (K.Key.made fields.now) }
        ensures kept { length self.new.list.now ≡ length self.old.list.now }
        ensures lender { self.new.list.ghost_name ≡ self.old.list.ghost_name }
    {
        let Some(key) = K::from_fields(fields) else {
            return Err(BookFault::BadFields);
        };
        let n = self.len();
        let at = n as usize;
        if at >= self.list.len().min(PLACES) {
            return Err(BookFault::BookFull);
        }
        put(self.list, at, key);
        self.count = n + 1;
        Ok(n + 1)
    }

    /// Strikes a lot: later lots move down by one. Says how many are left.
    pub fn strike(&mut self, lot: u32) -> Result<u32, BookFault>
        ensures entry { entry (keys_in self.new) (answered told result) ≡ strike_lot (keys_in self.old) lot }
        ensures kept { length self.new.list.now ≡ length self.old.list.now }
        ensures lender { self.new.list.ghost_name ≡ self.old.list.ghost_name }
    {
        let n = self.len();
        if lot < 1 || n < lot {
            return Err(BookFault::NoSuchLot);
        }
        close(self.list, (lot - 1) as usize, n as usize);
        self.count = n - 1;
        Ok(n - 1)
    }

    /// Gives a lot another key, and says how many lots there are.
    pub fn new_key(&mut self, lot: u32, fields: &[u32]) -> Result<u32, BookFault>
        ensures entry { entry (keys_in self.new) (answered told result) ≡ set_key (keys_in self.old) lot (K.Key.made fields.now) }
        ensures kept { length self.new.list.now ≡ length self.old.list.now }
        ensures lender { self.new.list.ghost_name ≡ self.old.list.ghost_name }
    {
        let Some(key) = K::from_fields(fields) else {
            return Err(BookFault::BadFields);
        };
        let n = self.len();
        if lot < 1 || n < lot {
            return Err(BookFault::NoSuchLot);
        }
        put(self.list, (lot - 1) as usize, key);
        Ok(n)
    }

    /// Casts the sheet of the lots into a punch, and says how many bits it has.
    pub fn cast<P: Punch>(&self, punch: &mut P, work: &mut [u32]) -> Result<u32, BookFault>
        ensures bits { casting (P.Punch.written punch.new) (answered told result) ≡ cast_sheet (sheet_of K.Key.at_least (keys_in self.now)) (length (keys_in self.now)) (P.Punch.room punch.old) (length work.old) (P.Punch.written punch.old) }
        ensures room { P.Punch.room punch.new ≡ P.Punch.room punch.old }
        ensures home { P.Punch.home punch.new ≡ P.Punch.home punch.old }
        ensures rest { drop (4 * suc (length (keys_in self.now))) work.new ≡ drop (4 * suc (length (keys_in self.now))) work.old }
        ensures kept { length work.old < 4 * suc (length (keys_in self.now)) → work.new ≡ work.old }
    {
        let n = self.len() as usize;
        let lots = KeyLots {
            keys: &self.list[0..n],
        };
        let bits = cast(&lots, punch, work)?;
        Ok(bits)
    }
}
