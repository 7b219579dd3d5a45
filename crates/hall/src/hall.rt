//! A hall: a book, a punch and working numbers, over memory that is lent.

ghost use Rattle.std.specs.Prelude.{◌≡◌, [], length, IfOk};
ghost use Rattle.bits.specs.Punching.{letter_room};
ghost use Rattle.book.specs.Entries.{room_for};
ghost use Rattle.hall.specs.Halls.{terms};
ghost use Rattle.hall.specs.States.{lots_in, bits_in, terms_in};

use bits::punch::LetteredPunch;
use book::book::{BITS, Book, NUMBERS, PLACES};
use keys::key::Key;
use std::alloc::{AllocError, Global};

/// The most bytes of an input that count.
pub const MOST: usize = 65_536;

/// A book of lots, the punch of its sheets, and the working numbers that casts need.
#[derive(Drop)]
pub struct Hall<'a, K> {
    pub book: Book<'a, K>,
    pub punch: LetteredPunch<'a>,
    pub work: &'a mut [u32],
}

impl<'a, K: Key + Copy> Hall<'a, K> {
    /// A hall with no lots, and none cast.
    pub fn new(list: &'a mut [K], text: &'a mut [u8], work: &'a mut [u32]) -> Hall<'a, K>
        ensures lots { lots_in result ≡ [] }
        ensures bits { bits_in result ≡ [] }
        ensures terms { terms_in K.Key.made K.Key.at_least K.Key.FIELDS result ≡ terms K.Key.made K.Key.at_least K.Key.FIELDS (room_for (length list.old)) (letter_room text.old) (length work.old) }
        ensures book { result.book.list.now ≡ list.old }
        ensures punch { (result.punch.bytes.now ≡ text.old) × (result.punch.count ≡ 0) }
        ensures numbers { result.work.now ≡ work.old }
        ensures lender { result.book.list.ghost_name ≡ list.entry.ghost_name }
        ensures home { result.punch.bytes.ghost_name ≡ text.entry.ghost_name }
        ensures numbers_home { result.work.ghost_name ≡ work.entry.ghost_name }
    {
        Hall {
            book: Book::new(list),
            punch: LetteredPunch::new(text),
            work,
        }
    }
}

/// The memory of a hall program.
#[derive(Drop)]
pub(crate) struct Room<K> {
    places: Vec<K>,
    letters: Vec<u8>,
    work: Vec<u32>,
}

impl<K: Key + Copy + Clone> Room<K> {
    /// Room for 4,000 lots; `blank` fills the places that have no lot.
    pub(crate) fn new(blank: K, heap: Global) -> Result<Room<K>, AllocError>
        ensures { IfOk result (λ r. (length r.places.items ≡ 4000) × (length r.letters.items ≡ 14000) × (length r.work.items ≡ 16004)) }
    {
        Ok(Room {
            places: vec![in heap; blank; PLACES]?,
            letters: vec![in heap; b' '; BITS]?,
            work: vec![in heap; 0u32; NUMBERS]?,
        })
    }

    /// A new hall over this room.
    pub(crate) fn hall(&mut self) -> Hall<'_, K>
        ensures lots { lots_in result ≡ [] }
        ensures bits { bits_in result ≡ [] }
        ensures terms { terms_in K.Key.made K.Key.at_least K.Key.FIELDS result ≡ terms K.Key.made K.Key.at_least K.Key.FIELDS (room_for (length self.old.places.items)) (letter_room self.old.letters.items) (length self.old.work.items) }
    {
        Hall::new(
            &mut self.places[..],
            &mut self.letters[..],
            &mut self.work[..],
        )
    }
}
