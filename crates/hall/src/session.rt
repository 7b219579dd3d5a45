//! A whole input answered, line by line.

ghost use Rattle.std.specs.Prelude.{◌≡◌, ◌<◌, List, [], length, drop, IfOk, Option, MatchOption};
ghost use Rattle.bits.specs.Punching.{letter_room};
ghost use Rattle.book.specs.Held.{keys_in};
ghost use Rattle.hall.specs.Halls.{program_terms, hall, all_replies, Stands, FirstNext};
ghost use Rattle.hall.specs.States.{bits_of, terms_of, lots_in, bits_in, terms_in, Kept};

use crate::answer::answer_line;
use crate::hall::{Hall, MOST, Room};
use bits::punch::LetteredPunch;
use book::book::Book;
use commands::line::{Lines, first_line};
use keys::key::Key;
use std::alloc::{AllocError, Global};

/// Answers the first line of a text: adds the reply line to `out`, and gives the text behind it. `None` where the text is empty.
pub fn answer_next<'t, K: Key + Copy>(
    book: &mut Book<'_, K>,
    punch: &mut LetteredPunch<'_>,
    work: &mut [u32],
    text: &'t [u8],
    out: &mut Vec<u8>,
) -> Result<Option<&'t [u8]>, AllocError>
    ensures shorter { IfOk result (λ o. MatchOption o ((text.now ≡ []) × (out.new.items ≡ out.old.items)) (λ rest. length rest.now < length text.now)) }
    ensures ended { IfOk result (λ o. MatchOption o ((keys_in book.new ≡ keys_in book.old) × (bits_of punch.new ≡ bits_of punch.old) × (work.new ≡ work.old)) (λ _. Unit)) }
    ensures first { (shown : Option (List K)) → Stands K.Key.at_least shown (bits_of punch.old) → IfOk result (λ o. MatchOption o Unit (λ rest. FirstNext (terms_of K.Key.made K.Key.at_least K.Key.FIELDS book.old punch.old (length work.old)) (hall (keys_in book.old) shown) text.now rest.now (keys_in book.new) (bits_of punch.new) out.old.items out.new.items)) }
    ensures room { letter_room punch.new.bytes.now ≡ letter_room punch.old.bytes.now }
    ensures home { punch.new.bytes.ghost_name ≡ punch.old.bytes.ghost_name }
    ensures rest { drop 16004 work.new ≡ drop 16004 work.old }
    ensures kept { length book.new.list.now ≡ length book.old.list.now }
    ensures lender { book.new.list.ghost_name ≡ book.old.list.ghost_name }
{
    let Some(line) = first_line(text) else {
        return Ok(None);
    };
    answer_line(book, punch, work, line.bytes, out)?;
    Ok(Some(line.rest))
}

impl<K: Key + Copy> Hall<'_, K> {
    /// The same for a hall.
    pub fn answer_next<'t>(
        &mut self,
        text: &'t [u8],
        out: &mut Vec<u8>,
    ) -> Result<Option<&'t [u8]>, AllocError>
        ensures shorter { IfOk result (λ o. MatchOption o ((text.now ≡ []) × (out.new.items ≡ out.old.items)) (λ rest. length rest.now < length text.now)) }
        ensures ended { IfOk result (λ o. MatchOption o ((lots_in self.new ≡ lots_in self.old) × (bits_in self.new ≡ bits_in self.old) × (self.new.work.now ≡ self.old.work.now)) (λ _. Unit)) }
        ensures first { (shown : Option (List K)) → Stands K.Key.at_least shown (bits_in self.old) → IfOk result (λ o. MatchOption o Unit (λ rest. FirstNext (terms_in K.Key.made K.Key.at_least K.Key.FIELDS self.old) (hall (lots_in self.old) shown) text.now rest.now (lots_in self.new) (bits_in self.new) out.old.items out.new.items)) }
        ensures kept { Kept self.old self.new }
    {
        answer_next(&mut self.book, &mut self.punch, self.work, text, out)
    }
}

/// The replies of a hall program to an input, for a kind of key; `blank` fills the places of the book that have no lot.
pub fn session<K: Key + Copy + Clone>(
    input: &[u8],
    blank: K,
    heap: Global,
) -> Result<Vec<u8>, AllocError>
    ensures { IfOk result (λ out. out.items ≡ all_replies (program_terms K.Key.made K.Key.at_least K.Key.FIELDS) input.now) }
{
    let mut room = Room::new(blank, heap)?;
    let mut hall = room.hall();
    let mut out = Vec::new(heap);
    for line in Lines::new(&input[..input.len().min(MOST)]) {
        hall.answer(line, &mut out)?;
    }
    Ok(out)
}
