//! One command performed, and the reply to it.

ghost use Rattle.std.specs.Prelude.{◌≡◌, ℕ, Bool, ◌++◌, length, drop, Some, OnOk};
ghost use Rattle.bits.specs.Punching.{letter_room};
ghost use Rattle.leaders.specs.Refusal.{answered};
ghost use Rattle.leaders.specs.Verdict.{verdict};
ghost use Rattle.book.specs.Faults.{told};
ghost use Rattle.book.specs.Held.{keys_in};
ghost use Rattle.board.specs.Pages.{lots_by, Knows};
ghost use Rattle.commands.specs.Asked.{asks, asked_of};
ghost use Rattle.replies.specs.Replies.{book_line, cast_line};
ghost use Rattle.hall.specs.Halls.{CastsFit};
ghost use Rattle.hall.specs.States.{bits_of, terms_of, cast_of, terms_in, page_over, Does, Said, Done, Replied, Kept};

use crate::hall::Hall;
use bits::punch::LetteredPunch;
use bits::tape::Tape;
use board::board::Board;
use book::book::Book;
use book::fault::BookFault;
use commands::command::{Command, command_of};
use keys::key::Key;
use panel::Panel;
use panel::line_panel::LinePanel;
use replies::{reply_ok, reply_pair, reply_refused, reply_sheet};
use std::alloc::AllocError;

/// The reply to an add, a strike or a new key.
fn reply_book(out: &mut Vec<u8>, reply: Result<u32, BookFault>) -> Result<(), AllocError>
    ensures { OnOk result (out.new.items ≡ out.old.items ++ book_line (answered told reply)) }
{
    match reply {
        Ok(lots) => reply_ok(out, lots),
        Err(fault) => reply_refused(out, fault.number()),
    }
}

/// Casts the book, and replies with the sheet.
fn reply_cast<K: Key + Copy>(
    book: &Book<'_, K>,
    punch: &mut LetteredPunch<'_>,
    work: &mut [u32],
    out: &mut Vec<u8>,
) -> Result<(), AllocError>
    ensures bits { bits_of punch.new ≡ (cast_of K.Key.at_least book.now punch.old (length work.old)).bits }
    ensures reply { OnOk result (out.new.items ≡ out.old.items ++ cast_line (cast_of K.Key.at_least book.now punch.old (length work.old))) }
    ensures room { letter_room punch.new.bytes.now ≡ letter_room punch.old.bytes.now }
    ensures home { punch.new.bytes.ghost_name ≡ punch.old.bytes.ghost_name }
    ensures rest { drop 16004 work.new ≡ drop 16004 work.old }
{
    match book.cast(punch, work) {
        Ok(_) => reply_sheet(out, &punch.tape()),
        Err(fault) => reply_refused(out, fault.number()),
    }
}

/// A new board takes the tape, and the reply is the pair of a page.
fn reply_page<T: Tape + Drop>(
    tape: T,
    start: u32,
    size: u32,
    out: &mut Vec<u8>,
) -> Result<(), AllocError>
    ensures { (b : ℕ → ℕ → Bool) → Knows b (lots_by (verdict (T.Tape.bits tape))) (T.Tape.bits tape) → OnOk result (out.new.items ≡ out.old.items ++ page_over b (T.Tape.bits tape) start size) }
{
    let mut board = Board::new(tape);
    let _ = board.take();
    let mut panel = LinePanel::new();
    match board.page(&mut panel, start, size) {
        Ok(()) => reply_pair(out, panel.shown()),
        Err(fault) => reply_refused(out, fault.number()),
    }
}

/// Performs a command on a book, a punch and working numbers, and adds the reply.
fn perform<K: Key + Copy>(
    book: &mut Book<'_, K>,
    punch: &mut LetteredPunch<'_>,
    work: &mut [u32],
    command: &Command,
    out: &mut Vec<u8>,
) -> Result<(), AllocError>
    ensures done { Does (terms_of K.Key.made K.Key.at_least K.Key.FIELDS book.old punch.old (length work.old)) (keys_in book.old) (keys_in book.new) (bits_of punch.old) (bits_of punch.new) (Some (asks command.now)) }
    ensures replied { Said (terms_of K.Key.made K.Key.at_least K.Key.FIELDS book.old punch.old (length work.old)) (keys_in book.old) (bits_of punch.old) (Some (asks command.now)) result out.old.items out.new.items }
    ensures room { letter_room punch.new.bytes.now ≡ letter_room punch.old.bytes.now }
    ensures home { punch.new.bytes.ghost_name ≡ punch.old.bytes.ghost_name }
    ensures rest { drop 16004 work.new ≡ drop 16004 work.old }
    ensures kept { length book.new.list.now ≡ length book.old.list.now }
    ensures lender { book.new.list.ghost_name ≡ book.old.list.ghost_name }
{
    match command {
        Command::Add(fields) => reply_book(out, book.add(fields.as_slice())),
        Command::Strike(lot) => reply_book(out, book.strike(*lot)),
        Command::NewKey(lot, fields) => reply_book(out, book.new_key(*lot, fields.as_slice())),
        Command::Cast => reply_cast(book, punch, work, out),
        Command::Page(start, size) => reply_page(punch.tape(), *start, *size, out),
    }
}

/// Performs the command of a line, and adds the reply line to `out`; a malformed line is refused with 1.
/// Where there is no memory for the reply, the command is performed all the same.
pub fn answer_line<K: Key + Copy>(
    book: &mut Book<'_, K>,
    punch: &mut LetteredPunch<'_>,
    work: &mut [u32],
    line: &[u8],
    out: &mut Vec<u8>,
) -> Result<(), AllocError>
    ensures done { Does (terms_of K.Key.made K.Key.at_least K.Key.FIELDS book.old punch.old (length work.old)) (keys_in book.old) (keys_in book.new) (bits_of punch.old) (bits_of punch.new) (asked_of K.Key.FIELDS line.now) }
    ensures replied { Said (terms_of K.Key.made K.Key.at_least K.Key.FIELDS book.old punch.old (length work.old)) (keys_in book.old) (bits_of punch.old) (asked_of K.Key.FIELDS line.now) result out.old.items out.new.items }
    ensures room { letter_room punch.new.bytes.now ≡ letter_room punch.old.bytes.now }
    ensures home { punch.new.bytes.ghost_name ≡ punch.old.bytes.ghost_name }
    ensures rest { drop 16004 work.new ≡ drop 16004 work.old }
    ensures kept { length book.new.list.now ≡ length book.old.list.now }
    ensures lender { book.new.list.ghost_name ≡ book.old.list.ghost_name }
{
    match command_of::<K>(line) {
        Some(command) => perform(book, punch, work, &command, out),
        None => reply_refused(out, 1),
    }
}

impl<K: Key + Copy> Hall<'_, K> {
    /// The same for a hall.
    pub fn answer(&mut self, line: &[u8], out: &mut Vec<u8>) -> Result<(), AllocError>
        ensures done { Done (terms_in K.Key.made K.Key.at_least K.Key.FIELDS self.old) self.old self.new (asked_of K.Key.FIELDS line.now) }
        ensures replied { Replied (terms_in K.Key.made K.Key.at_least K.Key.FIELDS self.old) self.old (asked_of K.Key.FIELDS line.now) result out.old.items out.new.items }
        ensures kept { Kept self.old self.new }
    {
        answer_line(&mut self.book, &mut self.punch, self.work, line, out)
    }
}

/// Every cast of at most 4,000 lots fits a hall program's punch and working numbers.
pub fn casts_fit<K: Key>() -> u8
    ensures { CastsFit K.Key.at_least }
{
    0
}
