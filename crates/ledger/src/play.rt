//! A whole list of calls on a new book.

ghost use Rattle.std.specs.Prelude.{◌≡◌, ◌≤◌, [], map, length, drop, is_ok, IfOk, vec_len, vec_capacity, OnErr};
ghost use Rattle.answers.specs.Room.{roomy};
ghost use Rattle.leaders.specs.Refusal.{answered};
ghost use Rattle.book.specs.Faults.{told as book_told};
ghost use Rattle.book.specs.Entries.{room_for};
ghost use Rattle.book.specs.Held.{keys_in};
ghost use Rattle.ledger.specs.Ledger.{told, terms, step, step_of};
ghost use Rattle.ledger.specs.Plays.{played, ByTheLedger};

use crate::call::{BookCall, CallFault};
use answers::{NoRoom, has_room};
use bits::punch::Punch;
use book::book::Book;
use book::fault::BookFault;
use keys::key::Key;
use std::alloc::{AllocError, Global};

/// What a book answers, as the answer to a call of a list.
fn carried(reply: Result<u32, BookFault>) -> Result<u32, CallFault>
    ensures { answered told result ≡ answered book_told reply }
{
    Ok(reply?)
}

/// Performs one call on a book, beside some punches and working numbers.
pub fn perform<K: Key + Copy, P: Punch>(
    book: &mut Book<'_, K>,
    punches: &mut [P],
    work: &mut [u32],
    call: &BookCall,
) -> Result<u32, CallFault>
    ensures steps { step (keys_in book.new) (map P.Punch.written punches.new) (answered told result) ≡ step_of (terms K.Key.made K.Key.at_least (room_for (length book.old.list.now)) (map P.Punch.room punches.old) (length work.old)) (keys_in book.old) (map P.Punch.written punches.old) call.now }
    ensures rooms { map P.Punch.room punches.new ≡ map P.Punch.room punches.old }
    ensures homes { map P.Punch.home punches.new ≡ map P.Punch.home punches.old }
    ensures rest { drop 16004 work.new ≡ drop 16004 work.old }
    ensures kept { length book.new.list.now ≡ length book.old.list.now }
    ensures lender { book.new.list.ghost_name ≡ book.old.list.ghost_name }
{
    match call {
        BookCall::Add(fields) => carried(book.add(fields.as_slice())),
        BookCall::Strike(lot) => carried(book.strike(*lot)),
        BookCall::NewKey(lot, fields) => carried(book.new_key(*lot, fields.as_slice())),
        BookCall::Cast(at, count) => {
            let p = *at;
            if p >= punches.len() {
                return Err(CallFault::NoPunch);
            }
            let n = work.len().min(*count);
            carried(book.cast(&mut punches[p], &mut work[0..n]))
        }
    }
}

// What a play is lent serves one call only: a struct of it would be made just to be taken apart.
/// Performs the calls in order and notes the answers, for which there is room. Public for our crate `sale`, which looks for all its room before the first call.
pub fn play_into<K: Key + Copy, P: Punch>(
    list: &mut [K],
    punches: &mut [P],
    work: &mut [u32],
    calls: &[BookCall],
    mut answers: Vec<Result<u32, CallFault>>,
) -> Vec<Result<u32, CallFault>>
    requires empty { answers.items ≡ [] }
    requires room { length calls.now ≤ vec_capacity answers }
    ensures ledger { ByTheLedger (played K.Key.made K.Key.at_least P.Punch.room P.Punch.written (length work.old) list.old punches.old calls.now result.items list.new punches.new) }
    ensures rooms { map P.Punch.room punches.new ≡ map P.Punch.room punches.old }
    ensures homes { map P.Punch.home punches.new ≡ map P.Punch.home punches.old }
    ensures rest { drop 16004 work.new ≡ drop 16004 work.old }
{
    let mut book = Book::new(list);
    for call in calls {
        let answer = perform(&mut book, punches, work, call);
        let _ = answers.push(answer);
    }
    answers
}

/// The answers of a new book over `list` to the calls, in order. Want of memory for the answers is found before the first call.
pub fn play_book<K: Key + Copy, P: Punch>(
    list: &mut [K],
    punches: &mut [P],
    work: &mut [u32],
    calls: &[BookCall],
    heap: Global,
) -> Result<Vec<Result<u32, CallFault>>, AllocError>
    ensures ledger { IfOk result (λ v. ByTheLedger (played K.Key.made K.Key.at_least P.Punch.room P.Punch.written (length work.old) list.old punches.old calls.now v.items list.new punches.new)) }
    ensures rooms { map P.Punch.room punches.new ≡ map P.Punch.room punches.old }
    ensures homes { map P.Punch.home punches.new ≡ map P.Punch.home punches.old }
    ensures rest { drop 16004 work.new ≡ drop 16004 work.old }
    ensures unplayed { OnErr result ((list.new ≡ list.old) × (punches.new ≡ punches.old) × (work.new ≡ work.old)) }
{
    let answers = Vec::with_capacity(heap, calls.len())?;
    Ok(play_into(list, punches, work, calls, answers))
}

// Beside `play_book`, since that may plead want of memory, and this never does.
/// The same, with the answers noted in a list that has room for them; without that nothing is played, and want of memory is never told.
pub fn play_book_noted<K: Key + Copy, P: Punch>(
    list: &mut [K],
    punches: &mut [P],
    work: &mut [u32],
    calls: &[BookCall],
    room: Vec<Result<u32, CallFault>>,
) -> Result<Vec<Result<u32, CallFault>>, NoRoom>
    ensures reply { is_ok result ≡ roomy (vec_len room) (vec_capacity room) (length calls.now) }
    ensures ledger { IfOk result (λ v. ByTheLedger (played K.Key.made K.Key.at_least P.Punch.room P.Punch.written (length work.old) list.old punches.old calls.now v.items list.new punches.new)) }
    ensures rooms { map P.Punch.room punches.new ≡ map P.Punch.room punches.old }
    ensures homes { map P.Punch.home punches.new ≡ map P.Punch.home punches.old }
    ensures rest { drop 16004 work.new ≡ drop 16004 work.old }
    ensures unplayed { OnErr result ((list.new ≡ list.old) × (punches.new ≡ punches.old) × (work.new ≡ work.old)) }
{
    if !has_room(&room, calls.len()) {
        return Err(NoRoom);
    }
    Ok(play_into(list, punches, work, calls, room))
}
