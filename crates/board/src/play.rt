//! A whole list of takes and pages on a new board.

ghost use Rattle.std.specs.Prelude.{◌≡◌, ℕ, ◌≤◌, Bool, [], map, length, is_ok, IfOk, Ok, vec_len, vec_capacity, OnErr};
ghost use Rattle.answers.specs.Room.{roomy};
ghost use Rattle.leaders.specs.Order.{Strict};
ghost use Rattle.leaders.specs.Sheet.{sheet};
ghost use Rattle.leaders.specs.Refusal.{answered};
ghost use Rattle.leaders.specs.Verdict.{verdict};
ghost use Rattle.board.specs.Faults.{told as board_told};
ghost use Rattle.board.specs.Pages.{lots_by, Knows};
ghost use Rattle.board.specs.Showing.{told, take_answer, page_answer, turn, turn_of, shows, idle};
ghost use Rattle.board.specs.Sitting.{seated, Sat};

use crate::board::Board;
use crate::call::{BoardCall, BoardReply, TurnFault};
use crate::fault::BoardFault;
use answers::{NoRoom, has_room};
use bits::tape::Tape;
use panel::Panel;
use std::alloc::{AllocError, Global};

/// What a take answers, as the answer to a call of a list.
fn taken(reply: Result<u32, BoardFault>) -> Result<BoardReply, TurnFault>
    ensures { answered told result ≡ take_answer (answered board_told reply) }
{
    Ok(BoardReply::Taken(reply?))
}

/// What a page answers, as the answer to a call of a list.
fn paged(reply: Result<(), BoardFault>) -> Result<BoardReply, TurnFault>
    ensures { answered told result ≡ page_answer (answered board_told reply) }
{
    reply?;
    Ok(BoardReply::Paged)
}

/// Performs one call on a board, beside some panels.
pub fn perform<T: Tape, D: Panel>(
    board: &mut Board<T>,
    panels: &mut [D],
    call: &BoardCall,
) -> Result<BoardReply, TurnFault>
    ensures tape { board.new.tape ≡ board.old.tape }
    ensures turns { (b : ℕ → ℕ → Bool) → Knows b board.old.lots (T.Tape.bits board.old.tape) → turn board.new.lots (map D.Panel.shows panels.new) (answered told result) ≡ turn_of (verdict (T.Tape.bits board.old.tape)) b board.old.lots (map D.Panel.shows panels.old) call.now }
{
    match call {
        BoardCall::Take => taken(board.take()),
        BoardCall::Page(at, start, size) => {
            let p = *at;
            if p >= panels.len() {
                return Err(TurnFault::NoPanel);
            }
            paged(board.page(&mut panels[p], *start, *size))
        }
    }
}

/// Performs the calls in order and notes the answers, for which there is room. Public for our crate `sale`, which looks for all its room before the first call.
pub fn play_into<T: Tape + Drop, D: Panel>(
    tape: T,
    panels: &mut [D],
    calls: &[BoardCall],
    mut answers: Vec<Result<BoardReply, TurnFault>>,
) -> Vec<Result<BoardReply, TurnFault>>
    requires empty { answers.items ≡ [] }
    requires room { length calls.now ≤ vec_capacity answers }
    ensures { (b : ℕ → ℕ → Bool) → Knows b (lots_by (verdict (T.Tape.bits tape))) (T.Tape.bits tape) → ((shows (verdict (T.Tape.bits tape)) b (idle (map D.Panel.shows panels.old)) calls.now).shown ≡ map D.Panel.shows panels.new) × ((shows (verdict (T.Tape.bits tape)) b (idle (map D.Panel.shows panels.old)) calls.now).answers ≡ map (answered told) result.items) }
{
    let mut board = Board::new(tape);
    for call in calls {
        let answer = perform(&mut board, panels, call);
        let _ = answers.push(answer);
    }
    answers
}

/// The answers of a new board over the tape to the calls, in order. Want of memory for the answers is found before the first call.
pub fn play_board<T: Tape + Drop, D: Panel>(
    tape: T,
    panels: &mut [D],
    calls: &[BoardCall],
    heap: Global,
) -> Result<Vec<Result<BoardReply, TurnFault>>, AllocError>
    ensures sat { IfOk result (λ v. (b : ℕ → ℕ → Bool) → Knows b (lots_by (verdict (T.Tape.bits tape))) (T.Tape.bits tape) → Sat b (verdict (T.Tape.bits tape)) (seated D.Panel.shows panels.old calls.now v.items panels.new)) }
    ensures leads { IfOk result (λ v. (b : ℕ → ℕ → Bool) → Strict b → (n : ℕ) → n ≤ 4000 → sheet b n ≡ T.Tape.bits tape → Sat b (Ok n) (seated D.Panel.shows panels.old calls.now v.items panels.new)) }
    ensures all { IfOk result (λ v. length v.items ≡ length calls.now) }
    ensures unplayed { OnErr result (panels.new ≡ panels.old) }
{
    let answers = Vec::with_capacity(heap, calls.len())?;
    Ok(play_into(tape, panels, calls, answers))
}

// Beside `play_board`, since that may plead want of memory, and this never does.
/// The same, with the answers noted in a list that has room for them; without that nothing is played, and want of memory is never told.
pub fn play_board_noted<T: Tape + Drop, D: Panel>(
    tape: T,
    panels: &mut [D],
    calls: &[BoardCall],
    room: Vec<Result<BoardReply, TurnFault>>,
) -> Result<Vec<Result<BoardReply, TurnFault>>, NoRoom>
    ensures reply { is_ok result ≡ roomy (vec_len room) (vec_capacity room) (length calls.now) }
    ensures sat { IfOk result (λ v. (b : ℕ → ℕ → Bool) → Knows b (lots_by (verdict (T.Tape.bits tape))) (T.Tape.bits tape) → Sat b (verdict (T.Tape.bits tape)) (seated D.Panel.shows panels.old calls.now v.items panels.new)) }
    ensures leads { IfOk result (λ v. (b : ℕ → ℕ → Bool) → Strict b → (n : ℕ) → n ≤ 4000 → sheet b n ≡ T.Tape.bits tape → Sat b (Ok n) (seated D.Panel.shows panels.old calls.now v.items panels.new)) }
    ensures all { IfOk result (λ v. length v.items ≡ length calls.now) }
    ensures unplayed { OnErr result (panels.new ≡ panels.old) }
{
    if !has_room(&room, calls.len()) {
        return Err(NoRoom);
    }
    Ok(play_into(tape, panels, calls, room))
}
