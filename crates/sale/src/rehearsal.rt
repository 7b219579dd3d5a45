//! A whole sale, played from beginning to end.

ghost use Rattle.std.specs.Prelude.{◌≡◌, true, map, length, drop, is_ok, IfOk, OnErr};
ghost use Rattle.ledger.specs.Plays.{played};
ghost use Rattle.board.specs.Sitting.{seated};
ghost use Rattle.sale.specs.Promise.{returned, roomy_for, Rebuilt, Promise};
ghost use Rattle.sale.specs.Sides.{SameBook, SameBoard, SameLists};

use answers::{NoRoom, has_room};
use bits::punch::Punch;
use bits::tape::Tape;
use board::board::Board;
use board::call::{BoardCall, BoardReply, TurnFault};
use board::fault::BoardFault;
use keys::key::Key;
use ledger::call::{BookCall, CallFault};
use panel::Panel;
use std::alloc::{AllocError, Global};

/// Rebuilds prices on a new board over the tape, which takes it first.
pub fn rebuild_from<T: Tape + Drop>(
    tape: T,
    prices: &mut [u32],
    work: &mut [u32],
) -> Result<u32, BoardFault>
    ensures { Rebuilt (T.Tape.bits tape) (returned prices.old work.old prices.new work.new result) }
{
    let mut board = Board::new(tape);
    board.take()?;
    board.rebuild(prices, work)
}

/// The answers of a whole sale.
#[derive(Drop)]
pub struct Sale {
    /// Of the first book.
    pub first: Vec<Result<u32, CallFault>>,
    /// Of the second book.
    pub second: Vec<Result<u32, CallFault>>,
    /// Of the board.
    pub board: Vec<Result<BoardReply, TurnFault>>,
    /// How many prices were rebuilt.
    pub rebuilt: Result<u32, BoardFault>,
}

/// Lists for the answers of a whole sale.
#[derive(Drop)]
pub struct Lists {
    pub first: Vec<Result<u32, CallFault>>,
    pub second: Vec<Result<u32, CallFault>>,
    pub board: Vec<Result<BoardReply, TurnFault>>,
}

impl Lists {
    /// Empty lists with room for the answers to so many calls on each book and on the board.
    pub fn with_room(
        first: usize,
        second: usize,
        board: usize,
        heap: Global,
    ) -> Result<Lists, AllocError>
        ensures { IfOk result (λ l. roomy_for l first second board ≡ true) }
    {
        Ok(Lists {
            first: Vec::with_capacity(heap, first)?,
            second: Vec::with_capacity(heap, second)?,
            board: Vec::with_capacity(heap, board)?,
        })
    }

    /// Whether they are empty, and have room for the answers to so many calls.
    pub fn have_room(&self, first: usize, second: usize, board: usize) -> bool
        ensures { result ≡ roomy_for self.now first second board }
    {
        has_room(&self.first, first)
            && has_room(&self.second, second)
            && has_room(&self.board, board)
    }
}

/// Plays a list of calls on a new book, another on a second new book, maybe of another kind of key, and a list of takes and pages on a new board over
/// the tape; then rebuilds prices from the tape. The answers go into lists that have room for them; without that nothing is played.
pub fn rehearse<K: Key + Copy, L: Key + Copy, P: Punch, Q: Punch, T: Tape + Copy, D: Panel>(
    list: &mut [K],
    punches: &mut [P],
    calls: &[BookCall],
    other_list: &mut [L],
    other_punches: &mut [Q],
    other_calls: &[BookCall],
    work: &mut [u32],
    tape: T,
    panels: &mut [D],
    board_calls: &[BoardCall],
    prices: &mut [u32],
    numbers: &mut [u32],
    lists: Lists,
) -> Result<Sale, NoRoom>
    ensures reply { is_ok result ≡ roomy_for lists (length calls.now) (length other_calls.now) (length board_calls.now) }
    ensures promise { IfOk result (λ v. Promise
        (played K.Key.made K.Key.at_least P.Punch.room P.Punch.written (length work.old) list.old punches.old calls.now v.first.items list.new punches.new)
        (played L.Key.made L.Key.at_least Q.Punch.room Q.Punch.written (length work.old) other_list.old other_punches.old other_calls.now v.second.items other_list.new other_punches.new)
        (T.Tape.bits tape)
        (seated D.Panel.shows panels.old board_calls.now v.board.items panels.new)
        (returned prices.old numbers.old prices.new numbers.new v.rebuilt)) }
    ensures rooms { (map P.Punch.room punches.new ≡ map P.Punch.room punches.old) × (map Q.Punch.room other_punches.new ≡ map Q.Punch.room other_punches.old) }
    ensures homes { (map P.Punch.home punches.new ≡ map P.Punch.home punches.old) × (map Q.Punch.home other_punches.new ≡ map Q.Punch.home other_punches.old) }
    ensures rest { drop 16004 work.new ≡ drop 16004 work.old }
    ensures unplayed { OnErr result ((list.new ≡ list.old) × (punches.new ≡ punches.old) × (other_list.new ≡ other_list.old) × (other_punches.new ≡ other_punches.old) × (work.new ≡ work.old) × (panels.new ≡ panels.old) × (prices.new ≡ prices.old) × (numbers.new ≡ numbers.old)) }
{
    if !lists.have_room(calls.len(), other_calls.len(), board_calls.len()) {
        return Err(NoRoom);
    }
    let first = ledger::play::play_into(list, punches, work, calls, lists.first);
    let second = ledger::play::play_into(
        other_list,
        other_punches,
        work,
        other_calls,
        lists.second,
    );
    let board = board::play::play_into(tape, panels, board_calls, lists.board);
    let rebuilt = rebuild_from(tape, prices, numbers);
    Ok(Sale {
        first,
        second,
        board,
        rebuilt,
    })
}

/// A new book to be: the list that it is lent, the punches beside it, and the calls on it.
#[derive(Drop)]
pub struct BookSide<'a, K, P> {
    pub list: &'a mut [K],
    pub punches: &'a mut [P],
    pub calls: &'a [BookCall],
}

/// A new board to be: the tape that it stands over, the panels beside it, and the calls on it.
#[derive(Drop)]
pub struct BoardSide<'a, T, D> {
    pub tape: T,
    pub panels: &'a mut [D],
    pub calls: &'a [BoardCall],
}

/// Where prices are rebuilt, and the working numbers for it.
#[derive(Drop)]
pub struct RebuildSide<'a> {
    pub prices: &'a mut [u32],
    pub work: &'a mut [u32],
}

/// The same, with one value for all that each book, the board and the rebuild are lent.
pub fn rehearse_sides<K: Key + Copy, L: Key + Copy, P: Punch, Q: Punch, T: Tape + Copy, D: Panel>(
    first: &mut BookSide<'_, K, P>,
    second: &mut BookSide<'_, L, Q>,
    work: &mut [u32],
    board: &mut BoardSide<'_, T, D>,
    rebuilt: &mut RebuildSide<'_>,
    lists: Lists,
) -> Result<Sale, NoRoom>
    ensures reply { is_ok result ≡ roomy_for lists (length first.old.calls.now) (length second.old.calls.now) (length board.old.calls.now) }
    ensures promise { IfOk result (λ v. Promise
        (played K.Key.made K.Key.at_least P.Punch.room P.Punch.written (length work.old) first.old.list.now first.old.punches.now first.old.calls.now v.first.items first.new.list.now first.new.punches.now)
        (played L.Key.made L.Key.at_least Q.Punch.room Q.Punch.written (length work.old) second.old.list.now second.old.punches.now second.old.calls.now v.second.items second.new.list.now second.new.punches.now)
        (T.Tape.bits board.old.tape)
        (seated D.Panel.shows board.old.panels.now board.old.calls.now v.board.items board.new.panels.now)
        (returned rebuilt.old.prices.now rebuilt.old.work.now rebuilt.new.prices.now rebuilt.new.work.now v.rebuilt)) }
    ensures first { SameBook P.Punch.room P.Punch.home first.old first.new }
    ensures second { SameBook Q.Punch.room Q.Punch.home second.old second.new }
    ensures board { SameBoard board.old board.new }
    ensures rebuilt { SameLists rebuilt.old rebuilt.new }
    ensures rest { drop 16004 work.new ≡ drop 16004 work.old }
    ensures unplayed { OnErr result ((first.new ≡ first.old) × (second.new ≡ second.old) × (work.new ≡ work.old) × (board.new ≡ board.old) × (rebuilt.new ≡ rebuilt.old)) }
{
    rehearse(
        first.list,
        first.punches,
        first.calls,
        second.list,
        second.punches,
        second.calls,
        work,
        board.tape,
        board.panels,
        board.calls,
        rebuilt.prices,
        rebuilt.work,
        lists,
    )
}
