//! Calls on a board as values, so that a list of them can be performed.

ghost use Rattle.std.specs.Prelude.{◌≡◌};
ghost use Rattle.board.specs.Showing.{told, carries_board};

use crate::fault::BoardFault;

/// A call on a board.
#[derive(Clone, Copy, PartialEq, Eq, Debug)]
pub enum BoardCall {
    Take,
    /// On which panel, from 0; from which lot on; how many lots.
    Page(usize, u32, u32),
}

/// What a call that is not declined answers.
#[derive(Clone, Copy, PartialEq, Eq, Debug)]
pub enum BoardReply {
    /// The sheet has so many lots.
    Taken(u32),
    /// The page is shown.
    Paged,
}

/// Why a call in a list is declined. The book's list has a type of its own: one for both could not say what a call names that is not there.
#[derive(Clone, Copy, PartialEq, Eq, Debug)]
pub enum TurnFault {
    Board(BoardFault),
    /// A page names no panel.
    NoPanel,
}

impl From<BoardFault> for TurnFault {
    ghost from_gives = { carries_board };

    fn from(fault: BoardFault) -> TurnFault {
        TurnFault::Board(fault)
    }
}

impl TurnFault {
    /// The number of the refusal, one for each case; 0 where a page names no panel.
    pub fn number(&self) -> u32
        ensures { result ≡ (told self.now).number }
    {
        match self {
            TurnFault::Board(fault) => fault.number(),
            TurnFault::NoPanel => 0,
        }
    }
}
