//! Calls on a book as values, so that a list of them can be performed.

ghost use Rattle.std.specs.Prelude.{◌≡◌};
ghost use Rattle.ledger.specs.Ledger.{told, carries_book};

use book::fault::BookFault;
use book::fields::Fields;

/// A call on a book.
#[derive(Clone, Copy)]
pub enum BookCall {
    Add(Fields),
    Strike(u32),
    NewKey(u32, Fields),
    /// Into which punch, from 0, and with how many working numbers.
    Cast(usize, usize),
}

/// Why a call in a list is declined. The board's list has a type of its own: one for both could not say what a call names that is not there.
#[derive(Clone, Copy, PartialEq, Eq, Debug)]
pub enum CallFault {
    Book(BookFault),
    /// A cast names no punch.
    NoPunch,
}

impl From<BookFault> for CallFault {
    ghost from_gives = { carries_book };

    fn from(fault: BookFault) -> CallFault {
        CallFault::Book(fault)
    }
}

impl CallFault {
    /// The number of the refusal, one for each case; 0 where a cast names no punch.
    pub fn number(&self) -> u32
        ensures { result ≡ (told self.now).number }
    {
        match self {
            CallFault::Book(fault) => fault.number(),
            CallFault::NoPunch => 0,
        }
    }
}
