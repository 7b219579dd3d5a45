//! Why a book declines a call.

ghost use Rattle.std.specs.Prelude.{◌≡◌};
ghost use Rattle.book.specs.Faults.{told, carries};

use casting::CastFault;

/// Why a book declines a call.
#[derive(Clone, Copy, PartialEq, Eq, Debug)]
pub enum BookFault {
    /// The kind refuses the fields of a key.
    BadFields,
    /// The book has 4,000 lots, or as many as its list has places.
    BookFull,
    /// There is no lot of that number.
    NoSuchLot,
    /// The lots are not cast.
    Cast(CastFault),
}

impl From<CastFault> for BookFault {
    ghost from_gives = { carries };

    fn from(fault: CastFault) -> BookFault {
        BookFault::Cast(fault)
    }
}

impl BookFault {
    /// The number of the refusal: reply lines tell it by that.
    pub fn number(&self) -> u32
        ensures { result ≡ (told self.now).number }
    {
        match self {
            BookFault::BadFields => 2,
            BookFault::BookFull => 3,
            BookFault::NoSuchLot => 4,
            BookFault::Cast(fault) => fault.number(),
        }
    }
}
