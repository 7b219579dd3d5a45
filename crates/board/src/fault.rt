//! Why a board declines a call.

ghost use Rattle.std.specs.Prelude.{◌≡◌, Some};
ghost use Rattle.board.specs.Faults.{told, sentence, carries, carries_few};

use reading::check::SheetFault;
use rebuilding::FewNumbers;
use std::fmt;

/// Why a board declines a call.
#[derive(Clone, Copy, PartialEq, Eq, Debug)]
pub enum BoardFault {
    /// The tape is no sheet.
    Sheet(SheetFault),
    /// No sheet is taken.
    NotTaken,
    /// The page begins at no lot, or has none.
    NoPage,
    /// There are too few prices or working numbers to rebuild with.
    NoRoom,
}

impl From<SheetFault> for BoardFault {
    ghost from_gives = { carries };

    fn from(fault: SheetFault) -> BoardFault {
        BoardFault::Sheet(fault)
    }
}

impl From<FewNumbers> for BoardFault {
    ghost from_gives = { carries_few };

    fn from(_fault: FewNumbers) -> BoardFault {
        BoardFault::NoRoom
    }
}

impl fmt::Display for BoardFault {
    ghost output = { λ fault. Some (sentence fault) };

    fn fmt<W: fmt::Write>(&self, f: &mut fmt::Formatter<W>) -> fmt::Result {
        match self {
            BoardFault::Sheet(fault) => write!(f, "{fault}"),
            BoardFault::NotTaken => f.write_str("it is not shown, since no sheet is taken."),
            BoardFault::NoPage => f.write_str(
                "it is not shown, since it begins at no lot of the sheet, or has size 0.",
            ),
            BoardFault::NoRoom => {
                f.write_str("there are too few prices or working numbers to rebuild with.")
            }
        }
    }
}

impl BoardFault {
    /// The number of the refusal: reply lines and C tell it by that.
    pub fn number(&self) -> u32
        ensures { result ≡ (told self.now).number }
    {
        match self {
            BoardFault::Sheet(fault) => fault.number(),
            BoardFault::NotTaken => 11,
            BoardFault::NoPage => 12,
            BoardFault::NoRoom => 13,
        }
    }
}
