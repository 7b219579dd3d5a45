//! Who leads a range of lots, and what a sheet says of it: definitions and theorems.
//!
//! Each theorem is the contract of a function here, which has nothing else to do.
#![tactic(auto)]

ghost use Rattle.leaders.specs.Theorems.{LeadersAreFound, RIsChildren, EqualSheetsExactlyWhenEqualLeaders};
ghost use Rattle.leaders.specs.Samples.{Samples};
ghost use Rattle.leaders.specs.Theorems.{NoSheetBeginsAnother, AcceptedExactlyWhenCast, RebuiltPricesCastTheSheet, SecondByTheSpine, SheetLengths, JudgedBySpines};

/// Going through a range finds its best and its second, and there are no others.
pub fn leaders_are_found() -> u8
    ensures { LeadersAreFound }
{
    0
}

/// The lots of R(k) are the children of k in the heap.
pub fn r_is_children() -> u8
    ensures { RIsChildren }
{
    0
}

/// Two sheets are equal exactly when the lots are equally many and every range has the same best and second.
pub fn equal_sheets_exactly_when_equal_leaders() -> u8
    ensures { EqualSheetsExactlyWhenEqualLeaders }
{
    0
}

/// No sheet is the beginning of another sheet.
pub fn no_sheet_begins_another() -> u8
    ensures { NoSheetBeginsAnother }
{
    0
}

/// The verdict accepts bits exactly when some list of at most 4,000 prices has that sheet.
pub fn accepted_exactly_when_cast() -> u8
    ensures { AcceptedExactlyWhenCast }
{
    0
}

/// The verdict's refusals in the words of the sheet: bits that balance are the brackets of some order and bits after them, and these are judged by that order's own lists L(k) and R(k).
pub fn words_are_judged_by_the_spines() -> u8
    ensures { JudgedBySpines }
{
    0
}

/// The prices rebuilt from a sheet have that sheet, and depend on the sheet alone.
pub fn rebuilt_prices_cast_the_sheet() -> u8
    ensures { RebuiltPricesCastTheSheet }
{
    0
}

/// The second of a range by the rule that boards use: which symbol of the best lot's spine stands first.
pub fn second_by_the_spine() -> u8
    ensures { SecondByTheSpine }
{
    0
}

/// How many bits the parts of a sheet have, and how many of the spine string stand before a lot's spine.
pub fn sheet_lengths() -> u8
    ensures { SheetLengths }
{
    0
}

/// The small books of the documents have the sheets, rebuilt prices and refusals that are written there.
pub fn samples_hold() -> u8
    ensures { Samples }
{
    0
}
