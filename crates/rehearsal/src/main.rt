//! Plays one sale from beginning to end, and tells it in sentences.
#![tactic(auto)]

use anyhow::anyhow;
use bits::punch::{LetteredPunch, Punch};
use bits::tape::{LetteredTape, Tape};
use board::call::{BoardCall, BoardReply};
use book::fields::Fields;
use keys::price::Price;
use ledger::call::{BookCall, CallFault};
use ledger::play::play_book_noted;
use panel::Panel;
use panel::digit_panel::DigitPanel;
use panel::line_panel::LinePanel;
use sale::rehearsal::{BoardSide, BookSide, Lists, RebuildSide, Sale, rehearse_sides};
use std::alloc::{AllocError, Global};
use std::io::Write;
use telling::{draw_digits, draw_line, tell_refusal};

/// The prices of the sale.
const PRICES: [u32; 6] = [5, 3, 8, 6, 7, 2];

/// Other prices with the same best and second in every range.
const OTHERS: [u32; 6] = [40, 12, 95, 61, 88, 11];

/// Prices that differ in one leader: of the lots 1 to 4 the second is lot 1, not lot 4.
const DIFFERENT: [u32; 6] = [13, 6, 16, 12, 14, 4];

/// The sheet with one letter of a spine turned.
const DAMAGED: &[u8] = b"((()())(())())((()";

/// The pages of the sale: a panel, the first lot and how many.
const PAGES: [(usize, u32, u32); 4] = [(0, 1, 6), (1, 4, 3), (2, 6, 9), (3, 7, 1)];

/// Working numbers for six lots: 4(6 + 1).
const NUMBERS: usize = 28;

/// Room for the letters of a sheet of six lots, and more.
const LETTERS: usize = 32;

/// What a book is to hold, and where its sheet is written.
#[derive(Drop)]
struct Priced<'a> {
    prices: &'a [u32],
    sheet: &'a mut [u8],
}

/// An add for each price, and a cast.
fn calls_of(heap: Global, prices: &[u32]) -> Result<Vec<BookCall>, AllocError> {
    let mut calls = Vec::new(heap);
    for price in prices {
        calls.push(BookCall::Add(Fields::new(&[*price])))?;
    }
    calls.push(BookCall::Cast(0, NUMBERS))?;
    Ok(calls)
}

/// A take, and then the pages of the sale.
fn turns(heap: Global) -> Result<Vec<BoardCall>, AllocError> {
    let mut calls = Vec::new(heap);
    calls.push(BoardCall::Take)?;
    for (panel, start, size) in PAGES {
        calls.push(BoardCall::Page(panel, start, size))?;
    }
    Ok(calls)
}

/// Plays a sale of two books of prices, with a board over `tape`; rebuilds prices from it.
fn play<D: Panel>(
    heap: Global,
    first: Priced<'_>,
    second: Priced<'_>,
    tape: &[u8],
    panels: &mut [D],
    prices: &mut [u32],
) -> anyhow::Result<Sale> {
    let calls = calls_of(heap, first.prices)?;
    let other_calls = calls_of(heap, second.prices)?;
    let board_calls = turns(heap)?;
    let room = Lists::with_room(calls.len(), other_calls.len(), board_calls.len(), heap)?;
    let mut one = BookSide {
        list: &mut [Price { cents: 0 }; 6],
        punches: &mut [LetteredPunch::new(first.sheet)],
        calls: calls.as_slice(),
    };
    let mut two = BookSide {
        list: &mut [Price { cents: 0 }; 6],
        punches: &mut [LetteredPunch::new(second.sheet)],
        calls: other_calls.as_slice(),
    };
    let mut hall = BoardSide {
        tape: LetteredTape { text: tape },
        panels,
        calls: board_calls.as_slice(),
    };
    let mut out = RebuildSide {
        prices,
        work: &mut [0; NUMBERS],
    };
    let work = &mut [0; NUMBERS];
    let sale = rehearse_sides(&mut one, &mut two, work, &mut hall, &mut out, room);
    sale.map_err(|_| anyhow!("there is no room for the answers"))
}

/// The letters that the last call, a cast, has written.
fn sheet_of<'a>(letters: &'a [u8], answers: &[Result<u32, CallFault>]) -> &'a [u8] {
    let bits = match answers.last() {
        Some(Ok(bits)) => *bits as usize,
        _ => 0,
    };
    let end = bits.min(letters.len());
    &letters[0..end]
}

/// Tells prices, parted by commas.
fn tell_prices(rt: &HostRuntime, prices: &[u32]) -> anyhow::Result<()> {
    for (i, price) in prices.iter().enumerate() {
        if i > 0 {
            print!(rt; ", ")?;
        }
        print!(rt; "{price}")?;
    }
    Ok(())
}

/// Tells the prices of a book and the sheet that it casts.
fn tell_book(rt: &HostRuntime, which: &str, prices: &[u32], sheet: &[u8]) -> anyhow::Result<()> {
    print!(rt; "{which} has lots with the prices ")?;
    tell_prices(rt, prices)?;
    let bits = sheet.len();
    print!(rt; ". It casts a sheet of {bits} bits: ")?;
    rt.stdout().write_all(sheet)?;
    println!(rt; "")?;
    Ok(())
}

/// Tells whether two sheets are equal, and what that says.
fn compare(rt: &HostRuntime, one: &[u8], two: &[u8]) -> anyhow::Result<()> {
    if one == two {
        println!(rt; "That is the first sheet: every range has the same best and second.")?;
    } else {
        println!(rt; "That is another sheet: some range has another best or second.")?;
    }
    Ok(())
}

/// Tells how the board answered: how many lots it took, and which calls it declined.
fn tell_board(rt: &HostRuntime, sale: &Sale) -> anyhow::Result<()> {
    for answer in &sale.board {
        match answer {
            Ok(BoardReply::Taken(lots)) => println!(rt; "It takes {lots} lots.")?,
            Ok(BoardReply::Paged) => {}
            Err(fault) => {
                let number = fault.number();
                println!(rt; "It declines a call with {number}.")?;
            }
        }
    }
    Ok(())
}

/// Tells what was rebuilt.
fn tell_rebuilt(rt: &HostRuntime, sale: &Sale, prices: &[u32]) -> anyhow::Result<()> {
    match sale.rebuilt {
        Ok(lots) => {
            print!(rt; "From the sheet alone it rebuilds {lots} prices: ")?;
            tell_prices(rt, prices)?;
            println!(rt; "")?;
        }
        Err(fault) => {
            let number = fault.number();
            print!(rt; "It rebuilds nothing, and declines with {number}. ")?;
            tell_refusal(rt, fault)?;
        }
    }
    Ok(())
}

/// Before the sale: casts the book, and gives how many letters its sheet has.
fn cast_book(rt: &HostRuntime, sheet: &mut [u8]) -> anyhow::Result<usize> {
    let calls = calls_of(rt.alloc(), &PRICES)?;
    let mut list = [Price { cents: 0 }; 6];
    let mut work = [0; NUMBERS];
    let room = Vec::with_capacity(rt.alloc(), calls.len())?;
    let played = {
        let mut punches = [LetteredPunch::new(sheet)];
        play_book_noted(&mut list, &mut punches, &mut work, calls.as_slice(), room)
    };
    let Ok(answers) = played else {
        return Err(anyhow!("there is no room for the answers"));
    };
    let letters = sheet_of(sheet, answers.as_slice());
    tell_book(rt, "The book of the sale", &PRICES, letters)?;
    Ok(letters.len())
}

/// The sale: a second book with the same leaders, and pages on line panels. Writes the rebuilt prices.
fn sale_on_lines(rt: &HostRuntime, sheet: &[u8], prices: &mut [u32]) -> anyhow::Result<()> {
    let mut first_sheet = [b' '; LETTERS];
    let mut second_sheet = [b' '; LETTERS];
    let mut panels = [
        LinePanel::new(),
        LinePanel::new(),
        LinePanel::new(),
        LinePanel::new(),
    ];
    let first = Priced {
        prices: &PRICES,
        sheet: &mut first_sheet,
    };
    let second = Priced {
        prices: &OTHERS,
        sheet: &mut second_sheet,
    };
    let sale = play(rt.alloc(), first, second, sheet, &mut panels, prices)?;
    let other = sheet_of(&second_sheet, sale.second.as_slice());
    tell_book(rt, "A second book", &OTHERS, other)?;
    compare(rt, sheet, other)?;
    println!(rt; "A board in the hall stands over a tape of the sheet.")?;
    tell_board(rt, &sale)?;
    for ((_, start, size), panel) in PAGES.iter().zip(panels.iter()) {
        print!(rt; "The page from lot {start} of size {size} shows ")?;
        draw_line(rt, panel)?;
    }
    tell_rebuilt(rt, &sale, prices)
}

/// The same pages on digit panels; a book that differs in one leader, and one of the rebuilt prices.
fn sale_on_digits(rt: &HostRuntime, sheet: &[u8], prices: &[u32]) -> anyhow::Result<()> {
    let mut first_sheet = [b' '; LETTERS];
    let mut second_sheet = [b' '; LETTERS];
    let mut again = [0; 6];
    let mut panels = [
        DigitPanel::new(),
        DigitPanel::new(),
        DigitPanel::new(),
        DigitPanel::new(),
    ];
    let first = Priced {
        prices: &DIFFERENT,
        sheet: &mut first_sheet,
    };
    let second = Priced {
        prices: prices,
        sheet: &mut second_sheet,
    };
    let sale = play(rt.alloc(), first, second, sheet, &mut panels, &mut again)?;
    let different = sheet_of(&first_sheet, sale.first.as_slice());
    let rebuilt = sheet_of(&second_sheet, sale.second.as_slice());
    tell_book(
        rt,
        "A book that differs in one leader",
        &DIFFERENT,
        different,
    )?;
    compare(rt, sheet, different)?;
    tell_book(rt, "A book of the rebuilt prices", prices, rebuilt)?;
    compare(rt, sheet, rebuilt)?;
    println!(rt; "The first page on a panel of digits, and the last, which is refused:")?;
    draw_digits(rt, &panels[0])?;
    draw_digits(rt, &panels[3])
}

/// A board over a damaged tape: it is refused, and so is every page.
fn damaged_tape(rt: &HostRuntime) -> anyhow::Result<()> {
    let mut first_sheet = [b' '; LETTERS];
    let mut second_sheet = [b' '; LETTERS];
    let mut prices = [0; 6];
    let mut panels = [
        LinePanel::new(),
        LinePanel::new(),
        LinePanel::new(),
        LinePanel::new(),
    ];
    let first = Priced {
        prices: &[],
        sheet: &mut first_sheet,
    };
    let second = Priced {
        prices: &[],
        sheet: &mut second_sheet,
    };
    let sale = play(rt.alloc(), first, second, DAMAGED, &mut panels, &mut prices)?;
    print!(rt; "Another board stands over a damaged tape, ")?;
    rt.stdout().write_all(DAMAGED)?;
    println!(rt; ".")?;
    tell_board(rt, &sale)?;
    tell_rebuilt(rt, &sale, &prices)?;
    print!(rt; "The first panel is blank: ")?;
    draw_line(rt, &panels[0])
}

fn main(rt: HostRuntime) -> anyhow::Result<()> {
    let mut letters = [b' '; LETTERS];
    let mut prices = [0; 6];
    let bits = cast_book(&rt, &mut letters)?.min(LETTERS);
    let sheet = &letters[0..bits];
    sale_on_lines(&rt, sheet, &mut prices)?;
    sale_on_digits(&rt, sheet, &prices)?;
    damaged_tape(&rt)
}
