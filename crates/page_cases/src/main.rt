//! Tests of take and page. Each line of standard input is a case, and its answer is printed on a line.
#![tactic(auto)]

use anyhow::anyhow;
use bits::tape::LetteredTape;
use board::board::Board;
use board::fault::BoardFault;
use packed::tape::PackedTape;
use panel::Panel;
use panel::digit_panel::DigitPanel;
use panel::line_panel::LinePanel;
use reading::check::SheetFault;
use std::io::Write;

/// The current sheet in letters, and the panels, which keep what they show from one page to the next.
#[derive(Drop)]
struct Stand {
    sheet: String,
    line: LinePanel,
    digits: DigitPanel,
}

/// A board over the letters, which has taken nothing yet.
fn board_over(letters: &str) -> Board<LetteredTape<'_>> {
    Board::new(LetteredTape {
        text: letters.as_bytes(),
    })
}

/// A page of a board that takes the letters first.
fn page_of<P: Panel>(
    letters: &str,
    panel: &mut P,
    start: u32,
    size: u32,
) -> Result<(), BoardFault> {
    let mut board = board_over(letters);
    let _ = board.take();
    board.page(panel, start, size)
}

/// Prints the answer to a page.
fn tell_answer(rt: &HostRuntime, answer: Result<(), BoardFault>) -> anyhow::Result<()> {
    match answer {
        Ok(()) => println!(rt; "ok")?,
        Err(fault) => {
            let number = fault.number();
            println!(rt; "refused,{number}")?;
        }
    }
    Ok(())
}

/// `take,LETTERS`: prints the lots of the sheet, or the refusal with its lot if it names one.
fn take_case(rt: &HostRuntime, letters: &str) -> anyhow::Result<()> {
    let mut board = board_over(letters);
    match board.take() {
        Ok(lots) => println!(rt; "lots,{lots}")?,
        Err(fault) => {
            let number = fault.number();
            match fault {
                BoardFault::Sheet(SheetFault::BadWord(lot)) => println!(rt;
                    "refused,{number},{lot}"
                )?,
                _ => println!(rt; "refused,{number}")?,
            }
        }
    }
    Ok(())
}

/// One number for the answer to a take: the lots, or 16 times the refusal's number with its lot added.
fn code_of(answer: Result<u32, BoardFault>) -> u32 {
    match answer {
        Ok(lots) => lots,
        Err(BoardFault::Sheet(SheetFault::BadWord(lot))) => lot.wrapping_add(160),
        Err(fault) => fault.number().wrapping_mul(16),
    }
}

/// `all,BITS`: takes every sheet of so many bits, 16 at most, and prints how many are accepted, and the 32-bit FNV-1a digest of all answers.
fn all_case(rt: &HostRuntime, count: &str) -> anyhow::Result<()> {
    let bits = count.parse::<u32>()?.min(16);
    let mut accepted = 0u32;
    // A digest of three lines, as other test programs have: a crate for them would be longer.
    let mut sum = 0x811C_9DC5u32;
    for number in 0..(1u32 << bits) {
        let bytes = (number << (16 - bits)).to_be_bytes();
        let mut board = Board::new(PackedTape {
            bytes: &bytes[2..4],
            count: bits as usize,
        });
        let code = code_of(board.take());
        accepted = accepted.wrapping_add(u32::from(code < 16));
        sum = (sum ^ code).wrapping_mul(0x0100_0193);
    }
    println!(rt; "{accepted} {sum:08x}")?;
    Ok(())
}

/// `untaken,LETTERS`: prints the answer to a page of a board that has not taken the letters.
fn untaken_case(rt: &HostRuntime, letters: &str) -> anyhow::Result<()> {
    let board = board_over(letters);
    let mut panel = LinePanel::new();
    tell_answer(rt, board.page(&mut panel, 1, 1))
}

/// Prints `BEST:SECOND` for each page from one lot on, with 0 for none.
fn tell_pages(
    rt: &HostRuntime,
    board: &Board<LetteredTape<'_>>,
    start: u32,
    most: u32,
) -> anyhow::Result<()> {
    let mut panel = LinePanel::new();
    for size in 1..=most {
        if start > 1 || size > 1 {
            print!(rt; " ")?;
        }
        let _ = board.page(&mut panel, start, size);
        let shown = panel.shown();
        let best = shown.best().unwrap_or(0);
        let second = shown.second().unwrap_or(0);
        print!(rt; "{best}:{second}")?;
    }
    Ok(())
}

/// `pages,LETTERS`: prints every page of the sheet on one line, by start and then by size.
fn pages_case(rt: &HostRuntime, letters: &str) -> anyhow::Result<()> {
    let mut board = board_over(letters);
    let lots = board.take().unwrap_or(0);
    for start in 1..=lots {
        tell_pages(rt, &board, start, lots - start + 1)?;
    }
    println!(rt; "")?;
    Ok(())
}

// `show_page` has one that tells a person what is wrong, and no crate for both.
/// The start and the size of a page, parted by a comma.
fn range_of(text: &str) -> anyhow::Result<(u32, u32)> {
    let Some((start, size)) = text.split_once(',') else {
        return Err(anyhow!("a start and a size are wanted"));
    };
    Ok((start.parse::<u32>()?, size.parse::<u32>()?))
}

/// `page,START,SIZE`: prints the bytes of the line panel after that page of the current sheet, and the answer.
fn line_case(rt: &HostRuntime, stand: &mut Stand, rest: &str) -> anyhow::Result<()> {
    let (start, size) = range_of(rest)?;
    let answer = page_of(stand.sheet.as_str(), &mut stand.line, start, size);
    print!(rt; "|")?;
    rt.stdout().write_all(stand.line.bytes())?;
    print!(rt; "|")?;
    tell_answer(rt, answer)
}

/// `digits,START,SIZE`: prints the segments of the digit panel after that page of the current sheet, and the answer.
fn digits_case(rt: &HostRuntime, stand: &mut Stand, rest: &str) -> anyhow::Result<()> {
    let (start, size) = range_of(rest)?;
    let answer = page_of(stand.sheet.as_str(), &mut stand.digits, start, size);
    for lit in stand.digits.digits() {
        print!(rt; "{lit:02X} ")?;
    }
    tell_answer(rt, answer)
}

/// Answers one line: a match on its first word is plainer than a table of functions. `sheet,LETTERS` makes the letters the current sheet, and is answered like `take,LETTERS`.
fn answer(rt: &HostRuntime, stand: &mut Stand, line: &str) -> anyhow::Result<()> {
    let (word, rest) = line.split_once(',').unwrap_or((line, ""));
    match word {
        "take" => take_case(rt, rest),
        "all" => all_case(rt, rest),
        "untaken" => untaken_case(rt, rest),
        "pages" => pages_case(rt, rest),
        "sheet" => {
            stand.sheet = String::from_str(rt.alloc(), rest)?;
            take_case(rt, rest)
        }
        "page" => line_case(rt, stand, rest),
        "digits" => digits_case(rt, stand, rest),
        _ => Err(anyhow!("no such case")),
    }
}

fn main(rt: HostRuntime) -> anyhow::Result<()> {
    let mut stand = Stand {
        sheet: String::new(rt.alloc()),
        line: LinePanel::new(),
        digits: DigitPanel::new(),
    };
    for line in rt.lines(rt.alloc()) {
        let text = line?;
        answer(&rt, &mut stand, text.as_str())?;
    }
    Ok(())
}
