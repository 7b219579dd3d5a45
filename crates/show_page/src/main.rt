//! Reads a lettered sheet and then pages, `START,SIZE` a line, from standard input, and shows each page on both panels.
#![tactic(auto)]

use anyhow::anyhow;
use bits::tape::LetteredTape;
use board::board::Board;
use panel::Panel;
use panel::digit_panel::DigitPanel;
use panel::line_panel::LinePanel;
use panel::shown::Shown;
use telling::{draw_digits, draw_line, tell_refusal};

/// The start and the size of a page, if the line has both.
fn range_of(line: &str) -> Option<(u32, u32)> {
    let (start, size) = line.split_once(',')?;
    match (start.parse::<u32>(), size.parse::<u32>()) {
        (Ok(from), Ok(lots)) => Some((from, lots)),
        _ => None,
    }
}

/// Shows a page on both panels, and tells it.
fn show(
    rt: &HostRuntime,
    board: &Board<LetteredTape<'_>>,
    start: u32,
    size: u32,
) -> anyhow::Result<()> {
    let mut line = LinePanel::new();
    let mut digits = DigitPanel::new();
    let _ = board.page(&mut digits, start, size);
    print!(rt; "The page from lot {start} of size {size}: ")?;
    if let Err(fault) = board.page(&mut line, start, size) {
        return tell_refusal(rt, fault);
    }
    match line.shown() {
        Shown::Blank => println!(rt; "no lot is the best.")?,
        Shown::Best(best) => println!(rt; "lot {best} is the best, and there is no second.")?,
        Shown::Pair(best, second) => println!(rt;
            "lot {best} is the best, and lot {second} the second."
        )?,
    }
    draw_line(rt, &line)?;
    draw_digits(rt, &digits)
}

/// Takes the sheet, and tells how many lots it has or why it is refused.
fn take(rt: &HostRuntime, board: &mut Board<LetteredTape<'_>>) -> anyhow::Result<()> {
    match board.take() {
        Ok(1) => println!(rt; "The sheet has one lot.")?,
        Ok(lots) => println!(rt; "The sheet has {lots} lots.")?,
        Err(fault) => tell_refusal(rt, fault)?,
    }
    Ok(())
}

/// Shows the page that a line names, or tells that it names none.
fn answer(rt: &HostRuntime, board: &Board<LetteredTape<'_>>, line: &str) -> anyhow::Result<()> {
    match range_of(line) {
        Some((start, size)) => show(rt, board, start, size),
        None => {
            println!(rt; "This line is no page: {line}")?;
            Ok(())
        }
    }
}

fn main(rt: HostRuntime) -> anyhow::Result<()> {
    let mut lines = rt.lines(rt.alloc());
    let Some(first) = lines.next() else {
        return Err(anyhow!("no sheet is given"));
    };
    let sheet = first?;
    let mut board = Board::new(LetteredTape {
        text: sheet.as_bytes(),
    });
    take(&rt, &mut board)?;
    for line in lines {
        let text = line?;
        answer(&rt, &board, text.as_str())?;
    }
    Ok(())
}
