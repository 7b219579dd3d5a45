//! How programs for people show a panel and tell a refusal. These functions only print, so they have no contract; the stored output of the programs holds them.
#![tactic(auto)]

use board::fault::BoardFault;
use panel::digit_panel::DigitPanel;
use panel::line_panel::LinePanel;
use std::io::Write;

/// The segments on the left, in the middle and on the right of each row of a digit. Segments a to g are bits 0 to 6.
const ROWS: [(u8, u8, u8); 3] = [(0, 0x01, 0), (0x20, 0x40, 0x02), (0x10, 0x08, 0x04)];

/// Tells why a sheet is not taken, a page not shown, or nothing rebuilt.
pub fn tell_refusal(rt: &HostRuntime, fault: BoardFault) -> anyhow::Result<()> {
    println!(rt; "{fault}")?;
    Ok(())
}

/// Draws a line panel between bars.
pub fn draw_line(rt: &HostRuntime, line: &LinePanel) -> anyhow::Result<()> {
    print!(rt; "|")?;
    rt.stdout().write_all(line.bytes())?;
    println!(rt; "|")?;
    Ok(())
}

/// What stands for a segment: its mark if it is lit.
fn mark_of(lit: u8, segment: u8, mark: char) -> char {
    if lit & segment == 0 { ' ' } else { mark }
}

/// Draws one row of the digits.
fn draw_row(rt: &HostRuntime, digits: &[u8], row: (u8, u8, u8)) -> anyhow::Result<()> {
    print!(rt; "[ ")?;
    for lit in digits {
        let left = mark_of(*lit, row.0, '|');
        let middle = mark_of(*lit, row.1, '_');
        let right = mark_of(*lit, row.2, '|');
        print!(rt; "{left}{middle}{right} ")?;
    }
    println!(rt; "]")?;
    Ok(())
}

/// Draws a digit panel in three rows.
pub fn draw_digits(rt: &HostRuntime, digits: &DigitPanel) -> anyhow::Result<()> {
    for row in ROWS {
        draw_row(rt, digits.digits(), row)?;
    }
    Ok(())
}
