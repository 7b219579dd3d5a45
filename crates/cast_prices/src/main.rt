//! Reads prices from standard input, one a line, and tells the sheet that they cast.
#![tactic(auto)]

use bits::punch::{LetteredPunch, Punch};
use book::book::{BITS, Book, NUMBERS, PLACES};
use keys::price::Price;
use std::io::Write;

/// Adds the prices on standard input to the book, and tells of each line that is none.
fn read_prices(rt: &HostRuntime, book: &mut Book<'_, Price>) -> anyhow::Result<()> {
    for (number, line) in (1u64..).zip(rt.lines(rt.alloc())) {
        // From line 4,294,967,295 on, that number.
        let number = number.min(4_294_967_295);
        let text = line?;
        match text.parse::<u32>() {
            Ok(cents) => {
                if let Err(fault) = book.add(&[cents]) {
                    let refusal = fault.number();
                    println!(rt; "Line {number} is declined with {refusal}.")?;
                }
            }
            Err(_) => println!(rt; "Line {number} is no price: {text}")?,
        }
    }
    Ok(())
}

/// Casts the book, and tells the sheet.
fn tell_sheet(rt: &HostRuntime, book: &Book<'_, Price>) -> anyhow::Result<()> {
    let mut letters = vec![in rt.alloc(); b' '; BITS]?;
    let mut work = vec![in rt.alloc(); 0u32; NUMBERS]?;
    let lots = book.len();
    let cast = {
        let mut punch = LetteredPunch::new(&mut letters[..]);
        book.cast(&mut punch, &mut work[..])
    };
    match cast {
        Ok(bits) => {
            let brackets = 2 * u64::from(lots) + 2;
            let spines = u64::from(bits).saturating_sub(brackets);
            println!(rt; "Lots in the book: {lots}")?;
            println!(rt;
                "Bits in the sheet: {bits}, of which {brackets} are brackets and {spines} spines"
            )?;
            let end = (bits as usize).min(letters.len());
            rt.stdout().write_all(&letters[0..end])?;
            println!(rt; "")?;
        }
        Err(fault) => {
            let refusal = fault.number();
            println!(rt; "The cast is declined with {refusal}.")?;
        }
    }
    Ok(())
}

fn main(rt: HostRuntime) -> anyhow::Result<()> {
    let mut places = vec![in rt.alloc(); Price { cents: 0 }; PLACES]?;
    let mut book = Book::new(&mut places[..]);
    read_prices(&rt, &mut book)?;
    tell_sheet(&rt, &book)
}
