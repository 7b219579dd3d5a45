//! Tests of the book and of casting. Each line of standard input is a case, and its answer is printed on a line.
#![tactic(auto)]

use anyhow::anyhow;
use bits::punch::{LetteredPunch, Punch};
use book::book::{BITS, Book, NUMBERS, PLACES};
use book::fault::BookFault;
use casting::CastFault;
use keys::key::Key;
use keys::price::Price;
use keys::row::ClipRow;
use std::alloc::{AllocError, Global};
use std::io::Write;

/// The numbers between the commas of a text; none if the text is empty.
fn numbers(heap: Global, text: &str) -> anyhow::Result<Vec<u32>> {
    let mut found = Vec::new(heap);
    if text.is_empty() {
        return Ok(found);
    }
    for field in text.split(',') {
        found.push(field.parse::<u32>()?)?;
    }
    Ok(found)
}

/// Adds a lot for each `width` numbers, and stops at the first that is refused.
fn add_all<K: Key + Copy>(
    book: &mut Book<'_, K>,
    numbers: &[u32],
    width: usize,
) -> Result<(), BookFault> {
    for fields in numbers.chunks(width.max(1)) {
        book.add(fields)?;
    }
    Ok(())
}

/// Adds prices of a shape. Random ones are the upper twelve bits of a linear congruential generator, so that some are level.
fn add_shape(book: &mut Book<'_, Price>, shape: &str, lots: u32) -> Result<(), BookFault> {
    let mut state = 1u32;
    for lot in 0..lots {
        state = state.wrapping_mul(1_664_525).wrapping_add(1_013_904_223);
        let cents = match shape {
            "rising" => lot,
            "falling" => lots - lot,
            "level" => 7,
            _ => state >> 20,
        };
        book.add(&[cents])?;
    }
    Ok(())
}

/// The letters of a book's sheet, for which there is always room, or why it is not cast.
fn letters_of<K: Key + Copy>(
    heap: Global,
    book: &Book<'_, K>,
) -> Result<Result<Vec<u8>, BookFault>, AllocError> {
    let mut letters = vec![in heap; b' '; BITS]?;
    let mut work = vec![in heap; 0u32; NUMBERS]?;
    let cast = {
        let mut punch = LetteredPunch::new(&mut letters[..]);
        book.cast(&mut punch, &mut work[..])
    };
    match cast {
        Ok(bits) => {
            letters.truncate(bits as usize);
            Ok(Ok(letters))
        }
        Err(fault) => Ok(Err(fault)),
    }
}

// A digest of three lines, as other test programs have: a crate for them would be longer.
/// The 32-bit FNV-1a digest of some bytes.
fn digest(bytes: &[u8]) -> u32 {
    let mut sum = 0x811C_9DC5u32;
    for byte in bytes {
        sum = (sum ^ u32::from(*byte)).wrapping_mul(0x0100_0193);
    }
    sum
}

/// Prints a refusal: its number, and the length of a sheet for which there is no room.
fn tell_refusal(rt: &HostRuntime, fault: BookFault) -> anyhow::Result<()> {
    let number = fault.number();
    match fault {
        BookFault::Cast(CastFault::TooLong(bits)) => println!(rt; "refused,{number},{bits}")?,
        _ => println!(rt; "refused,{number}")?,
    }
    Ok(())
}

/// Prints the sheet of a book of the lots that the numbers make, `width` numbers to a lot.
fn tell_sheet<K: Key + Copy>(
    rt: &HostRuntime,
    places: &mut [K],
    numbers: &[u32],
    width: usize,
) -> anyhow::Result<()> {
    let mut book = Book::new(places);
    if let Err(fault) = add_all(&mut book, numbers, width) {
        return tell_refusal(rt, fault);
    }
    match letters_of(rt.alloc(), &book)? {
        Ok(letters) => {
            rt.stdout().write_all(&letters[..])?;
            println!(rt; "")?;
            Ok(())
        }
        Err(fault) => tell_refusal(rt, fault),
    }
}

/// `price,CENTS,CENTS..`: prints the sheet of the prices.
fn price_case(rt: &HostRuntime, rest: &str) -> anyhow::Result<()> {
    let fields = numbers(rt.alloc(), rest)?;
    let mut places = vec![in rt.alloc(); Price { cents: 0 }; PLACES]?;
    tell_sheet(rt, &mut places[..], &fields[..], 1)
}

/// `clip,WIDTH,YIELD,STRENGTH,WIDTH..`: prints the sheet of the clips.
fn clip_case(rt: &HostRuntime, rest: &str) -> anyhow::Result<()> {
    let fields = numbers(rt.alloc(), rest)?;
    let none = ClipRow {
        width: 100,
        wool_yield: 0,
        strength: 0,
    };
    let mut places = vec![in rt.alloc(); none; PLACES]?;
    tell_sheet(rt, &mut places[..], &fields[..], 3)
}

/// `long,SHAPE,LOTS`: prints the bits and the digest of the sheet of so many prices.
fn long_case(rt: &HostRuntime, rest: &str) -> anyhow::Result<()> {
    let Some((shape, count)) = rest.split_once(',') else {
        return Err(anyhow!("a shape and a number of lots are wanted"));
    };
    let lots = count.parse::<u32>()?;
    let mut places = vec![in rt.alloc(); Price { cents: 0 }; PLACES]?;
    let mut book = Book::new(&mut places[..]);
    if let Err(fault) = add_shape(&mut book, shape, lots) {
        return tell_refusal(rt, fault);
    }
    match letters_of(rt.alloc(), &book)? {
        Ok(letters) => {
            let bits = letters.len();
            let sum = digest(&letters[..]);
            println!(rt; "{bits} {sum:08x}")?;
            Ok(())
        }
        Err(fault) => tell_refusal(rt, fault),
    }
}

/// `adds,PLACES,COUNT`: prints the answer to the last of so many adds to a book of so many places.
fn adds_case(rt: &HostRuntime, rest: &str) -> anyhow::Result<()> {
    let fields = numbers(rt.alloc(), rest)?;
    let [room, count] = &fields[..] else {
        return Err(anyhow!("places and a number of adds are wanted"));
    };
    let mut places = vec![in rt.alloc(); Price { cents: 0 }; *room as usize]?;
    let mut book = Book::new(&mut places[..]);
    let mut answer = Ok(0);
    for cents in 0..*count {
        answer = book.add(&[cents]);
    }
    match answer {
        Ok(lots) => {
            println!(rt; "ok,{lots}")?;
            Ok(())
        }
        Err(fault) => tell_refusal(rt, fault),
    }
}

/// `work,LOTS,NUMBERS,CAPACITY`: prints the answer to a cast of rising prices with so many working numbers and so much room.
fn work_case(rt: &HostRuntime, rest: &str) -> anyhow::Result<()> {
    let fields = numbers(rt.alloc(), rest)?;
    let [lots, count, room] = &fields[..] else {
        return Err(anyhow!("lots, working numbers and a capacity are wanted"));
    };
    let mut places = vec![in rt.alloc(); Price { cents: 0 }; PLACES]?;
    let mut book = Book::new(&mut places[..]);
    if let Err(fault) = add_shape(&mut book, "rising", *lots) {
        return tell_refusal(rt, fault);
    }
    let mut letters = vec![in rt.alloc(); b' '; *room as usize]?;
    let mut work = vec![in rt.alloc(); 0u32; *count as usize]?;
    let mut punch = LetteredPunch::new(&mut letters[..]);
    match book.cast(&mut punch, &mut work[..]) {
        Ok(bits) => {
            println!(rt; "ok,{bits}")?;
            Ok(())
        }
        Err(fault) => tell_refusal(rt, fault),
    }
}

/// Answers one line: a match on its first word is plainer than a table of functions.
fn answer(rt: &HostRuntime, line: &str) -> anyhow::Result<()> {
    let (word, rest) = line.split_once(',').unwrap_or((line, ""));
    match word {
        "price" => price_case(rt, rest),
        "clip" => clip_case(rt, rest),
        "long" => long_case(rt, rest),
        "adds" => adds_case(rt, rest),
        "work" => work_case(rt, rest),
        _ => Err(anyhow!("no such case")),
    }
}

// Each test program has its lines and its answers: what is alike is this loop.
fn main(rt: HostRuntime) -> anyhow::Result<()> {
    for line in rt.lines(rt.alloc()) {
        let text = line?;
        answer(&rt, text.as_str())?;
    }
    Ok(())
}
