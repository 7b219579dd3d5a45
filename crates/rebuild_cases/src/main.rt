//! Tests of rebuild. Each line of standard input is a case, and its answer is printed on a line.
#![tactic(auto)]

use anyhow::anyhow;
use bits::tape::LetteredTape;
use board::board::Board;
use board::fault::BoardFault;

/// What every entry of the lists holds before a rebuild.
const FILL: u32 = 7777;

/// Lists for a rebuild, filled, and the answer to it.
#[derive(Drop)]
struct Rebuilt {
    prices: Vec<u32>,
    numbers: Vec<u32>,
    answer: Result<u32, BoardFault>,
}

/// Rebuilds from the letters with so many prices and working numbers, on a board that takes them first if it is to.
fn rebuild(
    rt: &HostRuntime,
    letters: &str,
    takes: bool,
    prices: usize,
    numbers: usize,
) -> anyhow::Result<Rebuilt> {
    let mut board = Board::new(LetteredTape {
        text: letters.as_bytes(),
    });
    if takes {
        let _ = board.take();
    }
    let mut written = vec![in rt.alloc(); FILL; prices]?;
    let mut work = vec![in rt.alloc(); FILL; numbers]?;
    let answer = board.rebuild(&mut written[..], &mut work[..]);
    Ok(Rebuilt {
        prices: written,
        numbers: work,
        answer,
    })
}

/// Prints the answer, and then the numbers of a list.
fn tell(rt: &HostRuntime, answer: Result<u32, BoardFault>, list: &[u32]) -> anyhow::Result<()> {
    match answer {
        Ok(lots) => print!(rt; "ok,{lots}")?,
        Err(fault) => {
            let number = fault.number();
            print!(rt; "refused,{number}")?;
        }
    }
    for number in list {
        print!(rt; " {number}")?;
    }
    Ok(())
}

/// How many lots the letters of a sheet have brackets for.
fn lots_of(letters: &str) -> usize {
    let mut board = Board::new(LetteredTape {
        text: letters.as_bytes(),
    });
    board.take().unwrap_or(0) as usize
}

/// `rebuild,LETTERS`: with exactly the room that is needed, prints the prices.
fn rebuild_case(rt: &HostRuntime, letters: &str) -> anyhow::Result<()> {
    let n = lots_of(letters);
    let done = rebuild(rt, letters, true, n, n.saturating_add(1).saturating_mul(4))?;
    tell(rt, done.answer, done.prices.as_slice())?;
    println!(rt; "")?;
    Ok(())
}

/// `digest,LETTERS`: the same, as the 32-bit FNV-1a digest of the prices, each as one step.
fn digest_case(rt: &HostRuntime, letters: &str) -> anyhow::Result<()> {
    let n = lots_of(letters);
    let done = rebuild(rt, letters, true, n, n.saturating_add(1).saturating_mul(4))?;
    // A digest of three lines, as other test programs have: a crate for them would be longer.
    let mut sum = 0x811C_9DC5u32;
    for price in &done.prices {
        sum = (sum ^ *price).wrapping_mul(0x0100_0193);
    }
    tell(rt, done.answer, &[])?;
    println!(rt; " {sum:08x}")?;
    Ok(())
}

/// Prints the prices after a rebuild, and how many of the working numbers from the end on are as they were.
fn room_case(
    rt: &HostRuntime,
    letters: &str,
    takes: bool,
    prices: usize,
    numbers: usize,
) -> anyhow::Result<()> {
    let done = rebuild(rt, letters, takes, prices, numbers)?;
    let same = done
        .numbers
        .iter()
        .rev()
        .take_while(|number| **number == FILL)
        .count();
    tell(rt, done.answer, done.prices.as_slice())?;
    println!(rt; " {same}")?;
    Ok(())
}

/// `room,PRICES,NUMBERS,LETTERS` and `untaken,PRICES,NUMBERS,LETTERS`: a rebuild with so much room, on a board that has taken the letters or not.
fn sized_case(rt: &HostRuntime, takes: bool, rest: &str) -> anyhow::Result<()> {
    let Some((prices, more)) = rest.split_once(',') else {
        return Err(anyhow!("a number of prices is wanted"));
    };
    let Some((numbers, letters)) = more.split_once(',') else {
        return Err(anyhow!("a number of working numbers is wanted"));
    };
    let most = prices.parse::<u16>()?;
    let work = numbers.parse::<u16>()?;
    room_case(rt, letters, takes, usize::from(most), usize::from(work))
}

/// Answers one line: a match on its first word is plainer than a table of functions.
fn answer(rt: &HostRuntime, line: &str) -> anyhow::Result<()> {
    let (word, rest) = line.split_once(',').unwrap_or((line, ""));
    match word {
        "rebuild" => rebuild_case(rt, rest),
        "digest" => digest_case(rt, rest),
        "room" => sized_case(rt, true, rest),
        "untaken" => sized_case(rt, false, rest),
        _ => Err(anyhow!("no such case")),
    }
}

// Each test program has its lines and its answers: what is alike is this loop.
fn main(rt: HostRuntime) -> anyhow::Result<()> {
    for line in rt.lines(rt.alloc()) {
        let text = line?;
        answer(&rt, text.as_str())?;
    }
    Ok(())
}
