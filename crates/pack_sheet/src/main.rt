//! Reads a lettered sheet from standard input and tells its packed bytes.
#![tactic(auto)]

use packing::report::report;
use std::io;
use std::io::Read;

/// 32,768 letters and a line feed, and one byte more: enough to see that a sheet is too long.
const MOST: u64 = 32_770;

fn main(rt: HostRuntime) -> io::Result<()> {
    let mut input = Vec::new(rt.alloc());
    rt.stdin().take(MOST).read_to_end(&mut input)?;
    let text = report(rt.alloc(), &input)?;
    rt.print(text)
}
