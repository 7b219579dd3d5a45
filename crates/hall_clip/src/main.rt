//! The hall program for clips of wool: commands on standard input, replies on standard output.
#![tactic(auto)]

use hall::program::run;
use keys::row::ClipRow;

fn main(rt: HostRuntime) -> anyhow::Result<()> {
    let blank = ClipRow {
        width: 100,
        wool_yield: 0,
        strength: 0,
    };
    run(&rt, blank)
}
