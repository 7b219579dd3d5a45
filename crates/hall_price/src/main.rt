//! The hall program for prices: commands on standard input, replies on standard output.
#![tactic(auto)]

use hall::program::run;
use keys::price::Price;

fn main(rt: HostRuntime) -> anyhow::Result<()> {
    run(&rt, Price { cents: 0 })
}
