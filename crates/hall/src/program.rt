//! A hall program: standard input answered on standard output.

use crate::hall::{MOST, Room};
use keys::key::Key;
use std::io::{Read, Write};

/// Answers the first 65,536 bytes of standard input, for a kind of key, and writes each reply as it is made; `blank` fills the places of the book that have no lot.
pub fn run<K: Key + Copy + Clone>(rt: &HostRuntime, blank: K) -> anyhow::Result<()> {
    let mut input = Vec::new(rt.alloc());
    rt.stdin().take(MOST as u64).read_to_end(&mut input)?;
    let mut room = Room::new(blank, rt.alloc())?;
    let mut hall = room.hall();
    let mut reply = Vec::new(rt.alloc());
    let mut rest = &input[..];
    while let Some(after) = hall.answer_next(rest, &mut reply)? {
        rt.stdout().write_all(&reply)?;
        reply.clear();
        rest = after;
    }
    Ok(())
}
