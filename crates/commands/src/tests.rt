use crate::command::command_of;
use crate::line::first_line;
use crate::number::number_of;
use std::test::Fail;

#[test]
fn number_edges(rt: HostRuntime) {
    assert!(rt; number_of(b"").is_none());
    assert!(rt; number_of(b"0") == Some(0));
    assert!(rt; number_of(b"01").is_none());
    assert!(rt; number_of(b"+1").is_none());
    assert!(rt; number_of(b"4294967295") == Some(4294967295));
    assert!(rt; number_of(b"4294967296").is_none());
}

#[test]
fn line_edges(rt: HostRuntime) -> Result<(), Fail> {
    assert!(rt; first_line(b"").is_none());
    let line = first_line(b"\nc").ok_or("no line")?;
    assert!(rt; line.bytes.len() == 0 && line.rest.len() == 1);
    let last = first_line(line.rest).ok_or("no line")?;
    assert!(rt; last.bytes.len() == 1 && last.rest.len() == 0);
    Ok(())
}

#[test]
fn command_edges(rt: HostRuntime) {
    assert!(rt; command_of::<keys::price::Price>(b"a,5").is_some());
    assert!(rt; command_of::<keys::price::Price>(b"a,5,6").is_none());
    assert!(rt; command_of::<keys::row::ClipRow>(b"r,1,200,600,40").is_some());
    assert!(rt; command_of::<keys::row::ClipRow>(b"r,200,600,40").is_none());
    assert!(rt; command_of::<keys::price::Price>(b"c,").is_none());
    assert!(rt; command_of::<keys::price::Price>(b"").is_none());
    assert!(rt; command_of::<keys::price::Price>(b"p,1,2,3").is_none());
    assert!(rt; command_of::<keys::price::Price>(b"ca").is_none());
}
