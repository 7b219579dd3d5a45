//! Punches at their edges.

use bits::punch::{LetteredPunch, Punch};
use bits::tape::Tape;
use packed::punch::PackedPunch;
use std::marker::PhantomData;

#[test]
fn a_full_punch_keeps_its_bits(rt: HostRuntime) {
    let mut text = [b'.'; 1];
    let mut punch = LetteredPunch::new(&mut text);
    assert!(rt; punch.append(true).is_ok());
    assert!(rt; punch.append(false).is_err());
    assert_eq!(rt; punch.len(), 1);
    assert_eq!(rt; punch.tape().get(0), Some(true));
    assert_eq!(rt; text[0], b'(');
}

#[test]
fn lower_bits_become_zero(rt: HostRuntime) {
    let mut bytes = [0xffu8; 2];
    let mut punch = PackedPunch::new(&mut bytes);
    assert!(rt; punch.append(true).is_ok());
    assert!(rt; punch.append(false).is_ok());
    assert_eq!(rt; punch.tape().rank(2), 1);
    assert_eq!(rt; bytes[0], 0x80);
    assert_eq!(rt; bytes[1], 0xff);
}

#[test]
fn clear_writes_nothing(rt: HostRuntime) {
    let mut bytes = [0xa5u8; 1];
    let mut punch = PackedPunch {
        bytes: &mut bytes,
        count: 3,
        cells: PhantomData,
    };
    punch.clear();
    assert_eq!(rt; punch.len(), 0);
    assert_eq!(rt; bytes[0], 0xa5);
}

#[test]
fn capacities(rt: HostRuntime) {
    let mut none = [0u8; 0];
    assert_eq!(rt; PackedPunch::new(&mut none).capacity(), 0);
    let mut bytes = [0u8; 4097];
    assert_eq!(rt; PackedPunch::new(&mut bytes).capacity(), 32_768);
    let mut text = [0u8; 32769];
    assert_eq!(rt; LetteredPunch::new(&mut text).capacity(), 32_768);
}
