//! Tapes at their edges.

use bits::tape::{LetteredTape, Tape, agree_at};
use bits::views::{Flipped, Window};
use packed::tape::PackedTape;

#[test]
fn letters_at_the_end(rt: HostRuntime) {
    let tape = LetteredTape { text: b"(x)" };
    assert_eq!(rt; tape.get(0), Some(true));
    assert_eq!(rt; tape.get(2), Some(false));
    assert_eq!(rt; tape.get(3), None);
    assert_eq!(rt; tape.rank(99), 1);
    assert_eq!(rt; tape.select(0), None);
    assert_eq!(rt; tape.select(1), Some(0));
    assert_eq!(rt; tape.select(2), None);
}

#[test]
fn count_over_the_bytes(rt: HostRuntime) {
    let tape = PackedTape {
        bytes: b"\xe9",
        count: usize::MAX,
    };
    assert_eq!(rt; tape.len(), 8);
    assert_eq!(rt; tape.get(7), Some(true));
    assert_eq!(rt; tape.get(8), None);
    assert_eq!(rt; tape.rank(3), 3);
    assert_eq!(rt; tape.rank(8), 5);
    assert_eq!(rt; tape.select(5), Some(7));
}

#[test]
fn no_bytes(rt: HostRuntime) {
    let tape = PackedTape {
        bytes: b"",
        count: 5,
    };
    assert_eq!(rt; tape.len(), 0);
    assert_eq!(rt; tape.get(0), None);
    assert_eq!(rt; tape.rank(1), 0);
    assert_eq!(rt; tape.select(1), None);
}

#[test]
fn most_bits(rt: HostRuntime) {
    let bytes = [0xffu8; 4097];
    let tape = PackedTape {
        bytes: &bytes,
        count: 32_769,
    };
    assert_eq!(rt; tape.len(), 32_768);
    assert_eq!(rt; tape.get(32_767), Some(true));
    assert_eq!(rt; tape.get(32_768), None);
    assert_eq!(rt; tape.rank(32_769), 32_768);
    assert_eq!(rt; tape.select(32_768), Some(32_767));
    assert_eq!(rt; tape.select(32_769), None);
}

#[test]
fn window_past_the_end(rt: HostRuntime) {
    let tape = LetteredTape { text: b"((" };
    let window = Window {
        below: &tape,
        from: usize::MAX,
        most: usize::MAX,
    };
    assert_eq!(rt; window.len(), 0);
    assert_eq!(rt; window.get(usize::MAX), None);
    assert_eq!(rt; window.rank(usize::MAX), 0);
}

#[test]
fn same_bits_same_answers(rt: HostRuntime) {
    let packed = PackedTape {
        bytes: b"\xe9",
        count: 8,
    };
    let window = Window {
        below: packed,
        from: 2,
        most: 4,
    };
    let flipped = Flipped { below: window };
    let lettered = LetteredTape { text: b")()(" };
    assert!(rt; agree_at(&flipped, &lettered, 0));
    assert!(rt; agree_at(&flipped, &lettered, 2));
    assert!(rt; agree_at(&flipped, &lettered, 4));
    assert!(rt; !agree_at(&window, &lettered, 1));
}
