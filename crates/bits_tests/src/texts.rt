//! Texts that are no sheet.

use packing::letters::{LetterFault, letters_of};

#[test]
fn a_line_feed_is_no_letter(rt: HostRuntime) {
    assert!(rt; matches!(letters_of(b""), Err(LetterFault::Empty)));
    assert!(rt; matches!(letters_of(b"\n"), Err(LetterFault::Empty)));
    assert!(rt; matches!(letters_of(b"()\n\n"), Err(LetterFault::Stray(2))));
    assert!(rt; matches!(letters_of(b"()\n"), Ok(b"()")));
}

#[test]
fn too_long_comes_before_a_stray_letter(rt: HostRuntime) {
    let text = [b'x'; 32769];
    assert!(rt; matches!(letters_of(&text), Err(LetterFault::TooLong)));
    assert!(rt; matches!(letters_of(&text[0..32768]), Err(LetterFault::Stray(0))));
}
