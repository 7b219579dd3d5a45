//! What the lettered punch promises, in the words of its own definitions.

ghost use Rattle.std.specs.Prelude.{◌≡◌, ℕ, ◌≤◌, [], length};
ghost use Rattle.bits.specs.Bits.{lettered};
ghost use Rattle.bits.specs.Punching.{Appends, Lettered, letters, letter_room};

use crate::punch::{Full, LetteredPunch, Punch};
use crate::tape::LetteredTape;

fn new_letters<'a>(text: &'a mut [u8]) -> LetteredPunch<'a>
    ensures bytes { result.bytes.now ≡ text.old }
    ensures home { result.bytes.ghost_name ≡ text.entry.ghost_name }
    ensures none { result.count ≡ 0 }
{
    LetteredPunch::new(text)
}

fn room_for_letters(punch: &LetteredPunch<'_>) -> usize
    ensures { result ≡ letter_room punch.now.bytes.now }
{
    punch.capacity()
}

fn letters_written(punch: &LetteredPunch<'_>) -> usize
    ensures is { result ≡ length (letters punch.now.bytes.now punch.now.count) }
    ensures within { result ≤ letter_room punch.now.bytes.now }
{
    punch.len()
}

fn clear_letters(punch: &mut LetteredPunch<'_>)
    ensures empty { letters punch.new.bytes.now punch.new.count ≡ [] }
    ensures room { letter_room punch.new.bytes.now ≡ letter_room punch.old.bytes.now }
    ensures home { punch.new.bytes.ghost_name ≡ punch.old.bytes.ghost_name }
    ensures bytes { punch.new.bytes.now ≡ punch.old.bytes.now }
    ensures none { punch.new.count ≡ 0 }
{
    punch.clear();
}

fn append_letter(punch: &mut LetteredPunch<'_>, bit: bool) -> Result<(), Full>
    ensures bits { Appends result (letter_room punch.old.bytes.now) (letters punch.old.bytes.now punch.old.count) (letters punch.new.bytes.now punch.new.count) bit }
    ensures room { letter_room punch.new.bytes.now ≡ letter_room punch.old.bytes.now }
    ensures home { punch.new.bytes.ghost_name ≡ punch.old.bytes.ghost_name }
    ensures bytes { Lettered result punch.old.bytes.now punch.old.count bit punch.new.bytes.now punch.new.count }
{
    punch.append(bit)
}

fn tape_of_letters<'a>(punch: &'a LetteredPunch<'_>) -> LetteredTape<'a>
    ensures { lettered result.text.now ≡ letters punch.now.bytes.now punch.now.count }
{
    punch.tape()
}

#[test]
fn one_letter(rt: HostRuntime) {
    let mut text = [b'.'; 2];
    let mut punch = new_letters(&mut text);
    assert_eq!(rt; room_for_letters(&punch), 2);
    assert!(rt; append_letter(&mut punch, true).is_ok());
    assert_eq!(rt; letters_written(&punch), 1);
    assert!(rt; tape_of_letters(&punch).text == b"(".as_slice());
    clear_letters(&mut punch);
    assert_eq!(rt; punch.count, 0);
}
