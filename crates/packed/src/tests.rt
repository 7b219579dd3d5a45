//! What the packed punch promises, in the words of its own definitions.

ghost use Rattle.std.specs.Prelude.{◌≡◌, ℕ, ◌≤◌, [], length};
ghost use Rattle.bits.specs.Punching.{Appends};
ghost use Rattle.packed.specs.Packed.{packed, packed_room, Puts};

use crate::punch::PackedPunch;
use crate::tape::PackedTape;
use bits::punch::{Full, Punch};

fn new_packed<'a>(bytes: &'a mut [u8]) -> PackedPunch<'a>
    ensures bytes { result.bytes.now ≡ bytes.old }
    ensures home { result.bytes.ghost_name ≡ bytes.entry.ghost_name }
    ensures none { result.count ≡ 0 }
{
    PackedPunch::new(bytes)
}

fn room_for_packed(punch: &PackedPunch<'_>) -> usize
    ensures { result ≡ packed_room punch.now.bytes.now }
{
    punch.capacity()
}

fn packed_written(punch: &PackedPunch<'_>) -> usize
    ensures is { result ≡ length (packed punch.now.bytes.now punch.now.count) }
    ensures within { result ≤ packed_room punch.now.bytes.now }
{
    punch.len()
}

fn clear_packed(punch: &mut PackedPunch<'_>)
    ensures empty { packed punch.new.bytes.now punch.new.count ≡ [] }
    ensures room { packed_room punch.new.bytes.now ≡ packed_room punch.old.bytes.now }
    ensures home { punch.new.bytes.ghost_name ≡ punch.old.bytes.ghost_name }
    ensures bytes { punch.new.bytes.now ≡ punch.old.bytes.now }
    ensures none { punch.new.count ≡ 0 }
{
    punch.clear();
}

fn append_packed(punch: &mut PackedPunch<'_>, bit: bool) -> Result<(), Full>
    ensures bits { Appends result (packed_room punch.old.bytes.now) (packed punch.old.bytes.now punch.old.count) (packed punch.new.bytes.now punch.new.count) bit }
    ensures room { packed_room punch.new.bytes.now ≡ packed_room punch.old.bytes.now }
    ensures home { punch.new.bytes.ghost_name ≡ punch.old.bytes.ghost_name }
    ensures bytes { Puts result punch.old.bytes.now punch.old.count bit punch.new.bytes.now punch.new.count }
{
    punch.append(bit)
}

fn tape_of_packed<'a>(punch: &'a PackedPunch<'_>) -> PackedTape<'a>
    ensures { packed result.bytes.now result.count ≡ packed punch.now.bytes.now punch.now.count }
{
    punch.tape()
}

#[test]
fn one_bit(rt: HostRuntime) {
    let mut bytes = [0u8; 2];
    let mut punch = new_packed(&mut bytes);
    assert_eq!(rt; room_for_packed(&punch), 16);
    assert!(rt; append_packed(&mut punch, true).is_ok());
    assert_eq!(rt; packed_written(&punch), 1);
    assert_eq!(rt; tape_of_packed(&punch).count, 1);
    clear_packed(&mut punch);
    assert_eq!(rt; punch.count, 0);
}
