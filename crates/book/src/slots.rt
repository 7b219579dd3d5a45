//! What a book does to the list that it was lent.

ghost use Rattle.std.specs.Prelude.{◌≡◌, ◌-◌, ◌<◌, ◌≤◌, length, take, slice_set};
ghost use Rattle.std.specs.List.{remove};

/// Writes a key at a place.
pub(crate) fn put<K: Copy>(list: &mut [K], at: usize, key: K)
    requires { at < length list.old }
    ensures { list.new ≡ slice_set list.old at key }
{
    list[at] = key;
}

/// Takes the key at a place out of the first `count`: those after it move down by one.
pub(crate) fn close<K: Copy>(list: &mut [K], at: usize, count: usize)
    requires { (at < count) × (count ≤ length list.old) }
    ensures { take (count - 1) list.new ≡ remove (take count list.old) at }
{
    list[at..count].rotate_left(1);
}
