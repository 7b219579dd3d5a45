//! Lists for the answers to calls. Whoever has a list of calls performed brings one, so that no memory can be wanting once the first call is made.
#![tactic(auto)]

ghost use Rattle.std.specs.Prelude.{◌≡◌, vec_len, vec_capacity};
ghost use Rattle.answers.specs.Room.{roomy};

/// The list for the answers is not empty, or has not room for all of them.
#[derive(Clone, Copy, PartialEq, Eq, Debug)]
pub struct NoRoom;

/// Whether a list is empty, and has room for the answers to so many calls.
pub fn has_room<X>(answers: &Vec<X>, calls: usize) -> bool
    ensures { result ≡ roomy (vec_len answers.now) (vec_capacity answers.now) calls }
{
    answers.is_empty() && calls <= answers.capacity()
}
