//! Two tapes compared.

ghost use Rattle.std.specs.Prelude.{◌≡◌, Decides};

use bits::iter::Bits;
use bits::tape::Tape;

/// Do two tapes have the same bits?
pub fn same_bits<S: Tape, T: Tape>(s: &S, t: &T) -> bool
    ensures { Decides result (S.Tape.bits s.now ≡ T.Tape.bits t.now) }
{
    s.len() == t.len() && Bits::of(s).zip(Bits::of(t)).all(|(a, b)| a == b)
}
