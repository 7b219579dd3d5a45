//! The C interface: the functions of `host` under C's names, as a static library.

#![tactic(auto)]

ghost use Rattle.std.specs.Prelude.{◌≡◌};
ghost use Rattle.leaders.specs.Verdict.{verdict};
ghost use Rattle.packed.specs.Packed.{packed};
ghost use Rattle.host.specs.Answers.{refusal_number, best_shown, second_shown, Reads};

/// Whether the first bits of the bytes are a sheet: 0, or the number of the refusal.
#[unsafe(no_mangle)]
pub extern "C" fn leading_pair_take(bytes: &[u8], bits: usize) -> u32
    ensures { result ≡ refusal_number (verdict (packed bytes.now bits)) }
{
    host::leading_pair_take(bytes, bits)
}

/// The best lot of a page of the sheet, or 0 where take or page is refused.
#[unsafe(no_mangle)]
pub extern "C" fn leading_pair_best(bytes: &[u8], bits: usize, start: u32, size: u32) -> u32
    ensures { Reads best_shown (packed bytes.now bits) start size result }
{
    host::leading_pair_best(bytes, bits, start, size)
}

/// The second lot of a page of the sheet, or 0 where there is none, and where take or page is refused.
#[unsafe(no_mangle)]
pub extern "C" fn leading_pair_second(bytes: &[u8], bits: usize, start: u32, size: u32) -> u32
    ensures { Reads second_shown (packed bytes.now bits) start size result }
{
    host::leading_pair_second(bytes, bits, start, size)
}
