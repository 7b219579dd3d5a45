//! Reply lines of the hall programs, added to what is written so far.
#![tactic(auto)]

ghost use Rattle.std.specs.Prelude.{◌≡◌, ℕ, List, ◌++◌, map, Some, OnOk};
ghost use Rattle.bits.specs.Punching.{letter};
ghost use Rattle.replies.specs.Replies.{ok_line, refused_line, sheet_line, pair_line};

use bits::iter::Bits;
use bits::punch::letter_of;
use bits::tape::Tape;
use panel::shown::Shown;
use std::alloc::AllocError;
use std::fmt::Display;

/// Adds a text.
fn push_text<D: Display + Drop>(out: &mut Vec<u8>, text: D) -> Result<(), AllocError>
    ensures { (bytes : List ℕ) → D.output text ≡ Some bytes → OnOk result (out.new.items ≡ out.old.items ++ bytes) }
{
    let text = text.to_string(*out.allocator())?;
    out.extend_from_slice(text.as_bytes())
}

/// Adds bits as letters.
fn push_letters<T: Tape>(out: &mut Vec<u8>, tape: &T) -> Result<(), AllocError>
    ensures { OnOk result (out.new.items ≡ out.old.items ++ map letter (T.Tape.bits tape.now)) }
{
    for bit in Bits::of(tape) {
        out.push(letter_of(bit))?;
    }
    Ok(())
}

/// `ok,` and a number of lots.
pub fn reply_ok(out: &mut Vec<u8>, lots: u32) -> Result<(), AllocError>
    ensures { OnOk result (out.new.items ≡ out.old.items ++ ok_line lots) }
{
    push_text(out, format_args!("ok,{lots}\n"))
}

/// `refused,` and the number of a refusal.
pub fn reply_refused(out: &mut Vec<u8>, number: u32) -> Result<(), AllocError>
    ensures { OnOk result (out.new.items ≡ out.old.items ++ refused_line number) }
{
    push_text(out, format_args!("refused,{number}\n"))
}

/// `sheet,` and the bits of a tape as letters.
pub fn reply_sheet<T: Tape>(out: &mut Vec<u8>, tape: &T) -> Result<(), AllocError>
    ensures { OnOk result (out.new.items ≡ out.old.items ++ sheet_line (T.Tape.bits tape.now)) }
{
    out.extend_from_slice(b"sheet,")?;
    push_letters(out, tape)?;
    out.extend_from_slice(b"\n")
}

/// `pair,` and the two lots that a panel shows, 0 for no second.
pub fn reply_pair(out: &mut Vec<u8>, shown: Shown) -> Result<(), AllocError>
    ensures { OnOk result (out.new.items ≡ out.old.items ++ pair_line shown) }
{
    let best = shown.best().unwrap_or(0);
    let second = shown.second().unwrap_or(0);
    push_text(out, format_args!("pair,{best},{second}\n"))
}
