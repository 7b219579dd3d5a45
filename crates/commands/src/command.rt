//! What a line of a hall program asks for.

ghost use Rattle.std.specs.Prelude.{◌≡◌};
ghost use Rattle.std.specs.Option.{option_map};
ghost use Rattle.commands.specs.Asked.{asks, add_by, strike_by, new_key_by, cast_by, page_by, asked_by, lettered_by, asked_of};

use crate::line::cut;
use crate::number::numbers_of;
use book::fields::Fields;
use keys::key::{Key, has_count};

/// A command at a hall program.
#[derive(Clone, Copy)]
pub enum Command {
    /// A new lot with these key fields.
    Add(Fields),
    /// A lot goes.
    Strike(u32),
    /// A lot gets other key fields.
    NewKey(u32, Fields),
    Cast,
    /// From which lot on, and how many lots.
    Page(u32, u32),
}

/// The most bytes of a line, its line feed not counted.
const MOST: usize = 64;

fn add_of<K: Key>(numbers: &[u32]) -> Option<Command>
    ensures { option_map asks result ≡ add_by K.Key.FIELDS numbers.now }
{
    has_count::<K>(numbers).then(|| Command::Add(Fields::new(numbers)))
}

fn strike_of(numbers: &[u32]) -> Option<Command>
    ensures { option_map asks result ≡ strike_by numbers.now }
{
    match numbers {
        [lot] => Some(Command::Strike(*lot)),
        _ => None,
    }
}

fn new_key_of<K: Key>(numbers: &[u32]) -> Option<Command>
    ensures { option_map asks result ≡ new_key_by K.Key.FIELDS numbers.now }
{
    let [lot, fields @ ..] = numbers else {
        return None;
    };
    has_count::<K>(fields).then(|| Command::NewKey(*lot, Fields::new(fields)))
}

fn cast_of(numbers: &[u32]) -> Option<Command>
    ensures { option_map asks result ≡ cast_by numbers.now }
{
    match numbers {
        [] => Some(Command::Cast),
        _ => None,
    }
}

fn page_of(numbers: &[u32]) -> Option<Command>
    ensures { option_map asks result ≡ page_by numbers.now }
{
    match numbers {
        [start, size] => Some(Command::Page(*start, *size)),
        _ => None,
    }
}

/// The command of a letter and numbers, for keys of the kind `K`: a match is plainer than a table of functions.
fn command_by<K: Key>(letter: char, numbers: &[u32]) -> Option<Command>
    ensures { option_map asks result ≡ asked_by K.Key.FIELDS letter numbers.now }
{
    match letter {
        'a' => add_of::<K>(numbers),
        's' => strike_of(numbers),
        'r' => new_key_of::<K>(numbers),
        'c' => cast_of(numbers),
        'p' => page_of(numbers),
        _ => None,
    }
}

/// The command of a line's first field, which is to be one letter, and of the numbers behind it.
fn lettered<K: Key>(field: &[u8], numbers: &[u32]) -> Option<Command>
    ensures { option_map asks result ≡ lettered_by K.Key.FIELDS field.now numbers.now }
{
    let [letter] = field else {
        return None;
    };
    command_by::<K>(*letter as char, numbers)
}

/// The command on a line, for keys of the kind `K`, which neither `FromStr` nor `TryFrom` could carry; `None` where the line is malformed.
pub fn command_of<K: Key>(line: &[u8]) -> Option<Command>
    ensures { option_map asks result ≡ asked_of K.Key.FIELDS line.now }
{
    if line.len() > MOST {
        return None;
    }
    let Some((letter, numbers)) = cut(line, b',') else {
        return lettered::<K>(line, &[]);
    };
    lettered::<K>(letter, numbers_of(numbers)?.as_slice())
}
