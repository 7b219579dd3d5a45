//! A text parted into lines.

ghost use Rattle.std.specs.Prelude.{◌≡◌, ◌≤◌, [], length, position, ◌==◌, MatchOption};
ghost use Rattle.std.specs.Iterator.{YieldsFirstRef, item_count};
ghost use Rattle.commands.specs.Texts.{place, lines, Cut, FirstLine};

// One call of `position`, as panels have one for their glyphs: neither crate knows the other.
/// Where a byte stands first in a text, if it is there.
pub fn find_place(text: &[u8], mark: u8) -> Option<usize>
    ensures { result ≡ position (λ b. b == mark) text.now }
{
    text.iter().position(|x| *x == mark)
}

/// The same, or the length if it is not there.
pub fn place_of(text: &[u8], mark: u8) -> usize
    ensures within { result ≤ length text.now }
    ensures first { result ≡ place text.now mark }
{
    find_place(text, mark).unwrap_or(text.len())
}

/// A text up to the first place of a byte, and what stands behind that; `None` where the byte is not there.
pub(crate) fn cut(text: &[u8], mark: u8) -> Option<(&[u8], &[u8])>
    ensures { MatchOption result (length text.now ≤ place text.now mark) (λ p. Cut text.now mark p.0.now p.1.now) }
{
    let at = find_place(text, mark)?;
    Some((&text[..at], &text[at + 1..]))
}

/// A line without its line feed, and the text behind it.
#[derive(Clone, Copy)]
pub struct Line<'a> {
    pub bytes: &'a [u8],
    pub rest: &'a [u8],
}

/// The first line of a text; `None` where the text is empty.
pub fn first_line(text: &[u8]) -> Option<Line<'_>>
    ensures { MatchOption result (text.now ≡ []) (λ l. FirstLine text.now l.bytes.now l.rest.now) }
{
    if text.is_empty() {
        return None;
    }
    let Some((bytes, rest)) = cut(text, b'\n') else {
        return Some(Line {
            bytes: text,
            rest: &[],
        });
    };
    Some(Line { bytes, rest })
}

/// The lines of a text, one after another, each without its line feed; `rest` is the text behind those that are read.
#[derive(Clone, Copy)]
pub struct Lines<'a> {
    pub rest: &'a [u8],
}

impl<'a> Lines<'a> {
    /// The lines of this text.
    pub fn new(text: &'a [u8]) -> Lines<'a>
        ensures { result.rest.now ≡ text.now }
    {
        Lines { rest: text }
    }
}

impl<'a> Iterator for Lines<'a> {
    type Item = &'a [u8];

    ghost next_gives = { YieldsFirstRef (λ s. lines s.rest.now) };

    ghost remaining = { item_count (λ s. lines s.rest.now) };

    fn next(&mut self) -> Option<&'a [u8]> {
        let line = first_line(self.rest)?;
        self.rest = line.rest;
        Some(line.bytes)
    }
}
