ghost use Rattle.std.specs.Prelude.{◌≡◌, ◌+◌, ◌<◌, ◌≤◌, None, length, IfSome};
ghost use Rattle.std.specs.Int.Digits.{digits_of};
ghost use Rattle.panel.specs.Numerals.{numeral};
ghost use Rattle.panel.specs.Inner.{inked, place, grown, reading};

/// How many decimal digits a number has; nought has none.
pub(crate) fn width(n: u32) -> usize
    ensures { result ≡ length (digits_of 10 n) }
{
    match n.checked_ilog10() {
        None => 0,
        Some(log) => log as usize + 1,
    }
}

/// Writes a number in these glyphs so that its last digit stands before `end`; nought writes nothing.
pub(crate) fn write(cells: &mut [u8], end: usize, n: u32, glyphs: &[u8; 10])
    requires room { length (digits_of 10 n) ≤ end }
    requires within { end ≤ length cells.old }
    ensures { cells.new ≡ inked cells.old end (numeral glyphs.now n) }
{
    let mut left = n;
    // By the place, from `end` back: what is said of the digits left is said of the place reached.
    for at in (end - width(n)..end).rev() {
        cells[at] = glyphs[(left % 10) as usize];
        left /= 10;
    }
}

// One call of `position`, as commands have one for their marks: neither crate knows the other.
/// Where a cell stands first, if it is there.
#[tactic(auto, unfolding(crate::specs::Inner::place))]
pub(crate) fn first_place(cells: &[u8], cell: u8) -> Option<usize>
    ensures first { result ≡ place cells.now cell }
    ensures within { IfSome result (λ at. at < length cells.now) }
{
    cells.iter().position(|x| *x == cell)
}

// One glyph more behind a number, or a first one.
fn grow(n: Option<u32>, cell: u8, glyphs: &[u8; 10]) -> Option<u32>
    ensures { result ≡ grown glyphs.now n cell }
{
    match first_place(glyphs, cell) {
        None => n,
        Some(digit) => Some(n.unwrap_or(0).min(400) * 10 + digit as u32),
    }
}

/// The number that stands in these cells, in these glyphs, among cells that are no glyphs; `None` where there is no glyph.
#[tactic(auto, unfolding(crate::specs::Inner::reading))]
pub(crate) fn read(cells: &[u8], glyphs: &[u8; 10]) -> Option<u32>
    ensures { result ≡ reading glyphs.now None cells.now }
{
    cells.iter().fold(None, |n, cell| grow(n, *cell, glyphs))
}
