ghost use Rattle.std.specs.Prelude.{◌≡◌};
ghost use Rattle.panel.specs.Shows.{is_lot, told, best_of, second_of};
ghost use Rattle.panel.specs.Inner.{shown_by};

/// What a panel shows: nothing, a best lot, or a best lot and a second.
#[derive(Clone, Copy, PartialEq, Eq, Debug)]
pub enum Shown {
    Blank,
    Best(u32),
    Pair(u32, u32),
}

// Whether a lot may have this number.
fn is_lot(n: u32) -> bool
    ensures { result ≡ is_lot n }
{
    (1..=4000).contains(&n)
}

impl Shown {
    /// What a panel shows that is told these numbers: blank if one is outside 1 to 4,000.
    pub fn of(best: u32, second: Option<u32>) -> Shown
        ensures { result ≡ told best second }
    {
        match second {
            None if is_lot(best) => Shown::Best(best),
            Some(next) if is_lot(best) && is_lot(next) => Shown::Pair(best, next),
            _ => Shown::Blank,
        }
    }

    /// The best lot that is shown, if any is.
    pub fn best(&self) -> Option<u32>
        ensures { result ≡ best_of self.now }
    {
        match *self {
            Shown::Blank => None,
            Shown::Best(best) | Shown::Pair(best, _) => Some(best),
        }
    }

    /// The second that is shown, if any is.
    pub fn second(&self) -> Option<u32>
        ensures { result ≡ second_of self.now }
    {
        match *self {
            Shown::Pair(_, second) => Some(second),
            _ => None,
        }
    }

    // What is shown by numbers that were read off a panel.
    pub(crate) fn by(best: Option<u32>, second: Option<u32>) -> Shown
        ensures { result ≡ shown_by best second }
    {
        best.map_or(Shown::Blank, |best| Shown::of(best, second))
    }
}
