//! A panel that keeps what it is to show, for callers that want the lots as numbers.

ghost use Rattle.std.specs.Prelude.{◌≡◌};
ghost use Rattle.panel.specs.declared.shown.Shown.TheVariants.{Blank};

use crate::Panel;
use crate::shown::Shown;

/// What is to be shown, as a value.
#[derive(Drop)]
pub struct Kept {
    pub value: Shown,
}

impl Kept {
    /// A panel that is blank.
    pub fn new() -> Kept
        ensures { result.value ≡ Blank }
    {
        Kept {
            value: Shown::Blank,
        }
    }
}

impl Panel for Kept {
    ghost shows = { λ p. p.value };

    fn show(&mut self, best: u32, second: Option<u32>) {
        self.value = Shown::of(best, second);
    }

    fn blank(&mut self) {
        self.value = Shown::Blank;
    }

    fn shown(&self) -> Shown {
        self.value
    }
}
