//! Panels: what shows the best lot of a page, and the second.
#![tactic(auto)]

ghost use Rattle.std.specs.Prelude.{◌≡◌};
ghost use Rattle.panel.specs.declared.shown.Shown.{Shown};
ghost use Rattle.panel.specs.declared.shown.Shown.TheVariants.{Blank};
ghost use Rattle.panel.specs.Shows.{told};

use shown::Shown;

pub mod digit_panel;
pub mod face_panel;
pub mod kept;
pub mod line_panel;
mod numeral;
pub mod shown;
#[cfg(test)]
mod tests;

/// A panel. What it means is read off its bytes or digits alone.
pub trait Panel {
    // What it shows.
    ghost shows: { Self → Shown };

    /// Shows a best lot with a second or without; blanks the panel if a number is outside 1 to 4,000.
    fn show(&mut self, best: u32, second: Option<u32>)
        ensures { shows self.new ≡ told best second };

    /// Blanks the panel.
    fn blank(&mut self)
        ensures { shows self.new ≡ Blank };

    /// What the panel shows, read off it.
    fn shown(&self) -> Shown
        ensures { result ≡ shows self.now };
}

/// Shows a pair on any panel, and reads it off again.
pub fn show_then_read<P: Panel>(panel: &mut P, best: u32, second: Option<u32>) -> Shown
    ensures shown { P.Panel.shows panel.new ≡ told best second }
    ensures read { result ≡ told best second }
{
    panel.show(best, second);
    panel.shown()
}
