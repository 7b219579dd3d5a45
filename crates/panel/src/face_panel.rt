//! Panels of cells that are drawn anew at each show, and read off by guessing and drawing again.

ghost use Rattle.std.specs.Prelude.{◌≡◌, true, List, ℕ, ◌⊎◌};
ghost use Rattle.panel.specs.declared.shown.Shown.{Shown};
ghost use Rattle.panel.specs.declared.shown.Shown.TheVariants.{Blank};
ghost use Rattle.panel.specs.Shows.{told, proper, meaning};

use crate::Panel;
use crate::shown::Shown;
use std::marker::PhantomData;

/// How `N` cells show a pair of lots. No other crate sees it: `draw` is asked for lots only, as the panels have told them apart.
pub(crate) trait Face<const N: usize> {
    // The cells that show it.
    ghost drawn: { Shown → List ℕ };

    /// The cells that show a pair of lots.
    fn draw(shown: Shown) -> [u8; N]
        requires { proper shown ≡ true }
        ensures cells { result ≡ drawn shown }
        ensures means { meaning drawn result ≡ shown };

    /// What these cells show, if they show a pair of lots.
    fn guess(cells: &[u8; N]) -> Shown
        ensures read { (meaning drawn cells.now ≡ Blank) ⊎ (result ≡ meaning drawn cells.now) }
        ensures proper { proper result ≡ true };
}

/// A panel of `N` cells with a face.
#[derive(Drop)]
pub struct FacePanel<F, const N: usize> {
    pub(crate) cells: [u8; N],
    face: PhantomData<F>,
}

impl<F: Face<N>, const N: usize> FacePanel<F, N> {
    /// A blank panel.
    pub fn new() -> FacePanel<F, N>
        ensures cells { result.cells ≡ F.Face.drawn Blank }
        ensures shown { meaning F.Face.drawn result.cells ≡ Blank }
    {
        FacePanel {
            cells: F::draw(Shown::Blank),
            face: PhantomData,
        }
    }
}

impl<F: Face<N>, const N: usize> Panel for FacePanel<F, N> {
    ghost shows = { λ p. meaning F.Face.drawn p.cells };

    fn show(&mut self, best: u32, second: Option<u32>)
        ensures shown { meaning F.Face.drawn self.new.cells ≡ told best second }
        ensures cells { self.new.cells ≡ F.Face.drawn (told best second) }
    {
        self.cells = F::draw(Shown::of(best, second));
    }

    fn blank(&mut self)
        ensures shown { meaning F.Face.drawn self.new.cells ≡ Blank }
        ensures cells { self.new.cells ≡ F.Face.drawn Blank }
    {
        self.cells = F::draw(Shown::Blank);
    }

    fn shown(&self) -> Shown
        ensures shown { result ≡ meaning F.Face.drawn self.now.cells }
        ensures cells { (result ≡ Blank) ⊎ (F.Face.drawn result ≡ self.now.cells) }
    {
        let seen = F::guess(&self.cells);
        if F::draw(seen) != self.cells {
            return Shown::Blank;
        }
        seen
    }
}
