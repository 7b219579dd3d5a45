ghost use Rattle.std.specs.Prelude.{◌≡◌};
ghost use Rattle.panel.specs.Lines.{line_of};

use crate::face_panel::{Face, FacePanel};
use crate::numeral::{first_place, read, width, write};
use crate::shown::Shown;

/// The letters of the digits 0 to 9.
const LETTERS: [u8; 10] = *b"0123456789";

/// The face of a line: the best in decimal, a comma, the second if any, then spaces.
pub struct Line;

/// A panel of nine bytes: the best in decimal, a comma, the second if any, then spaces.
pub type LinePanel = FacePanel<Line, 9>;

impl FacePanel<Line, 9> {
    /// The nine bytes.
    pub fn bytes(&self) -> &[u8]
        ensures { result.now ≡ self.now.cells }
    {
        &self.cells[..]
    }
}

impl Face<9> for Line {
    ghost drawn = { line_of };

    fn draw(shown: Shown) -> [u8; 9] {
        let mut text = [b' '; 9];
        let Some(best) = shown.best() else {
            return text;
        };
        let comma = width(best);
        write(&mut text, comma, best, &LETTERS);
        text[comma] = b',';
        if let Some(second) = shown.second() {
            let end = comma + 1 + width(second);
            write(&mut text, end, second, &LETTERS);
        }
        text
    }

    fn guess(text: &[u8; 9]) -> Shown {
        let Some(comma) = first_place(text, b',') else {
            return Shown::Blank;
        };
        Shown::by(
            read(&text[..comma], &LETTERS),
            read(&text[comma..], &LETTERS),
        )
    }
}

#[cfg(test)]
mod tests {
    use super::*;
    use crate::{Panel, show_then_read};

    #[test]
    fn lines(rt: HostRuntime) {
        let mut panel = LinePanel::new();
        assert!(rt; panel.cells == *b"         ");
        assert_eq!(rt;
            show_then_read(&mut panel, 1203, Some(10)),
            Shown::Pair(1203, 10)
        );
        assert!(rt; panel.cells == *b"1203,10  ");
        assert_eq!(rt;
            show_then_read(&mut panel, 4000, Some(4000)),
            Shown::Pair(4000, 4000)
        );
        assert!(rt; panel.cells == *b"4000,4000");
        assert_eq!(rt; show_then_read(&mut panel, 1, None), Shown::Best(1));
        assert!(rt; panel.cells == *b"1,       ");
        assert_eq!(rt; show_then_read(&mut panel, 1, Some(4001)), Shown::Blank);
        assert!(rt; panel.cells == *b"         ");
    }

    #[test]
    fn no_such_line(rt: HostRuntime) {
        let mut panel = LinePanel::new();
        panel.cells = *b"0012,7   ";
        assert_eq!(rt; panel.shown(), Shown::Blank);
        panel.cells = *b"12       ";
        assert_eq!(rt; panel.shown(), Shown::Blank);
    }
}
