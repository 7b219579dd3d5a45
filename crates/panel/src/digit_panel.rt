ghost use Rattle.std.specs.Prelude.{◌≡◌};
ghost use Rattle.panel.specs.Digits.{digits_lit};

use crate::face_panel::{Face, FacePanel};
use crate::numeral::{read, write};
use crate::shown::Shown;

/// The segments of the digits 0 to 9: a to g are bits 0 to 6.
const SEGMENTS: [u8; 10] = [0x3F, 0x06, 0x5B, 0x4F, 0x66, 0x6D, 0x7D, 0x07, 0x7F, 0x6F];

/// The face of drawn digits: four for the best and four for the second, right-aligned, dark where there is none.
pub struct Digits;

/// A panel of eight digits: four for the best and four for the second, right-aligned, dark where there is none.
pub type DigitPanel = FacePanel<Digits, 8>;

impl FacePanel<Digits, 8> {
    /// The eight digits, each by its segments.
    pub fn digits(&self) -> &[u8]
        ensures { result.now ≡ self.now.cells }
    {
        &self.cells[..]
    }
}

impl Face<8> for Digits {
    ghost drawn = { digits_lit };

    fn draw(shown: Shown) -> [u8; 8] {
        let mut lit = [0; 8];
        let Some(best) = shown.best() else {
            return lit;
        };
        write(&mut lit, 4, best, &SEGMENTS);
        if let Some(second) = shown.second() {
            write(&mut lit, 8, second, &SEGMENTS);
        }
        lit
    }

    fn guess(lit: &[u8; 8]) -> Shown {
        Shown::by(read(&lit[..4], &SEGMENTS), read(&lit[4..], &SEGMENTS))
    }
}

#[cfg(test)]
mod tests {
    use super::*;
    use crate::{Panel, show_then_read};

    #[test]
    fn digits(rt: HostRuntime) {
        let mut panel = DigitPanel::new();
        assert!(rt; panel.cells == [0; 8]);
        assert_eq!(rt;
            show_then_read(&mut panel, 1203, Some(10)),
            Shown::Pair(1203, 10)
        );
        assert!(rt; panel.cells == [0x06, 0x5B, 0x3F, 0x4F, 0, 0, 0x06, 0x3F]);
        assert_eq!(rt; show_then_read(&mut panel, 4000, None), Shown::Best(4000));
        assert!(rt; panel.cells == [0x66, 0x3F, 0x3F, 0x3F, 0, 0, 0, 0]);
        assert_eq!(rt; show_then_read(&mut panel, 0, Some(1)), Shown::Blank);
        assert!(rt; panel.cells == [0; 8]);
    }

    #[test]
    fn no_such_digits(rt: HostRuntime) {
        let mut panel = DigitPanel::new();
        panel.cells = [0, 0x3F, 0x06, 0x06, 0, 0, 0, 0];
        assert_eq!(rt; panel.shown(), Shown::Blank);
    }
}
