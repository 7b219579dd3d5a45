//! What each panel promises, in the words of its own definitions.

ghost use Rattle.std.specs.Prelude.{◌≡◌, ◌⊎◌};
ghost use Rattle.panel.specs.declared.shown.Shown.TheVariants.{Blank};
ghost use Rattle.panel.specs.Shows.{told};
ghost use Rattle.panel.specs.Lines.{line_of, line_shows};
ghost use Rattle.panel.specs.Digits.{digits_lit, digits_show};

use crate::Panel;
use crate::digit_panel::DigitPanel;
use crate::line_panel::LinePanel;
use crate::shown::Shown;

fn show_line(panel: &mut LinePanel, best: u32, second: Option<u32>) -> Shown
    ensures bytes { panel.new.cells ≡ line_of (told best second) }
    ensures shown { line_shows panel.new.cells ≡ told best second }
    ensures read { result ≡ line_shows panel.new.cells }
{
    panel.show(best, second);
    panel.shown()
}

fn read_line(panel: &LinePanel) -> Shown
    ensures shown { result ≡ line_shows panel.now.cells }
    ensures bytes { (result ≡ Blank) ⊎ (line_of result ≡ panel.now.cells) }
{
    panel.shown()
}

fn blank_line(panel: &mut LinePanel)
    ensures bytes { panel.new.cells ≡ line_of Blank }
    ensures shown { line_shows panel.new.cells ≡ Blank }
{
    panel.blank();
}

fn new_line() -> LinePanel
    ensures bytes { result.cells ≡ line_of Blank }
    ensures shown { line_shows result.cells ≡ Blank }
{
    LinePanel::new()
}

fn show_digits(panel: &mut DigitPanel, best: u32, second: Option<u32>) -> Shown
    ensures digits { panel.new.cells ≡ digits_lit (told best second) }
    ensures shown { digits_show panel.new.cells ≡ told best second }
    ensures read { result ≡ digits_show panel.new.cells }
{
    panel.show(best, second);
    panel.shown()
}

fn read_digits(panel: &DigitPanel) -> Shown
    ensures shown { result ≡ digits_show panel.now.cells }
    ensures digits { (result ≡ Blank) ⊎ (digits_lit result ≡ panel.now.cells) }
{
    panel.shown()
}

fn blank_digits(panel: &mut DigitPanel)
    ensures digits { panel.new.cells ≡ digits_lit Blank }
    ensures shown { digits_show panel.new.cells ≡ Blank }
{
    panel.blank();
}

fn new_digits() -> DigitPanel
    ensures digits { result.cells ≡ digits_lit Blank }
    ensures shown { digits_show result.cells ≡ Blank }
{
    DigitPanel::new()
}

#[test]
fn best_alone_and_blank(rt: HostRuntime) {
    let mut line = new_line();
    assert_eq!(rt; show_line(&mut line, 7, None), Shown::Best(7));
    blank_line(&mut line);
    assert_eq!(rt; read_line(&line), Shown::Blank);
    assert!(rt; line.cells == [b' '; 9]);
    let mut digits = new_digits();
    assert_eq!(rt; show_digits(&mut digits, 7, None), Shown::Best(7));
    assert_eq!(rt; read_digits(&digits), Shown::Best(7));
    blank_digits(&mut digits);
    assert!(rt; digits.cells == [0; 8]);
}
