//! How many colours a terminal has.
ghost use Rattle.std.specs.Prelude.{◌≡◌, IsTrue, ◌↔◌, codes};
ghost use Rattle.crossterm_style.specs.Counts.{CountsColors, CountsColorsOf, HasPart};

/// How many, if nothing is known.
const FEW: u16 = 8;

/// Whether a text has a part.
fn has_part(text: &str, part: &str) -> bool
    ensures { IsTrue result ↔ HasPart text.now part.now }
{
    text.contains(part)
}

/// How many colours a terminal of this name has.
fn count_by_name(name: &str) -> u16
    ensures { CountsColors name.now result }
{
    if has_part(name, "24bit") || has_part(name, "truecolor") {
        u16::MAX
    } else if has_part(name, "256") {
        256
    } else {
        FEW
    }
}

/// How many colours a terminal has, by the values of `COLORTERM` and `TERM`, of which the first that is there decides.
///
/// `24bit` and `truecolor` mean 65535, which represents all; `256` means 256, anything else 8.
pub fn available_color_count(colorterm: Option<&str>, term: Option<&str>) -> u16
    ensures { CountsColorsOf colorterm.entry term.entry result }
{
    match colorterm.or(term) {
        Some(name) => count_by_name(name),
        None => FEW,
    }
}
