//! Settings: how a style is set after another one.
ghost use Rattle.std.specs.Prelude.{◌≡◌, ◌↔◌, IsTrue, None, false};
ghost use Rattle.crossterm_style.specs.Attributes.{has_attribute};
ghost use Rattle.crossterm_style.specs.declared.types.attribute.Attribute.TheVariants.{Reset};
ghost use Rattle.screen.specs.inside.Settings.{HasByteColors, HasSameRest, Recolors, Sets, SetsFrom, Changes};

use crate::packed::{PackedColor, PackedStyle, is_same_color, is_same_set, is_same_style};
use crossterm_style::laws::style_fits;
use crossterm_style::{Attribute, Attributes, Color, ContentStyle};

/// How a style is set.
#[derive(Clone, Copy, Debug)]
pub(crate) enum Setting {
    /// It is set already.
    Kept,
    /// The colours that are there are set, and the rest stays.
    Colors(ContentStyle),
    /// All of it is set, whatever was set before.
    Whole(ContentStyle),
}

/// What is written of a colour: nothing if it stays, and the terminal's own colour if none is wanted.
fn change_of(from: PackedColor, to: PackedColor) -> Option<Color>
    ensures { Changes from to result }
{
    if is_same_color(from, to) {
        return None;
    }
    match to.color() {
        None => Some(Color::Reset),
        Some(color) => Some(color),
    }
}

/// The colours that turn one style into another.
fn recolored(from: &PackedStyle, to: &PackedStyle) -> ContentStyle
    ensures { Recolors from.now to.now result }
{
    ContentStyle {
        foreground_color: change_of(from.foreground, to.foreground),
        background_color: change_of(from.background, to.background),
        underline_color: change_of(from.underline, to.underline),
        attributes: Attributes::none(),
    }
}

/// Whether two styles differ in nothing but colours. `Reset` in a set clears the colours too, so colours alone don't do then.
fn has_same_rest(from: &PackedStyle, to: &PackedStyle) -> bool
    ensures { IsTrue result ↔ HasSameRest from.now to.now }
{
    if to.attributes.has(Attribute::Reset) {
        return false;
    }
    is_same_set(from.attributes, to.attributes)
}

/// Whether a colour goes back to none.
fn goes_back(from: PackedColor, to: PackedColor) -> bool {
    from.is_some() && !to.is_some()
}

/// Whether a colour stays.
fn stays(from: PackedColor, to: PackedColor) -> bool {
    from.is_some() && is_same_color(from, to)
}

/// Whether the colours that differ are shorter to write than a reset and the whole style: no colour goes back to none, or another one stays.
fn is_shorter(from: &PackedStyle, to: &PackedStyle) -> bool {
    if stays(from.foreground, to.foreground)
        || stays(from.background, to.background)
        || stays(from.underline, to.underline)
    {
        return true;
    }
    !goes_back(from.foreground, to.foreground)
        && !goes_back(from.background, to.background)
        && !goes_back(from.underline, to.underline)
}

/// How a style is set after another one.
fn setting_from(from: &PackedStyle, to: &PackedStyle) -> Setting
    ensures { SetsFrom from.now to.now result }
{
    if is_same_style(from, to) {
        return Setting::Kept;
    }
    if has_same_rest(from, to) {
        if is_shorter(from, to) {
            return Setting::Colors(recolored(from, to));
        }
    }
    Setting::Whole(to.style())
}

/// The numbers of its colours are bytes. It does nothing when it runs.
fn setting_fits(setting: &Setting)
    ensures { HasByteColors setting.now }
{
    match setting {
        Setting::Kept => {}
        Setting::Colors(change) => style_fits(*change),
        Setting::Whole(style) => style_fits(*style),
    }
}

/// How a style is set if that one is known to be set, or none is known.
pub(crate) fn setting_of(set: Option<PackedStyle>, to: &PackedStyle) -> Setting
    ensures sets { Sets set to.now result }
    ensures fits { HasByteColors result }
{
    let setting = match set {
        None => Setting::Whole(to.style()),
        Some(from) => setting_from(&from, to),
    };
    setting_fits(&setting);
    setting
}
