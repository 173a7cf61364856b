//! Styles in their place, and what styled contents show.

use crossterm_style::{AsStyle, Attribute, Attributes, Color, ContentStyle};
use crossterm_stylize::Stylize;
use std::alloc::{AllocError, Global};
use test_support::{expect, is_text};

/// A style with every field.
fn full() -> ContentStyle {
    ContentStyle {
        foreground_color: Some(Color::Red),
        background_color: Some(Color::Blue),
        underline_color: Some(Color::Green),
        attributes: Attribute::Bold.into(),
    }
}

#[test]
fn defaults_are_empty(rt: HostRuntime) {
    expect!(rt; Attributes::default() == Attributes::none());
    expect!(rt; ContentStyle::default() == ContentStyle::new());
}

/// Whether a style is there, is changed in its place and is replaced.
fn has_style<S: AsStyle + Drop>(mut styled: S, style: ContentStyle) -> bool {
    let is_there = *styled.style() == style;
    *styled.style_mut() = full();
    let is_changed = *styled.style() == full();
    is_there && is_changed && *styled.with_style(style).style() == style
}

#[test]
fn contents_have_styles(rt: HostRuntime) {
    expect!(rt; has_style('x'.red(), ContentStyle::new().red()));
    expect!(rt; has_style(ContentStyle::new().bold(), ContentStyle::new().bold()));
}

/// What a text of its own, in bold and red, shows.
fn owned_text(alloc: Global) -> Result<String, AllocError> {
    let styled = String::from_str(alloc, "x")?.bold().red();
    format!(in alloc; "{styled}")
}

/// What a lent text shows, styled by three calls.
fn lent_text(alloc: Global) -> Result<String, AllocError> {
    format!(in alloc; "{}", "x".red().on_blue().bold())
}

#[test]
fn styled_contents_show(rt: HostRuntime) {
    let text = "\x1b[48;5;12m\x1b[38;5;9m\x1b[1mx\x1b[0m";
    expect!(rt; is_text(lent_text(rt.alloc()), text));
    expect!(rt; is_text(owned_text(rt.alloc()), "\x1b[38;5;9m\x1b[1mx\x1b[0m"));
}
