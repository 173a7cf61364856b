//! Names in columns.
ghost use Rattle.std.specs.Prelude.{◌≡◌, IfOk, chars, map, min, string_bytes};
ghost use Rattle.line_editor.specs.Views.{width_of};
ghost use Rattle.prompt.specs.Shown as spec;
ghost use Rattle.prompt.specs.Shown.{listing, per_row, widest};

use crate::prompts::columns_of;
use std::alloc::{AllocError, Global};

/// The columns of a text, or 65,535 if that is less.
fn width_of(text: &str) -> u16
    ensures { result ≡ min (width_of (chars text.now)) 65535 }
{
    let mut columns = 0u16;
    for c in text.chars() {
        columns = columns.saturating_add(columns_of(c) as u16);
    }
    columns
}

/// The columns of the widest of some names.
fn widest(names: &[&str]) -> u16
    ensures { result ≡ widest (map (λ n. n.now) names.now) }
{
    let mut columns = 0u16;
    for name in names {
        columns = columns.max(width_of(name));
    }
    columns
}

/// How many names are in a row of this width, if each column has so many.
fn per_row(width: u16, columns: u16) -> usize
    ensures { result ≡ per_row width columns }
{
    let count = (usize::from(width) + 1) / (usize::from(columns) + 2);
    count.max(1)
}

/// Lists names in rows of this width, each behind a line feed.
pub(crate) fn listing(alloc: Global, width: u16, names: &[&str]) -> Result<String, AllocError>
    ensures { IfOk result (λ text. string_bytes text ≡ listing width (map (λ n. n.now) names.now)) }
{
    let columns = widest(names);
    let count = per_row(width, columns);
    let mut text = String::new(alloc);
    let mut gap = 0usize;
    for (place, name) in names.iter().enumerate() {
        if place % count == 0 {
            text.push('\n')?;
        } else {
            let blanks = " ".repeat(alloc, gap)?;
            text.push_str(blanks.as_str())?;
        }
        text.push_str(name)?;
        gap = (usize::from(columns) + 2).saturating_sub(usize::from(width_of(name)));
    }
    Ok(text)
}
