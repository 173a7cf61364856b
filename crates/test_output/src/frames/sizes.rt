//! The smallest sizes and the widest.

use crate::frames::paper::{Paper, Sheet};
use crossterm_command::ColorOutput;
use screen::Screen;
use std::alloc::{AllocError, Global};
use test_support::expect;

/// A screen of another size, which becomes one of this size.
fn resized(alloc: Global, width: u16, height: u16) -> Result<Screen, AllocError> {
    let mut screen = Screen::new(alloc, 7, 7)?;
    screen.resize(width, height)?;
    Ok(screen)
}

/// Whether a frame is shown on a paper.
fn is_shown(alloc: Global, screen: &mut Screen, sheet: &Sheet, paper: &mut Paper) -> bool {
    let mut bytes: Vec<u8> = Vec::new(alloc);
    let drawn = screen.draw(&mut bytes, ColorOutput::Enabled, &sheet.buffer, None);
    paper.write(&bytes);
    drawn.is_ok() && paper.shows(&sheet.marks, None)
}

/// Changes all cells of the first row.
fn change(sheet: &mut Sheet, style: u32) {
    for column in 0..sheet.buffer.width() {
        sheet.set(column, 0, "ß", style);
    }
}

/// Whether frames are shown: the first, one with all cells changed, and on another paper one after the screen has forgotten all.
fn are_shown(
    alloc: Global,
    mut screen: Screen,
    mut sheet: Sheet,
    mut paper: Paper,
    mut other: Paper,
) -> bool {
    let first = is_shown(alloc, &mut screen, &sheet, &mut paper);
    change(&mut sheet, 0);
    let second = is_shown(alloc, &mut screen, &sheet, &mut paper);
    screen.forget();
    change(&mut sheet, 1);
    first && second && is_shown(alloc, &mut screen, &sheet, &mut other)
}

#[test]
fn sizes_from_the_least_to_the_widest(rt: HostRuntime) -> Result<(), AllocError> {
    let alloc = rt.alloc();
    for (width, height) in [(0, 0), (1, 1), (1, 3), (65_535, 1)] {
        let screen = resized(alloc, width, height)?;
        let sheet = Sheet::new(alloc, width, height)?;
        let paper = Paper::new(alloc, width, height)?;
        let other = Paper::new(alloc, width, height)?;
        expect!(rt; are_shown(alloc, screen, sheet, paper, other));
    }
    Ok(())
}
