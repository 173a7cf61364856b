//! Random frames, each read back on paper.

use crate::frames::paper::{Paper, Sheet};
use crossterm_command::ColorOutput;
use screen::Screen;
use std::alloc::Global;
use std::io;
use test_support::expect;

/// How many frames are drawn.
const FRAMES: u32 = 50;

/// The number from which the random ones follow.
const SEED: u32 = 20_261_124;

const SYMBOLS: [&str; 12] = [
    "a",
    "b",
    " ",
    "~",
    "é",
    "Ж",
    "─",
    "𝔸",
    "e\u{301}",
    "e\u{301}\u{323}",
    "a\u{308}\u{304}\u{300}",
    "─\u{336}",
];

/// The next of the random numbers, below a limit.
fn number(state: &mut u32, below: u16) -> u16 {
    *state = state.wrapping_mul(1_664_525).wrapping_add(1_013_904_223);
    ((*state / 65_536) as u16).checked_rem(below).unwrap_or(0)
}

/// Sets some cells, and returns whether each was set as it should be.
fn change(sheet: &mut Sheet, state: &mut u32) -> bool {
    let mut is_right = true;
    for _ in 0..number(state, 9) {
        let column = number(state, 12);
        let row = number(state, 6);
        let text = *SYMBOLS.get(usize::from(number(state, 12))).unwrap_or(&"?");
        let style = u32::from(number(state, 7));
        is_right = sheet.set(column, row, text, style) && is_right;
    }
    is_right
}

/// How many characters the cells have that differ.
fn count_changed(old: &Sheet, new: &Sheet) -> u32 {
    let mut count = 0u32;
    for (left, right) in old.marks.iter().zip(new.marks.iter()) {
        if left != right {
            count = count.saturating_add(right.count());
        }
    }
    count
}

/// How many cells stay that are in gaps of up to three between some that differ in the same row. They may be printed again.
fn count_near(old: &Sheet, new: &Sheet) -> u32 {
    let mut count = 0u32;
    let mut gap = 4u32;
    let mut column = 0u32;
    for (left, right) in old.marks.iter().zip(new.marks.iter()) {
        if column == 11 {
            column = 0;
            gap = 4;
        }
        if left == right {
            gap = gap.saturating_add(1);
        } else {
            if gap <= 3 {
                count = count.saturating_add(gap);
            }
            gap = 0;
        }
        column = column.saturating_add(1);
    }
    count
}

/// Draws frames one after another on one paper, and returns whether each is shown, and no more characters were printed for it than may be.
fn are_shown(alloc: Global) -> io::Result<bool> {
    let mut state = SEED;
    let mut screen = Screen::new(alloc, 11, 5)?;
    let mut paper = Paper::new(alloc, 11, 5)?;
    // Both sheets get the same changes, and the old one gets them a frame later.
    let mut old = Sheet::new(alloc, 11, 5)?;
    let mut new = Sheet::new(alloc, 11, 5)?;
    for _ in 0..FRAMES {
        let before = state;
        if !change(&mut new, &mut state) {
            return Ok(false);
        }
        let cursor = if number(&mut state, 3) == 0 {
            None
        } else {
            Some((number(&mut state, 11), number(&mut state, 5)))
        };
        let mut bytes: Vec<u8> = Vec::new(alloc);
        let drawn = screen.draw(&mut bytes, ColorOutput::Enabled, &new.buffer, cursor);
        paper.printed = 0;
        paper.write(&bytes);
        let wanted = count_changed(&old, &new);
        let most = wanted.saturating_add(count_near(&old, &new));
        if drawn.is_err() || !paper.shows(&new.marks, cursor) {
            return Ok(false);
        }
        if paper.printed < wanted || paper.printed > most {
            return Ok(false);
        }
        let mut again = before;
        change(&mut old, &mut again);
    }
    Ok(true)
}

#[test]
fn random_frames_are_shown(rt: HostRuntime) -> io::Result<()> {
    expect!(rt; are_shown(rt.alloc())?);
    Ok(())
}
