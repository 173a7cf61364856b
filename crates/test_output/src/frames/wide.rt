//! Characters of two columns in a buffer. The second cell of one is written as U+0000.

use crate::frames::rows::pair;
use crossterm_command::ColorOutput;
use crossterm_style::{Color, ContentStyle};
use screen::{Buffer, Cell, CellFault, Screen};
use std::alloc::{AllocError, Global};
use test_support::expect;

/// A column and a character that is set there, in blue, over a red '.漢漢.'; the result; the characters then, and their colours by a letter.
type Over = (u16, char, Result<(), CellFault>, &'static str, &'static str);

const OVER: [Over; 9] = [
    (0, 'x', Ok(()), "x漢\u{0}漢\u{0}.", "brrrrr"),
    (1, 'x', Ok(()), ".x 漢\u{0}.", "rbrrrr"),
    (2, 'x', Ok(()), ". x漢\u{0}.", "rrbrrr"),
    (5, 'x', Ok(()), ".漢\u{0}漢\u{0}x", "rrrrrb"),
    (0, '字', Ok(()), "字\u{0} 漢\u{0}.", "bbrrrr"),
    (1, '字', Ok(()), ".字\u{0}漢\u{0}.", "rbbrrr"),
    (2, '字', Ok(()), ". 字\u{0} .", "rrbbrr"),
    (4, '字', Ok(()), ".漢\u{0} 字\u{0}", "rrrrbb"),
    (
        5,
        '字',
        Err(CellFault::LastColumn),
        ".漢\u{0}漢\u{0}.",
        "rrrrrr",
    ),
];

fn colored(color: Color) -> ContentStyle {
    ContentStyle {
        foreground_color: Some(color),
        ..ContentStyle::new()
    }
}

fn letter(cell: &Cell) -> char {
    match cell.style().foreground_color {
        Some(Color::Red) => 'r',
        Some(Color::Blue) => 'b',
        _ => '.',
    }
}

/// Whether these are a buffer's characters and their colours.
fn shows(buffer: &Buffer, symbols: &str, letters: &str) -> bool {
    let cells = buffer.cells();
    cells.iter().map(|cell| cell.symbol()).eq(symbols.chars())
        && cells.iter().map(|cell| letter(cell)).eq(letters.chars())
}

/// Whether a character is set so.
fn is_set(mut buffer: Buffer, over: &Over) -> bool {
    let (column, symbol, result, symbols, letters) = *over;
    let printed = buffer.print(0, 0, ".漢漢.", colored(Color::Red));
    let came = buffer.set(column, 0, symbol, colored(Color::Blue));
    printed == Ok(6) && came == result && shows(&buffer, symbols, letters)
}

/// Whether a text is printed over halves, and an empty one leaves all as it was.
fn are_printed(mut buffer: Buffer) -> bool {
    let all = buffer.print(0, 0, "漢漢漢.", colored(Color::Red));
    let none = buffer.print(1, 0, "", colored(Color::Blue));
    let kept = shows(&buffer, "漢\u{0}漢\u{0}漢\u{0}.", "rrrrrrr");
    let some = buffer.print(1, 0, "a字b", colored(Color::Blue));
    all == Ok(7)
        && none == Ok(0)
        && kept
        && some == Ok(4)
        && shows(&buffer, " a字\u{0}b .", "rbbbbrr")
}

/// Widths, and two rows that are filled with pairs.
const FILLED: [(u16, &str, &str); 3] = [
    (4, "字\u{0}字\u{0}字\u{0}字\u{0}", "bbbbbbbb"),
    (3, "字\u{0} 字\u{0} ", "bbbbbb"),
    (1, "  ", "bb"),
];

/// Whether rows are filled so.
fn is_filled(mut buffer: Buffer, symbols: &str, letters: &str) -> bool {
    buffer.fill('字', colored(Color::Blue)).is_ok() && shows(&buffer, symbols, letters)
}

#[test]
fn halves_become_spaces(rt: HostRuntime) -> Result<(), AllocError> {
    for over in &OVER {
        expect!(rt; is_set(Buffer::new(rt.alloc(), 6, 1)?, over), over.3);
    }
    expect!(rt; are_printed(Buffer::new(rt.alloc(), 7, 1)?));
    for (width, symbols, letters) in FILLED {
        expect!(rt; is_filled(Buffer::new(rt.alloc(), width, 2)?, symbols, letters), symbols);
    }
    Ok(())
}

/// Whether a frame prints these characters and nothing else, after a move to a row and a column from 1.
fn prints(screen: &mut Screen, alloc: Global, buffer: &Buffer, place: &str, text: &str) -> bool {
    let mut bytes: Vec<u8> = Vec::new(alloc);
    if screen
        .draw(&mut bytes, ColorOutput::Enabled, buffer, None)
        .is_err()
    {
        return false;
    }
    let Some(rest) = bytes.as_slice().strip_prefix(b"\x1b[?2026h\x1b[") else {
        return false;
    };
    let Some(rest) = rest.strip_prefix(place.as_bytes()) else {
        return false;
    };
    let Some(rest) = rest.strip_prefix(b"H\x1b[0m") else {
        return false;
    };
    rest.strip_suffix(b"\x1b[0m\x1b[?25l\x1b[?2026l") == Some(text.as_bytes())
}

/// Whether a character of two columns is printed once, with no move behind it, and both columns are printed when it is gone.
fn are_drawn(alloc: Global, mut screen: Screen, mut buffer: Buffer) -> bool {
    let mut bytes: Vec<u8> = Vec::new(alloc);
    let first = screen.draw(&mut bytes, ColorOutput::Enabled, &buffer, None);
    let printed = buffer.print(1, 1, "a漢b", ContentStyle::new());
    let next = prints(&mut screen, alloc, &buffer, "2;2", "a漢b");
    let over_first = buffer.set(2, 1, 'x', ContentStyle::new());
    let second_left = prints(&mut screen, alloc, &buffer, "2;3", "x ");
    let back = buffer.set(2, 1, '字', ContentStyle::new());
    let whole = prints(&mut screen, alloc, &buffer, "2;3", "字");
    let over_second = buffer.set(3, 1, 'y', ContentStyle::new());
    let first_left = prints(&mut screen, alloc, &buffer, "2;3", " y");
    let are_set = over_first.is_ok() && back.is_ok() && over_second.is_ok();
    first.is_ok() && printed == Ok(4) && are_set && next && second_left && whole && first_left
}

#[test]
fn pairs_are_printed_once(rt: HostRuntime) -> Result<(), AllocError> {
    let (screen, buffer) = pair(rt.alloc(), 6, 2)?;
    expect!(rt; are_drawn(rt.alloc(), screen, buffer));
    Ok(())
}
