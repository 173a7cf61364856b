//! What is refused, by name.

use crate::frames::rows::pair;
use crossterm_command::{ColorOutput, CommandFault};
use crossterm_style::ContentStyle;
use screen::{Buffer, CellFault, DrawFault, Screen};
use std::alloc::{AllocError, Global};
use std::format;
use std::io::{self, ErrorKind};
use test_support::{expect, is_text};

/// Characters, and why no cell can hold them (Unicode Standard Annex 11; ECMA-48 for the control characters).
const ROWS: [(char, Option<CellFault>); 15] = [
    ('\u{0}', Some(CellFault::Control)),
    ('\u{1b}', Some(CellFault::Control)),
    ('\u{7f}', Some(CellFault::Control)),
    ('\u{9b}', Some(CellFault::Control)),
    ('\u{301}', Some(CellFault::NoWidth)),
    ('\u{200b}', Some(CellFault::NoWidth)),
    ('\u{17d8}', Some(CellFault::Wide)),
    ('\u{200d}', Some(CellFault::Joined)),
    ('\u{1f1e9}', Some(CellFault::Joined)),
    ('\u{1f3fd}', Some(CellFault::Joined)),
    ('\u{e0067}', Some(CellFault::Joined)),
    ('漢', None),
    ('😀', None),
    ('é', None),
    ('~', None),
];

fn are_refused(mut buffer: Buffer) -> bool {
    for (symbol, fault) in ROWS {
        if buffer.set(0, 1, symbol, ContentStyle::new()).err() != fault
            || buffer.fill(symbol, ContentStyle::new()).err() != fault
        {
            return false;
        }
    }
    let is_filled = buffer.cells().iter().all(|cell| cell.symbol() == '~');
    is_filled
        && buffer.set(2, 0, 'x', ContentStyle::new()) == Err(CellFault::Outside)
        && buffer.set(2, 0, '漢', ContentStyle::new()) == Err(CellFault::Outside)
        && buffer.set(0, 2, '\u{1b}', ContentStyle::new()) == Err(CellFault::Outside)
        && buffer.set(1, 0, '漢', ContentStyle::new()) == Err(CellFault::LastColumn)
        && buffer.set(1, 0, '\u{17d8}', ContentStyle::new()) == Err(CellFault::Wide)
}

/// Whether frames of another size and cursors outside are refused, with nothing written.
fn are_frames_refused(
    alloc: Global,
    mut screen: Screen,
    buffer: &Buffer,
    small: Result<Buffer, AllocError>,
) -> bool {
    let mut bytes: Vec<u8> = Vec::new(alloc);
    let colors = ColorOutput::Enabled;
    let is_size = match small {
        Ok(small) => {
            matches!(
                screen.draw(&mut bytes, colors, &small, None),
                Err(DrawFault::Size)
            )
        }
        Err(_) => false,
    };
    let right = screen.draw(&mut bytes, colors, buffer, Some((2, 0)));
    let below = screen.draw(&mut bytes, colors, buffer, Some((0, 2)));
    let is_cursor = matches!(right, Err(DrawFault::Cursor))
        && matches!(below, Err(DrawFault::Cursor));
    is_size && is_cursor && bytes.is_empty()
}

#[test]
fn faults_have_names(rt: HostRuntime) -> Result<(), AllocError> {
    let alloc = rt.alloc();
    expect!(rt; are_refused(Buffer::new(alloc, 2, 2)?));
    let (screen, buffer) = pair(alloc, 2, 2)?;
    expect!(rt; are_frames_refused(alloc, screen, &buffer, Buffer::new(alloc, 2, 1)));
    Ok(())
}

/// What a program prints of each fault, and of the error that it becomes.
const TEXTS: [(CellFault, &str); 8] = [
    (CellFault::Outside, "a cell outside the buffer"),
    (CellFault::Control, "a control character in a cell"),
    (CellFault::NoWidth, "a character of width 0 in a cell"),
    (CellFault::Wide, "a character of too many columns"),
    (
        CellFault::Joined,
        "a character that terminals join with others",
    ),
    (
        CellFault::ManyMarks,
        "a character with more than three marks",
    ),
    (
        CellFault::LastColumn,
        "a character of two columns in the last one",
    ),
    (
        CellFault::TooSmall,
        "a border in fewer than two columns or rows",
    ),
];

/// Whether a fault and the error that it becomes are shown so.
fn is_shown(alloc: Global, fault: DrawFault, want: &str) -> bool {
    is_text(format!(in alloc; "{fault}"), want)
        && is_text(format!(in alloc; "{}", io::Error::from(fault)), want)
}

fn have_texts(alloc: Global) -> bool {
    let are_cells_right = TEXTS.iter().all(|(fault, want)| is_text(
        format!(in alloc; "{fault}"),
        want,
    ));
    let are_errors_right = TEXTS.iter().all(|(fault, want)| is_text(
        format!(in alloc; "{}", io::Error::from(*fault)),
        want,
    ));
    let broken = DrawFault::Command(CommandFault::Text);
    are_cells_right
        && are_errors_right
        && is_shown(
            alloc,
            DrawFault::Size,
            "a buffer of another size than the screen",
        )
        && is_shown(alloc, DrawFault::Cursor, "a cursor outside the screen")
        && is_text(
            format!(in alloc; "{broken}"),
            "a frame that wasn't written whole",
        )
}

#[test]
fn faults_have_texts(rt: HostRuntime) -> Result<(), AllocError> {
    expect!(rt; have_texts(rt.alloc()));
    Ok(())
}

/// Whether each fault becomes an error of its kind. A writer's own error stays as it is.
fn have_kinds() -> bool {
    let writer = io::Error::from(ErrorKind::BrokenPipe);
    let broken = DrawFault::Command(CommandFault::Writer(writer));
    let text = DrawFault::Command(CommandFault::Text);
    io::Error::from(CellFault::Outside).kind() == ErrorKind::InvalidInput
        && io::Error::from(CellFault::Control).kind() == ErrorKind::InvalidInput
        && io::Error::from(CellFault::Wide).kind() == ErrorKind::InvalidInput
        && io::Error::from(CellFault::LastColumn).kind() == ErrorKind::InvalidInput
        && io::Error::from(DrawFault::Size).kind() == ErrorKind::InvalidInput
        && io::Error::from(DrawFault::Cursor).kind() == ErrorKind::InvalidInput
        && io::Error::from(broken).kind() == ErrorKind::BrokenPipe
        && io::Error::from(text).kind() == ErrorKind::Other
}

#[test]
fn faults_become_errors(rt: HostRuntime) -> Result<(), AllocError> {
    expect!(rt; have_kinds());
    Ok(())
}
