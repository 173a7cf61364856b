//! Commands that show as the text that they write.

use crossterm::cursor::{
    DisableBlinking, EnableBlinking, Hide, MoveDown, MoveLeft, MoveRight, MoveTo, MoveToColumn,
    MoveToNextLine, MoveToPreviousLine, MoveToRow, MoveUp, RestorePosition, SavePosition,
    SetCursorStyle, Show,
};
use crossterm::style::{
    Color, Colors, Print, PrintStyledContent, ResetColor, SetBackgroundColor, SetColors,
    SetForegroundColor, Stylize,
};
use crossterm::terminal::{Clear, ClearType, ScrollDown, ScrollUp, SetSize};
use std::alloc::Global;
use test_support::{expect, is_text};

/// Whether moves to a place show so.
fn places_show(alloc: Global) -> bool {
    let (place, column, row) = (MoveTo(65535, 0), MoveToColumn(65535), MoveToRow(8));
    let (next, previous) = (MoveToNextLine(2), MoveToPreviousLine(3));
    let text = format!(in alloc; "{place}{column}{row}{next}{previous}");
    is_text(text, "\x1b[1;65536H\x1b[65536G\x1b[9d\x1b[2E\x1b[3F")
}

/// Whether moves by steps show so.
fn steps_show(alloc: Global) -> bool {
    let (up, down, right, left) = (MoveUp(0), MoveDown(1), MoveRight(22), MoveLeft(65535));
    let text = format!(in alloc; "{up}{down}{right}{left}{SavePosition}{RestorePosition}");
    is_text(text, "\x1b[0A\x1b[1B\x1b[22C\x1b[65535D\x1b7\x1b8")
}

/// Whether the looks of the cursor show so.
fn looks_show(alloc: Global) -> bool {
    let style = SetCursorStyle::SteadyBar;
    let text = format!(in alloc; "{Hide}{Show}{EnableBlinking}{DisableBlinking}{style}");
    is_text(text, "\x1b[?25l\x1b[?25h\x1b[?12h\x1b[?12l\x1b[6 q")
}

/// Whether commands of the terminal show so.
fn screens_show(alloc: Global) -> bool {
    let (clear, size) = (Clear(ClearType::FromCursorDown), SetSize(80, 24));
    let (up, still, down) = (ScrollUp(1), ScrollUp(0), ScrollDown(10));
    let text = format!(in alloc; "{clear}{up}{still}{down}{size}");
    is_text(text, "\x1b[J\x1b[1S\x1b[10T\x1b[8;24;80t")
}

const RED: Color = Color::Red;

const RED_ON_BLUE: SetColors = SetColors(Colors {
    foreground: Some(Color::Red),
    background: Some(Color::Blue),
});

/// Whether commands of colours show so.
fn colors_show(alloc: Global) -> bool {
    let (red, back) = (SetForegroundColor(RED), SetBackgroundColor(RED));
    let text = format!(in alloc; "{red}{back}{RED_ON_BLUE}{ResetColor}");
    is_text(text, "\x1b[38;5;9m\x1b[48;5;9m\x1b[38;5;9;48;5;12m\x1b[0m")
}

/// Whether a text, and a content in italics, show so.
fn prints_show(alloc: Global) -> bool {
    let (word, letter) = (Print("hi"), PrintStyledContent('x'.italic()));
    is_text(format!(in alloc; "{word}{letter}"), "hi\x1b[3mx\x1b[0m")
}

#[test]
fn commands_show_as_they_are_written(rt: HostRuntime) {
    expect!(rt; places_show(rt.alloc()));
    expect!(rt; steps_show(rt.alloc()));
    expect!(rt; looks_show(rt.alloc()));
    expect!(rt; screens_show(rt.alloc()));
    expect!(rt; colors_show(rt.alloc()));
    expect!(rt; prints_show(rt.alloc()));
}
