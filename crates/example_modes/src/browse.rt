//! A full-screen list to browse by keys and mouse, within a border, drawn by a `Screen`.
//!
//! `example browse` runs it in a terminal. The arrows, the wheel and a click choose a row; Esc ends it.

use crossterm::event::{Event, KeyCode, KeyEvent, MouseButton, MouseEvent, MouseEventKind};
use crossterm::style::{Attribute, Attributes, ColorOutput, ContentStyle};
use own_terminal::{Feature, Tty};
use screen::{Alignment, Border, Buffer, CellFault, ListState, Rect, Screen};
use std::alloc::AllocError;
use std::io::{self, ErrorKind, Write};
use std::sync::Wait;

const COLORS: ColorOutput = ColorOutput::Enabled;

/// What is listed: the control functions of ECMA-48 that move the cursor, with the sections that define them.
static ROWS: [&str; 12] = [
    "CBT  cursor backward tabulation   8.3.7",
    "CHA  cursor character absolute    8.3.9",
    "CHT  cursor forward tabulation    8.3.10",
    "CNL  cursor next line             8.3.12",
    "CPL  cursor preceding line        8.3.13",
    "CUB  cursor left                  8.3.18",
    "CUD  cursor down                  8.3.19",
    "CUF  cursor right                 8.3.20",
    "CUP  cursor position              8.3.21",
    "CUU  cursor up                    8.3.22",
    "CVT  cursor line tabulation       8.3.23",
    "VPA  line position absolute       8.3.158",
];

/// The title in the border.
const TITLE: &str = " Control functions ";

/// A list, and the screen that it is drawn on.
#[derive(Drop)]
struct Browser {
    list: ListState,
    buffer: Buffer,
    screen: Screen,
}

/// The style of a row: the chosen one is reversed.
fn style_of(is_chosen: bool) -> ContentStyle {
    let mut style = ContentStyle::new();
    if is_chosen {
        style.attributes = Attributes::none().with(Attribute::Reverse);
    }
    style
}

impl Browser {
    /// The place of the rows: within the border.
    fn rows(&self) -> Rect {
        self.buffer.area().inner(1, 1)
    }

    /// Puts a border with a title into the buffer, if there is room for one.
    fn frame(&mut self) -> Result<(), CellFault> {
        let area = self.buffer.area();
        match self.buffer.border(area, Border::PLAIN, ContentStyle::new()) {
            Ok(()) => {}
            Err(CellFault::TooSmall) => return Ok(()),
            Err(fault) => return Err(fault),
        }
        let top = area.inner(1, 0);
        self.buffer
            .print_in(top, 0, Alignment::Center, TITLE, ContentStyle::new())?;
        Ok(())
    }

    /// Puts the border and the rows that are in sight into the buffer.
    fn fill(&mut self) -> Result<(), CellFault> {
        self.buffer.fill(' ', ContentStyle::new())?;
        self.frame()?;
        let rows = self.rows();
        for row in 0..rows.height {
            let Some(at) = self.list.entry_at(row) else {
                break;
            };
            let style = style_of(self.list.chosen() == Some(at));
            if let Some(text) = ROWS.get(at) {
                self.buffer
                    .print_in(rows, row, Alignment::Left, text, style)?;
            }
        }
        Ok(())
    }

    /// Draws the list.
    fn draw<W: Write>(&mut self, out: &mut W) -> io::Result<()> {
        self.fill()?;
        self.screen.draw(out, COLORS, &self.buffer, None)?;
        out.flush()
    }

    fn key(&mut self, key: &KeyEvent) {
        match key.code {
            KeyCode::Up => self.list.up(),
            KeyCode::Down => self.list.down(),
            KeyCode::Home => self.list.first(),
            KeyCode::End => self.list.last(),
            _ => {}
        }
    }

    /// Chooses the row at a place, if there is one.
    fn click(&mut self, column: u16, row: u16) {
        let rows = self.rows();
        if rows.contains(column, row) {
            if let Some(at) = self.list.entry_at(row - rows.y) {
                self.list.choose(at);
            }
        }
    }

    fn mouse(&mut self, mouse: &MouseEvent) {
        match mouse.kind {
            MouseEventKind::ScrollUp => self.list.up(),
            MouseEventKind::ScrollDown => self.list.down(),
            MouseEventKind::Down(MouseButton::Left) => self.click(mouse.column, mouse.row),
            _ => {}
        }
    }

    /// Takes another size.
    fn resize(&mut self, columns: u16, rows: u16) -> Result<(), AllocError> {
        self.buffer.resize(columns, rows)?;
        self.screen.resize(columns, rows)?;
        let height = self.rows().height;
        self.list.resize(ROWS.len(), height);
        Ok(())
    }

    /// Does what an event means, and returns whether to go on.
    fn take(&mut self, event: &Event) -> Result<bool, AllocError> {
        match event {
            Event::Key(key) if key.code == KeyCode::Esc => return Ok(false),
            Event::Key(key) => self.key(key),
            Event::Mouse(mouse) => self.mouse(mouse),
            Event::Resize(columns, rows) => self.resize(*columns, *rows)?,
            _ => {}
        }
        Ok(true)
    }
}

/// A screen of its own, with no cursor, on which the mouse is reported.
fn enter(tty: &mut Tty<'_>) -> io::Result<()> {
    tty.enable_raw_mode()?;
    tty.turn_on(Feature::AlternateScreen)?;
    tty.turn_on(Feature::HiddenCursor)?;
    tty.turn_on(Feature::MouseCapture)
}

/// Draws the list, and takes an event. Returns whether to go on.
fn turn(rt: &impl Wait, tty: &mut Tty<'_>, browser: &mut Browser) -> io::Result<bool> {
    browser.draw(&mut tty.out)?;
    let event = tty.read(rt)?;
    Ok(browser.take(&event)?)
}

/// Browses until Esc, or the end of input.
///
/// # Errors
///
/// Those of the terminal and its writer, but for the end of input, and `OutOfMemory` if memory was refused. What was turned on is turned
/// off when the terminal is dropped.
pub fn run(rt: &impl Wait, tty: &mut Tty<'_>) -> io::Result<()> {
    let (columns, rows) = tty.size()?;
    let buffer = Buffer::new(tty.alloc, columns, rows)?;
    let screen = Screen::new(tty.alloc, columns, rows)?;
    let list = ListState::new(ROWS.len(), buffer.area().inner(1, 1).height);
    let mut browser = Browser {
        list,
        buffer,
        screen,
    };
    enter(tty)?;
    for _ in rt.forever() {
        match turn(rt, tty, &mut browser) {
            Ok(true) => {}
            Ok(false) => break,
            Err(error) if error.kind() == ErrorKind::UnexpectedEof => break,
            Err(error) => return Err(error),
        }
    }
    Ok(())
}
