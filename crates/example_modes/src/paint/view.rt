//! What one painter sees: the colours, the picture and a line of help, as far as the window has room for them.

use crate::paint::canvas::{Canvas, LEFT, ROWS, WIDTH, color_of};
use crossterm::style::{ColorOutput, ContentStyle};
use screen::{Buffer, Screen};
use std::alloc::{AllocError, Global};
use std::io::{self, Write};

const HELP: &str = "drag: paint   right button: wipe   left: colours   x: blank   Esc: leave";

const SMALL: &str = "too small: the picture has 80 x 23";

/// The size of a window that nobody has reported yet.
const FIRST: (u16, u16) = (80, 24);

/// The greatest size that is kept. A guest may report any.
const MOST: (u16, u16) = (250, 100);

/// One painter's window, and what it shows.
#[derive(Drop)]
pub struct View {
    buffer: Buffer,
    screen: Screen,
    // The size that the next frame has, if it is another one.
    size: Option<(u16, u16)>,
    // The version of the picture that is shown, if that is known.
    shown: Option<u64>,
}

impl View {
    /// A window of 80 columns and 24 rows, of which nothing is known.
    ///
    /// # Errors
    ///
    /// `AllocError` if memory was refused.
    pub fn new(alloc: Global) -> Result<View, AllocError> {
        let (columns, rows) = FIRST;
        Ok(View {
            buffer: Buffer::new(alloc, columns, rows)?,
            screen: Screen::new(alloc, columns, rows)?,
            size: None,
            shown: None,
        })
    }

    /// The window has another size, and nothing is known of it.
    pub fn resize(&mut self, columns: u16, rows: u16) {
        self.size = Some((columns.min(MOST.0), rows.min(MOST.1)));
        self.shown = None;
    }

    /// The next frame is drawn as a whole.
    pub fn forget(&mut self) {
        self.screen.forget();
        self.shown = None;
    }

    // Takes the size that was reported last.
    fn fit(&mut self) -> Result<(), AllocError> {
        if let Some((columns, rows)) = self.size {
            self.screen.resize(columns, rows)?;
            self.buffer.resize(columns, rows)?;
            self.size = None;
        }
        Ok(())
    }

    // Fills a row: its colours, and the picture's cells.
    fn fill_row(&mut self, canvas: &Canvas, row: u16) {
        for column in 0..self.buffer.width().min(WIDTH) {
            if let Some(color) = color_of(canvas.ink_at(column, row)) {
                let mut style = ContentStyle::new();
                style.background_color = Some(color);
                // It is inside.
                let _set = self.buffer.set(column, row, ' ', style);
            }
        }
    }

    // Prints what there is to say. A text that is too long is cut.
    fn print_line(&mut self) {
        let (width, height) = (self.buffer.width(), self.buffer.height());
        let style = ContentStyle::new();
        if width < WIDTH || height <= ROWS {
            let _columns = self.buffer.print(0, height.saturating_sub(1), SMALL, style);
        } else {
            let _columns = self.buffer.print(LEFT, ROWS, HELP, style);
        }
    }

    /// Writes what the window doesn't show yet: nothing, if it shows the picture as it is.
    ///
    /// # Errors
    ///
    /// The writer's, and then the next frame is drawn as a whole; `OutOfMemory` if there is none for a new size.
    pub fn draw<W: Write>(&mut self, w: &mut W, canvas: &Canvas) -> io::Result<()> {
        let version = Some(canvas.version());
        if self.shown == version {
            return Ok(());
        }
        self.shown = None;
        self.fit()?;
        let _blank = self.buffer.fill(' ', ContentStyle::new());
        for row in 0..self.buffer.height().min(ROWS) {
            self.fill_row(canvas, row);
        }
        self.print_line();
        self.screen
            .draw(w, ColorOutput::Enabled, &self.buffer, None)?;
        self.shown = version;
        Ok(())
    }
}
