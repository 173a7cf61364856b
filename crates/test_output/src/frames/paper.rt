//! Paper: what a terminal would show of bytes, by a program that knows nothing of the library.

use crossterm_style::{Attribute, Attributes, Color, ContentStyle};
use screen::Buffer;
use std::alloc::{AllocError, Global};

/// How a cell looks: colours of the palette, with 256 for the terminal's own, and two attributes.
#[derive(Clone, Copy, PartialEq, Eq, Debug)]
pub struct Look {
    pub front: u32,
    pub back: u32,
    pub is_bold: bool,
    pub is_reverse: bool,
}

pub const PLAIN: Look = Look {
    front: 256,
    back: 256,
    is_bold: false,
    is_reverse: false,
};

/// A character by its code, and accents on it by theirs, in its look.
#[derive(Clone, Copy, PartialEq, Eq, Debug)]
pub struct Mark {
    pub code: u32,
    pub accents: [u32; 3],
    pub look: Look,
}

impl Mark {
    /// A character without accents.
    pub fn new(code: u32, look: Look) -> Mark {
        Mark {
            code,
            accents: [0; 3],
            look,
        }
    }

    /// Adds an accent, and returns whether there was room.
    pub fn add(&mut self, accent: u32) -> bool {
        for place in self.accents.iter_mut() {
            if *place == 0 {
                *place = accent;
                return true;
            }
        }
        false
    }

    /// How many characters it is written by.
    pub fn count(&self) -> u32 {
        let mut count = 1u32;
        for accent in self.accents {
            if accent != 0 {
                count = count.saturating_add(1);
            }
        }
        count
    }
}

/// What the bytes so far are within.
#[derive(Clone, Copy, PartialEq, Eq)]
enum At {
    Ground,
    Escape,
    Control,
    // Within a character, of which so many bytes are to come.
    Within(u32),
}

/// A paper of some size, which is written on by bytes.
#[derive(Drop)]
pub struct Paper {
    pub width: u32,
    pub height: u32,
    pub marks: Vec<Mark>,
    /// From 0; behind the last column no character may come.
    pub column: u32,
    pub row: u32,
    pub is_visible: bool,
    /// How many characters were printed.
    pub printed: u32,
    /// Whether something came that the paper doesn't know.
    pub is_spoilt: bool,
    look: Look,
    at: At,
    code: u32,
    // The place of the character that was written last, if nothing but its accents came since.
    last: Option<usize>,
    // The parameters so far, of which at most 4 are kept, and whether a `?` came.
    numbers: [u32; 4],
    count: usize,
    is_private: bool,
}

/// How the styles look that the tests use.
static LOOKS: [Look; 7] = [
    PLAIN,
    Look { front: 9, ..PLAIN },
    Look {
        back: 200,
        is_bold: true,
        ..PLAIN
    },
    Look {
        front: 16,
        back: 17,
        is_reverse: true,
        ..PLAIN
    },
    Look {
        is_bold: true,
        ..PLAIN
    },
    Look {
        front: 9,
        back: 200,
        ..PLAIN
    },
    Look {
        front: 16,
        back: 200,
        is_bold: true,
        ..PLAIN
    },
];

/// What a style is to look like: the styles that the tests use, by a number.
pub fn look_of(number: u32) -> Look {
    LOOKS[(number % 7) as usize]
}

fn color_of(number: u32) -> Option<Color> {
    if number > 255 {
        return None;
    }
    Some(Color::AnsiValue(number as u8))
}

/// The style of that look.
pub fn style_of(number: u32) -> ContentStyle {
    let look = look_of(number);
    let mut attributes = Attributes::none();
    if look.is_bold {
        attributes = attributes.with(Attribute::Bold);
    }
    if look.is_reverse {
        attributes = attributes.with(Attribute::Reverse);
    }
    ContentStyle {
        foreground_color: color_of(look.front),
        background_color: color_of(look.back),
        underline_color: None,
        attributes,
    }
}

impl Paper {
    /// A paper full of rubbish, with the cursor and the style anywhere.
    pub fn new(alloc: Global, width: u16, height: u16) -> Result<Paper, AllocError> {
        let rubbish = Mark::new(0x23, look_of(3));
        let count = usize::from(width).saturating_mul(usize::from(height));
        let marks = Vec::from_elem(alloc, rubbish, count)?;
        Ok(Paper {
            width: u32::from(width),
            height: u32::from(height),
            marks,
            column: 3,
            row: 0,
            is_visible: true,
            printed: 0,
            is_spoilt: false,
            look: look_of(2),
            at: At::Ground,
            code: 0,
            last: None,
            numbers: [0; 4],
            count: 0,
            is_private: false,
        })
    }

    // An accent goes to the character that was written last.
    fn accent(&mut self) {
        let code = self.code;
        let is_added = match self.last {
            Some(at) => match self.marks.get_mut(at) {
                Some(mark) => mark.add(code),
                None => false,
            },
            None => false,
        };
        if !is_added {
            self.is_spoilt = true;
        }
        self.printed = self.printed.saturating_add(1);
    }

    fn print(&mut self) {
        if matches!(self.code, 0x300..=0x36F) {
            self.accent();
            return;
        }
        let mark = Mark::new(self.code, self.look);
        let at = self
            .row
            .saturating_mul(self.width)
            .saturating_add(self.column) as usize;
        let is_inside = self.column < self.width;
        match self.marks.get_mut(at) {
            Some(place) if is_inside => *place = mark,
            _ => self.is_spoilt = true,
        }
        self.last = Some(at);
        self.column = self.column.saturating_add(1);
        self.printed = self.printed.saturating_add(1);
    }

    // SGR, if a colour is one of the palette.
    fn set_look(&mut self) {
        match self.numbers {
            [0, ..] => self.look = PLAIN,
            [1, ..] => self.look.is_bold = true,
            [7, ..] => self.look.is_reverse = true,
            [38, 5, number, _] => self.look.front = number,
            [39, ..] => self.look.front = PLAIN.front,
            [49, ..] => self.look.back = PLAIN.back,
            [48, 5, number, _] => self.look.back = number,
            _ => self.is_spoilt = true,
        }
    }

    fn go(&mut self) {
        let [row, column, ..] = self.numbers;
        if row == 0 || column == 0 || row > self.height || column > self.width {
            self.is_spoilt = true;
        }
        self.row = row.saturating_sub(1);
        self.column = column.saturating_sub(1);
    }

    fn erase(&mut self) {
        if self.look != PLAIN {
            self.is_spoilt = true;
        }
        let space = Mark::new(0x20, PLAIN);
        for place in self.marks.iter_mut() {
            *place = space;
        }
    }

    fn switch(&mut self, is_on: bool) {
        match self.numbers {
            [25, ..] => self.is_visible = is_on,
            [2026, ..] => {}
            _ => self.is_spoilt = true,
        }
    }

    fn control(&mut self, last: u8) {
        self.at = At::Ground;
        match last {
            b'h' if self.is_private => self.switch(true),
            b'l' if self.is_private => self.switch(false),
            _ if self.is_private => self.is_spoilt = true,
            b'm' => self.set_look(),
            b'H' => self.go(),
            b'J' if self.numbers[0] == 2 => self.erase(),
            _ => self.is_spoilt = true,
        }
    }

    fn parameter(&mut self, byte: u8) {
        match byte {
            b'?' => self.is_private = true,
            b';' => self.count = self.count.saturating_add(1),
            b'0'..=b'9' => {
                if let Some(number) = self.numbers.get_mut(self.count) {
                    *number = number
                        .saturating_mul(10)
                        .saturating_add(u32::from(byte - b'0'));
                }
            }
            _ => self.control(byte),
        }
    }

    fn ground(&mut self, byte: u8) {
        let (code, more) = match byte {
            0x20..=0x7E => (byte, 0),
            0xC0..=0xDF => (byte - 0xC0, 1),
            0xE0..=0xEF => (byte - 0xE0, 2),
            0xF0..=0xF7 => (byte - 0xF0, 3),
            _ => {
                self.is_spoilt = true;
                (b'?', 0)
            }
        };
        self.code = u32::from(code);
        if more == 0 {
            self.print();
        } else {
            self.at = At::Within(more);
        }
    }

    fn within(&mut self, byte: u8, more: u32) {
        self.code = self
            .code
            .saturating_mul(64)
            .saturating_add(u32::from(byte & 0x3F));
        if more > 1 {
            self.at = At::Within(more - 1);
        } else {
            self.at = At::Ground;
            self.print();
        }
    }

    fn put(&mut self, byte: u8) {
        if byte == 0x1B {
            self.last = None;
            self.at = At::Escape;
            return;
        }
        match self.at {
            At::Ground => self.ground(byte),
            At::Escape => {
                self.at = At::Control;
                self.numbers = [0; 4];
                self.count = 0;
                self.is_private = false;
                if byte != b'[' {
                    self.is_spoilt = true;
                }
            }
            At::Control => self.parameter(byte),
            At::Within(more) => self.within(byte, more),
        }
    }

    /// Writes bytes on it.
    pub fn write(&mut self, bytes: &[u8]) {
        for byte in bytes {
            self.put(*byte);
        }
    }

    /// Whether it shows these marks, with the cursor at a column and a row, or hidden, and everything was known.
    pub fn shows(&self, marks: &[Mark], cursor: Option<(u16, u16)>) -> bool {
        if self.is_spoilt || self.look != PLAIN || self.marks.as_slice() != marks {
            return false;
        }
        match cursor {
            None => !self.is_visible,
            Some((column, row)) => {
                self.is_visible && self.column == u32::from(column) && self.row == u32::from(row)
            }
        }
    }
}

/// A buffer, and the marks that are wanted of it.
#[derive(Drop)]
pub struct Sheet {
    pub buffer: Buffer,
    pub marks: Vec<Mark>,
}

impl Sheet {
    /// A blank one.
    pub fn new(alloc: Global, width: u16, height: u16) -> Result<Sheet, AllocError> {
        let space = Mark::new(0x20, PLAIN);
        let count = usize::from(width).saturating_mul(usize::from(height));
        Ok(Sheet {
            buffer: Buffer::new(alloc, width, height)?,
            marks: Vec::from_elem(alloc, space, count)?,
        })
    }

    /// Prints a character and its accents in a style, and returns whether it is as it should be.
    pub fn set(&mut self, column: u16, row: u16, text: &str, style: u32) -> bool {
        let width = usize::from(self.buffer.width());
        let at = usize::from(row)
            .saturating_mul(width)
            .saturating_add(usize::from(column));
        let mut mark = Mark::new(0, look_of(style));
        for symbol in text.chars() {
            if mark.code == 0 {
                mark.code = symbol as u32;
            } else if !mark.add(symbol as u32) {
                return false;
            }
        }
        let printed = self.buffer.print(column, row, text, style_of(style));
        match self.marks.get_mut(at) {
            Some(place) if usize::from(column) < width => {
                *place = mark;
                printed == Ok(1)
            }
            _ => printed != Ok(1),
        }
    }
}
