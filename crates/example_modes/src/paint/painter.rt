//! Who paints, and what their events mean.

use crate::paint::canvas::{Dot, Ink, LEFT};
use crossterm::event::{
    Event, KeyCode, KeyEvent, KeyModifiers, MouseButton, MouseEvent, MouseEventKind,
};

/// One who paints, with the colour that was chosen last.
#[derive(Clone, Copy)]
pub struct Painter {
    ink: Ink,
}

/// What a painter wants.
#[derive(Clone, Copy)]
pub enum Wish {
    /// Nothing that is seen.
    Nothing,
    /// A painted cell.
    Paint(Dot),
    /// The picture once more, since the screen was spoilt.
    Redraw,
    /// The picture in a window of so many columns and rows.
    Resize(u16, u16),
    /// A blank picture.
    Blank,
    /// The end.
    Leave,
}

fn wish_of(key: &KeyEvent) -> Wish {
    match key.code {
        KeyCode::Esc => Wish::Leave,
        KeyCode::Char('c') if key.modifiers == KeyModifiers::CONTROL => Wish::Leave,
        KeyCode::Char('x') => Wish::Blank,
        KeyCode::Char('r') => Wish::Redraw,
        _ => Wish::Nothing,
    }
}

impl Painter {
    /// One who paints red.
    pub fn new() -> Painter {
        Painter { ink: 1 }
    }

    fn press(&mut self, mouse: &MouseEvent, ink: Ink) -> Wish {
        if mouse.column >= LEFT {
            return Wish::Paint(Dot {
                column: mouse.column - LEFT,
                row: mouse.row,
                ink,
            });
        }
        if let row @ 1..=15 = mouse.row {
            self.ink = row as u8;
        }
        Wish::Nothing
    }

    fn mouse(&mut self, mouse: &MouseEvent) -> Wish {
        let ink = self.ink;
        match mouse.kind {
            MouseEventKind::Down(MouseButton::Left) | MouseEventKind::Drag(MouseButton::Left) => {
                self.press(mouse, ink)
            }
            MouseEventKind::Down(_) | MouseEventKind::Drag(_) => self.press(mouse, 0),
            _ => Wish::Nothing,
        }
    }

    /// What an event means.
    pub fn wish(&mut self, event: &Event) -> Wish {
        match event {
            Event::Mouse(mouse) => self.mouse(mouse),
            Event::Key(key) => wish_of(key),
            Event::Resize(columns, rows) => Wish::Resize(*columns, *rows),
            _ => Wish::Nothing,
        }
    }
}
