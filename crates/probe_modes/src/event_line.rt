//! How the probe prints events.

use crossterm::event::{Event, InternalEvent, KeyCode, KeyEvent, MouseEvent, MouseEventKind};
use std::alloc::Allocator;
use std::fmt;

/// An event as one line without its end.
#[derive(Drop)]
pub struct EventLine<'a, A: Allocator>(pub &'a InternalEvent<A>);

/// A name and what it is of.
fn write_named<W: fmt::Write, T: fmt::Debug>(
    f: &mut fmt::Formatter<W>,
    name: &str,
    value: &T,
) -> fmt::Result {
    write!(f, "{name}:{value:?}")
}

#[derive(Clone, Copy)]
struct Code(KeyCode);

impl fmt::Display for Code {
    fn fmt<W: fmt::Write>(&self, f: &mut fmt::Formatter<W>) -> fmt::Result {
        match &self.0 {
            KeyCode::F(number) => write!(f, "F{number}"),
            KeyCode::Char(c) => write!(f, "Char:{:x}", u32::from(*c)),
            KeyCode::Media(key) => write_named(f, "Media", key),
            KeyCode::Modifier(key) => write_named(f, "Modifier", key),
            code => fmt::Debug::fmt(code, f),
        }
    }
}

#[derive(Clone, Copy)]
struct MouseKind(MouseEventKind);

impl fmt::Display for MouseKind {
    fn fmt<W: fmt::Write>(&self, f: &mut fmt::Formatter<W>) -> fmt::Result {
        match &self.0 {
            MouseEventKind::Down(button) => write_named(f, "Down", button),
            MouseEventKind::Up(button) => write_named(f, "Up", button),
            MouseEventKind::Drag(button) => write_named(f, "Drag", button),
            kind => fmt::Debug::fmt(kind, f),
        }
    }
}

fn write_key<W: fmt::Write>(f: &mut fmt::Formatter<W>, key: &KeyEvent) -> fmt::Result {
    let code = Code(key.code);
    let kind = key.kind;
    let (modifiers, state) = (key.modifiers.bits(), key.state.bits());
    write!(f, "key {code} {modifiers} {kind:?} {state}")
}

fn write_mouse<W: fmt::Write>(f: &mut fmt::Formatter<W>, mouse: &MouseEvent) -> fmt::Result {
    let kind = MouseKind(mouse.kind);
    let (column, row) = (mouse.column, mouse.row);
    let modifiers = mouse.modifiers.bits();
    write!(f, "mouse {kind} {column} {row} {modifiers}")
}

fn write_paste<W: fmt::Write>(f: &mut fmt::Formatter<W>, text: &str) -> fmt::Result {
    f.write_str("paste ")?;
    for byte in text.bytes() {
        write!(f, "{byte:02x}")?;
    }
    Ok(())
}

fn write_event<A: Allocator, W: fmt::Write>(
    f: &mut fmt::Formatter<W>,
    event: &Event<A>,
) -> fmt::Result {
    match event {
        Event::FocusGained => f.write_str("focus gained"),
        Event::FocusLost => f.write_str("focus lost"),
        Event::Key(key) => write_key(f, key),
        Event::Mouse(mouse) => write_mouse(f, mouse),
        Event::Paste(text) => write_paste(f, text.as_str()),
        Event::Resize(columns, rows) => write!(f, "resize {columns} {rows}"),
    }
}

impl<A: Allocator> fmt::Display for EventLine<'_, A> {
    fn fmt<W: fmt::Write>(&self, f: &mut fmt::Formatter<W>) -> fmt::Result {
        match self.0 {
            InternalEvent::Event(event) => write_event(f, event),
            InternalEvent::CursorPosition(column, row) => write!(f, "cursor {column} {row}"),
            InternalEvent::KeyboardEnhancementFlags(flags) => {
                let bits = flags.bits();
                write!(f, "flags {bits}")
            }
            InternalEvent::PrimaryDeviceAttributes => f.write_str("attributes"),
        }
    }
}
