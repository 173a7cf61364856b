//! Events of a terminal: types, the parser, sources, readers and streams, and the commands that turn reports on and off.

mod commands;
pub mod sys;

pub use commands::{
    DisableBracketedPaste, DisableFocusChange, DisableMouseCapture, EnableBracketedPaste,
    EnableFocusChange, EnableMouseCapture, PopKeyboardEnhancementFlags,
    PushKeyboardEnhancementFlags,
};
pub use crossterm_read::read::{EventReader, Pass};
pub use crossterm_read::stream::{EventStream, StreamWorker};
pub use crossterm_read::{read, source, stream};
pub use crossterm_types::event::{
    Event, InternalEvent, KeyCode, KeyEvent, KeyEventKind, KeyEventState, KeyModifiers,
    KeyboardEnhancementFlags, MediaKeyCode, ModifierKeyCode, MouseButton, MouseEvent,
    MouseEventKind, ValueFault, filter, timeout,
};
