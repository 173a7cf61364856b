//! The names of all keys, as crossterm's own tests have them.

use crossterm_types::event::KeyCode::{self, Media, Modifier};
use crossterm_types::event::MediaKeyCode::{
    FastForward, LowerVolume, MuteVolume, Pause, Play, PlayPause, RaiseVolume, Record, Reverse,
    Rewind, Stop, TrackNext, TrackPrevious,
};
use crossterm_types::event::ModifierKeyCode::{
    IsoLevel3Shift, IsoLevel5Shift, LeftAlt, LeftControl, LeftHyper, LeftMeta, LeftShift,
    LeftSuper, RightAlt, RightControl, RightHyper, RightMeta, RightShift, RightSuper,
};
use std::alloc::Global;
use std::fmt::Display;
use test_support::{expect, is_text};

/// Whether a value prints this text.
pub fn prints<T: Display>(alloc: Global, value: &T, text: &str) -> bool {
    is_text(value.to_string(alloc), text)
}

/// Keys and their names.
static NAMES: [(KeyCode, &str); 57] = [
    (KeyCode::Backspace, "Backspace"),
    (KeyCode::Enter, "Enter"),
    (KeyCode::Left, "Left"),
    (KeyCode::Right, "Right"),
    (KeyCode::Up, "Up"),
    (KeyCode::Down, "Down"),
    (KeyCode::Home, "Home"),
    (KeyCode::End, "End"),
    (KeyCode::PageUp, "Page Up"),
    (KeyCode::PageDown, "Page Down"),
    (KeyCode::Tab, "Tab"),
    (KeyCode::BackTab, "Back Tab"),
    (KeyCode::Delete, "Del"),
    (KeyCode::Insert, "Insert"),
    (KeyCode::F(0), "F0"),
    (KeyCode::F(1), "F1"),
    (KeyCode::F(255), "F255"),
    (KeyCode::Char('a'), "a"),
    (KeyCode::Char('A'), "A"),
    (KeyCode::Char(' '), "Space"),
    (KeyCode::Char('é'), "é"),
    (KeyCode::Null, "Null"),
    (KeyCode::Esc, "Esc"),
    (KeyCode::CapsLock, "Caps Lock"),
    (KeyCode::ScrollLock, "Scroll Lock"),
    (KeyCode::NumLock, "Num Lock"),
    (KeyCode::PrintScreen, "Print Screen"),
    (KeyCode::Pause, "Pause"),
    (KeyCode::Menu, "Menu"),
    (KeyCode::KeypadBegin, "Begin"),
    (Media(Play), "Play"),
    (Media(Pause), "Pause"),
    (Media(PlayPause), "Play/Pause"),
    (Media(Reverse), "Reverse"),
    (Media(Stop), "Stop"),
    (Media(FastForward), "Fast Forward"),
    (Media(Rewind), "Rewind"),
    (Media(TrackNext), "Next Track"),
    (Media(TrackPrevious), "Previous Track"),
    (Media(Record), "Record"),
    (Media(LowerVolume), "Lower Volume"),
    (Media(RaiseVolume), "Raise Volume"),
    (Media(MuteVolume), "Mute Volume"),
    (Modifier(LeftShift), "Left Shift"),
    (Modifier(LeftControl), "Left Ctrl"),
    (Modifier(LeftAlt), "Left Alt"),
    (Modifier(LeftSuper), "Left Super"),
    (Modifier(LeftHyper), "Left Hyper"),
    (Modifier(LeftMeta), "Left Meta"),
    (Modifier(RightShift), "Right Shift"),
    (Modifier(RightControl), "Right Ctrl"),
    (Modifier(RightAlt), "Right Alt"),
    (Modifier(RightSuper), "Right Super"),
    (Modifier(RightHyper), "Right Hyper"),
    (Modifier(RightMeta), "Right Meta"),
    (Modifier(IsoLevel3Shift), "Iso Level 3 Shift"),
    (Modifier(IsoLevel5Shift), "Iso Level 5 Shift"),
];

/// Whether a key's name is this, and the media or modifier key's in it.
fn has_name(alloc: Global, code: &KeyCode, name: &str) -> bool {
    let alone = match code {
        Media(media) => prints(alloc, media, name),
        Modifier(modifier) => prints(alloc, modifier, name),
        _ => true,
    };
    alone && prints(alloc, code, name)
}

#[test]
fn shows_names(rt: HostRuntime) {
    for (code, name) in &NAMES {
        expect!(rt; has_name(rt.alloc(), code, name), name);
    }
}
