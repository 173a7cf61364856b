//! The names by which keys are shown, as `Page Up`.
ghost use Rattle.std.specs.Prelude.{◌≡◌, Some};
ghost use Rattle.crossterm_types.specs.Names.{key_name, media_name, modifier_name};

use crate::event::key::{KeyCode, MediaKeyCode, ModifierKeyCode};
use std::fmt;

impl MediaKeyCode {
    fn name(&self) -> &'static str
        ensures { result.now ≡ media_name self.now }
    {
        match self {
            MediaKeyCode::Play => "Play",
            MediaKeyCode::Pause => "Pause",
            MediaKeyCode::PlayPause => "Play/Pause",
            MediaKeyCode::Reverse => "Reverse",
            MediaKeyCode::Stop => "Stop",
            MediaKeyCode::FastForward => "Fast Forward",
            MediaKeyCode::Rewind => "Rewind",
            MediaKeyCode::TrackNext => "Next Track",
            MediaKeyCode::TrackPrevious => "Previous Track",
            MediaKeyCode::Record => "Record",
            MediaKeyCode::LowerVolume => "Lower Volume",
            MediaKeyCode::RaiseVolume => "Raise Volume",
            MediaKeyCode::MuteVolume => "Mute Volume",
        }
    }
}

/// The key's words with blanks, as `Fast Forward`; `Play/Pause`, `Next Track` and `Previous Track`.
impl fmt::Display for MediaKeyCode {
    ghost output = { λ key. Some (media_name key) };

    fn fmt<W: fmt::Write>(&self, f: &mut fmt::Formatter<W>) -> fmt::Result {
        let name = self.name();
        write!(f, "{name}")
    }
}

impl ModifierKeyCode {
    fn name(&self) -> &'static str
        ensures { result.now ≡ modifier_name self.now }
    {
        match self {
            ModifierKeyCode::LeftShift => "Left Shift",
            ModifierKeyCode::LeftControl => "Left Ctrl",
            ModifierKeyCode::LeftAlt => "Left Alt",
            ModifierKeyCode::LeftSuper => "Left Super",
            ModifierKeyCode::LeftHyper => "Left Hyper",
            ModifierKeyCode::LeftMeta => "Left Meta",
            ModifierKeyCode::RightShift => "Right Shift",
            ModifierKeyCode::RightControl => "Right Ctrl",
            ModifierKeyCode::RightAlt => "Right Alt",
            ModifierKeyCode::RightSuper => "Right Super",
            ModifierKeyCode::RightHyper => "Right Hyper",
            ModifierKeyCode::RightMeta => "Right Meta",
            ModifierKeyCode::IsoLevel3Shift => "Iso Level 3 Shift",
            ModifierKeyCode::IsoLevel5Shift => "Iso Level 5 Shift",
        }
    }
}

/// The key's words with blanks, as `Left Shift`; a Control key is `Left Ctrl` or `Right Ctrl`.
impl fmt::Display for ModifierKeyCode {
    ghost output = { λ key. Some (modifier_name key) };

    fn fmt<W: fmt::Write>(&self, f: &mut fmt::Formatter<W>) -> fmt::Result {
        let name = self.name();
        write!(f, "{name}")
    }
}

/// The key's words with blanks, as `Page Up`; `Del` for Delete and `Begin` for the keypad's Begin.
///
/// A function key is `F` and its number, as `F1`. A character is itself, and a space is `Space`. A media or modifier key has
/// the name of its own code.
impl fmt::Display for KeyCode {
    ghost output = { λ key. Some (key_name key) };

    fn fmt<W: fmt::Write>(&self, f: &mut fmt::Formatter<W>) -> fmt::Result {
        let name = match self {
            KeyCode::F(n) => return write!(f, "F{n}"),
            KeyCode::Char(' ') => "Space",
            KeyCode::Char(c) => return write!(f, "{c}"),
            KeyCode::Media(media) => return write!(f, "{media}"),
            KeyCode::Modifier(modifier) => return write!(f, "{modifier}"),
            KeyCode::Backspace => "Backspace",
            KeyCode::Enter => "Enter",
            KeyCode::Left => "Left",
            KeyCode::Right => "Right",
            KeyCode::Up => "Up",
            KeyCode::Down => "Down",
            KeyCode::Home => "Home",
            KeyCode::End => "End",
            KeyCode::PageUp => "Page Up",
            KeyCode::PageDown => "Page Down",
            KeyCode::Tab => "Tab",
            KeyCode::BackTab => "Back Tab",
            KeyCode::Delete => "Del",
            KeyCode::Insert => "Insert",
            KeyCode::Null => "Null",
            KeyCode::Esc => "Esc",
            KeyCode::CapsLock => "Caps Lock",
            KeyCode::ScrollLock => "Scroll Lock",
            KeyCode::NumLock => "Num Lock",
            KeyCode::PrintScreen => "Print Screen",
            KeyCode::Pause => "Pause",
            KeyCode::Menu => "Menu",
            KeyCode::KeypadBegin => "Begin",
        };
        write!(f, "{name}")
    }
}
