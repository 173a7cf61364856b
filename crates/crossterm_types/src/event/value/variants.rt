//! JSON values of enums whose variants hold nothing, and the names of those variants of other enums that hold nothing.
ghost use Rattle.std.specs.Prelude.{◌≡◌, IfOk, Some};
ghost use Rattle.serde_json.specs.Data.{string};
ghost use Rattle.serde_json.specs.View.{view};
ghost use Rattle.crossterm_flags.specs.Values.{ReadsJson, WritesJson};
ghost use Rattle.crossterm_flags.specs.Variants.{reads_variant, variant};
ghost use Rattle.crossterm_types.specs.Variants.{buttons, kinds, media_keys, modifier_keys, plain_keys, plain_mouse};

use crate::event::{
    KeyCode, KeyEventKind, MediaKeyCode, ModifierKeyCode, MouseButton, MouseEventKind,
};
use crossterm_flags::value::{Named, name_to_json, read_named, shaped};
use crossterm_flags::{ValueFault, named_variants};
use serde_json::Value;
use std::alloc::Global;

impl Named for KeyEventKind {
    ghost rows = { kinds.rows };

    fn rows<'a>() -> &'a [(&'static str, KeyEventKind)] {
        named_variants!(KeyEventKind: Press Repeat Release)
    }
}

impl KeyEventKind {
    /// Its variant as a JSON text.
    ///
    /// # Errors
    ///
    /// `Memory` if memory for it was refused.
    #[tactic(auto, using(crate::proofs::ValueLaws::kind_back, crossterm_flags::proofs::ValueLaws::json_back))]
    pub fn to_value(&self, alloc: Global) -> Result<Value, ValueFault>
        ensures json { WritesJson (string (variant kinds self.now)) result }
        ensures back { IfOk result (λ v. reads_variant kinds (view v) ≡ Some self.now) }
    {
        name_to_json(alloc, *self)
    }

    /// The kind whose variant a JSON text is. It takes no memory.
    ///
    /// # Errors
    ///
    /// `Shape` if the JSON is no such text.
    pub fn from_value(value: &Value) -> Result<KeyEventKind, ValueFault>
        ensures { ReadsJson (λ x. x) (reads_variant kinds (view value.now)) result }
    {
        shaped(read_named(value))
    }
}

impl Named for MediaKeyCode {
    ghost rows = { media_keys.rows };

    fn rows<'a>() -> &'a [(&'static str, MediaKeyCode)] {
        named_variants!(MediaKeyCode:
            Play Pause PlayPause Reverse Stop FastForward Rewind TrackNext TrackPrevious Record
            LowerVolume RaiseVolume MuteVolume
        )
    }
}

impl MediaKeyCode {
    /// Its variant as a JSON text.
    ///
    /// # Errors
    ///
    /// `Memory` if memory for it was refused.
    #[tactic(auto, using(crate::proofs::ValueLaws::media_back, crossterm_flags::proofs::ValueLaws::json_back))]
    pub fn to_value(&self, alloc: Global) -> Result<Value, ValueFault>
        ensures json { WritesJson (string (variant media_keys self.now)) result }
        ensures back { IfOk result (λ v. reads_variant media_keys (view v) ≡ Some self.now) }
    {
        name_to_json(alloc, *self)
    }

    /// The key whose variant a JSON text is. It takes no memory.
    ///
    /// # Errors
    ///
    /// `Shape` if the JSON is no such text.
    pub fn from_value(value: &Value) -> Result<MediaKeyCode, ValueFault>
        ensures { ReadsJson (λ x. x) (reads_variant media_keys (view value.now)) result }
    {
        shaped(read_named(value))
    }
}

impl Named for ModifierKeyCode {
    ghost rows = { modifier_keys.rows };

    fn rows<'a>() -> &'a [(&'static str, ModifierKeyCode)] {
        named_variants!(ModifierKeyCode:
            LeftShift LeftControl LeftAlt LeftSuper LeftHyper LeftMeta RightShift RightControl
            RightAlt RightSuper RightHyper RightMeta IsoLevel3Shift IsoLevel5Shift
        )
    }
}

impl ModifierKeyCode {
    /// Its variant as a JSON text.
    ///
    /// # Errors
    ///
    /// `Memory` if memory for it was refused.
    #[tactic(auto, using(crate::proofs::ValueLaws::modifier_back, crossterm_flags::proofs::ValueLaws::json_back))]
    pub fn to_value(&self, alloc: Global) -> Result<Value, ValueFault>
        ensures json { WritesJson (string (variant modifier_keys self.now)) result }
        ensures back { IfOk result (λ v. reads_variant modifier_keys (view v) ≡ Some self.now) }
    {
        name_to_json(alloc, *self)
    }

    /// The key whose variant a JSON text is. It takes no memory.
    ///
    /// # Errors
    ///
    /// `Shape` if the JSON is no such text.
    pub fn from_value(value: &Value) -> Result<ModifierKeyCode, ValueFault>
        ensures { ReadsJson (λ x. x) (reads_variant modifier_keys (view value.now)) result }
    {
        shaped(read_named(value))
    }
}

impl Named for MouseButton {
    ghost rows = { buttons.rows };

    fn rows<'a>() -> &'a [(&'static str, MouseButton)] {
        named_variants!(MouseButton: Left Right Middle)
    }
}

impl MouseButton {
    /// Its variant as a JSON text.
    ///
    /// # Errors
    ///
    /// `Memory` if memory for it was refused.
    #[tactic(auto, using(crate::proofs::ValueLaws::button_back, crossterm_flags::proofs::ValueLaws::json_back))]
    pub fn to_value(&self, alloc: Global) -> Result<Value, ValueFault>
        ensures json { WritesJson (string (variant buttons self.now)) result }
        ensures back { IfOk result (λ v. reads_variant buttons (view v) ≡ Some self.now) }
    {
        name_to_json(alloc, *self)
    }

    /// The button whose variant a JSON text is. It takes no memory.
    ///
    /// # Errors
    ///
    /// `Shape` if the JSON is no such text.
    pub fn from_value(value: &Value) -> Result<MouseButton, ValueFault>
        ensures { ReadsJson (λ x. x) (reads_variant buttons (view value.now)) result }
    {
        shaped(read_named(value))
    }
}

// Only the variants that hold nothing are listed.
impl Named for KeyCode {
    ghost rows = { plain_keys.rows };

    fn rows<'a>() -> &'a [(&'static str, KeyCode)] {
        named_variants!(KeyCode:
            Backspace Enter Left Right Up Down Home End PageUp PageDown Tab BackTab Delete Insert
            Null Esc CapsLock ScrollLock NumLock PrintScreen Pause Menu KeypadBegin
        )
    }
}

// Only the variants that hold nothing are listed.
impl Named for MouseEventKind {
    ghost rows = { plain_mouse.rows };

    fn rows<'a>() -> &'a [(&'static str, MouseEventKind)] {
        named_variants!(MouseEventKind: Moved ScrollDown ScrollUp ScrollLeft ScrollRight)
    }
}
