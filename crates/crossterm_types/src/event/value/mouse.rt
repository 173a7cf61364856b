//! JSON values of the mouse.
ghost use Rattle.std.specs.Prelude.{◌≡◌, IfOk, Some};
ghost use Rattle.serde_json.specs.View.{view};
ghost use Rattle.crossterm_flags.specs.Values.{ReadsJson, WritesJson};
ghost use Rattle.crossterm_types.specs.Values.{FitsMouse, holding_mouse, mouse_kind_value, mouse_value, reads_mouse, reads_mouse_kind};

use crate::event::{KeyModifiers, MouseEvent, MouseEventKind};
use crossterm_flags::ValueFault;
use crossterm_flags::value::{
    member_to_json, name_to_json, read_byte, read_four, read_member, read_named, read_word, shaped,
};
use serde_json::{Value, json};
use std::alloc::Global;

impl MouseEventKind {
    /// What the mouse did as JSON: its variant, and with a button an object of the variant and the button, as `{"Down":"Left"}`.
    ///
    /// # Errors
    ///
    /// `Memory` if memory for it was refused.
    #[tactic(auto, using(crate::proofs::ValueLaws::mouse_kind_back, crossterm_flags::proofs::ValueLaws::json_back))]
    pub fn to_value(&self, alloc: Global) -> Result<Value, ValueFault>
        ensures json { WritesJson (mouse_kind_value self.now) result }
        ensures back { IfOk result (λ v. reads_mouse_kind (view v) ≡ Some self.now) }
    {
        match self {
            MouseEventKind::Down(button) => member_to_json(alloc, "Down", button.to_value(alloc)?),
            MouseEventKind::Up(button) => member_to_json(alloc, "Up", button.to_value(alloc)?),
            MouseEventKind::Drag(button) => member_to_json(alloc, "Drag", button.to_value(alloc)?),
            plain => name_to_json(alloc, *plain),
        }
    }

    /// What the mouse did with a button, by its variant.
    fn holding(variant: &str, held: &Value) -> Option<MouseEventKind>
        ensures { result ≡ holding_mouse (variant.now, view held.now) }
    {
        match variant {
            "Down" => read_named(held).map(MouseEventKind::Down),
            "Up" => read_named(held).map(MouseEventKind::Up),
            "Drag" => read_named(held).map(MouseEventKind::Drag),
            _ => None,
        }
    }

    /// What the mouse did, by its JSON.
    fn read(value: &Value) -> Option<MouseEventKind>
        ensures { result ≡ reads_mouse_kind (view value.now) }
    {
        if let Some(kind) = read_named(value) {
            return Some(kind);
        }
        match read_member(value) {
            Some((variant, held)) => MouseEventKind::holding(variant, held),
            None => None,
        }
    }

    /// What the mouse did, by its JSON. It takes no memory.
    ///
    /// # Errors
    ///
    /// `Shape` if the JSON represents nothing that the mouse does.
    pub fn from_value(value: &Value) -> Result<MouseEventKind, ValueFault>
        ensures { ReadsJson (λ x. x) (reads_mouse_kind (view value.now)) result }
    {
        shaped(MouseEventKind::read(value))
    }
}

impl MouseEvent {
    /// The ranges of its numbers.
    pub(crate) fn known(self)
        ensures { FitsMouse self }
    {}

    /// The mouse event as a JSON object of its fields.
    ///
    /// # Errors
    ///
    /// `Memory` if memory for it was refused.
    #[tactic(auto, using(crate::proofs::ValueLaws::mouse_back, crossterm_flags::proofs::ValueLaws::json_back))]
    pub fn to_value(&self, alloc: Global) -> Result<Value, ValueFault>
        ensures json { WritesJson (mouse_value self.now) result }
        ensures back { IfOk result (λ v. reads_mouse (view v) ≡ Some self.now) }
    {
        self.known();
        self.as_json(alloc)
    }

    /// The mouse event as JSON.
    fn as_json(self, alloc: Global) -> Result<Value, ValueFault>
        ensures { WritesJson (mouse_value self) result }
    {
        let kind = self.kind.to_value(alloc)?;
        let column = self.column;
        let row = self.row;
        let modifiers = self.modifiers.bits();
        Ok(json!(in alloc; {"column": column, "kind": kind, "modifiers": modifiers, "row": row})?)
    }

    /// The mouse event that a JSON object represents which has the fields `kind`, `column`, `row` and `modifiers` and no other. It takes no
    /// memory.
    ///
    /// # Errors
    ///
    /// `Shape` if the JSON is no such object.
    pub fn from_value(value: &Value) -> Result<MouseEvent, ValueFault>
        ensures { ReadsJson (λ x. x) (reads_mouse (view value.now)) result }
    {
        shaped(MouseEvent::read(value))
    }

    /// The mouse event that JSON represents.
    pub(crate) fn read(value: &Value) -> Option<MouseEvent>
        ensures { result ≡ reads_mouse (view value.now) }
    {
        let (column, kind, modifiers, row) = read_four(
            value,
            "column",
            "kind",
            "modifiers",
            "row",
        )?;
        Some(MouseEvent {
            column: read_word(column)?,
            kind: MouseEventKind::read(kind)?,
            modifiers: KeyModifiers::from_bits_retain(read_byte(modifiers)?),
            row: read_word(row)?,
        })
    }
}
