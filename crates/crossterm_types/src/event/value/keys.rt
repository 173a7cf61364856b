//! JSON values of keys.
ghost use Rattle.std.specs.Prelude.{◌≡◌, IfOk, Some};
ghost use Rattle.serde_json.specs.View.{view};
ghost use Rattle.crossterm_flags.specs.Values.{ReadsJson, WritesJson};
ghost use Rattle.crossterm_types.specs.Values.{FitsCode, FitsKey, code_value, holding_code, key_value, only_char, reads_code, reads_key};

use crate::event::{KeyCode, KeyEvent, KeyEventState, KeyModifiers};
use crossterm_flags::ValueFault;
use crossterm_flags::value::{
    member_to_json, name_to_json, read_byte, read_four, read_member, read_named, shaped,
    text_to_json,
};
use serde_json::{Value, json};
use std::alloc::Global;

/// The character of a text that has one.
#[tactic(auto, using(crate::proofs::ValueLaws::char_back))]
fn only_char(text: &str) -> Option<char>
    ensures { result ≡ only_char text.now }
{
    match text.parse::<char>() {
        Ok(c) => Some(c),
        Err(_) => None,
    }
}

impl KeyCode {
    /// The ranges of its numbers.
    pub(crate) fn known(self)
        ensures { FitsCode self }
    {}

    /// The key as JSON: its variant, and if it holds something, an object of the variant and that, as `{"F":5}` and `{"Char":"a"}`.
    ///
    /// # Errors
    ///
    /// `Memory` if memory for it was refused.
    #[tactic(auto, using(crate::proofs::ValueLaws::code_back, crossterm_flags::proofs::ValueLaws::json_back))]
    pub fn to_value(&self, alloc: Global) -> Result<Value, ValueFault>
        ensures json { WritesJson (code_value self.now) result }
        ensures back { IfOk result (λ v. reads_code (view v) ≡ Some self.now) }
    {
        self.known();
        self.as_json(alloc)
    }

    /// The key as JSON.
    fn as_json(self, alloc: Global) -> Result<Value, ValueFault>
        ensures { WritesJson (code_value self) result }
    {
        match self {
            KeyCode::F(number) => member_to_json(alloc, "F", Value::from(number)),
            KeyCode::Char(c) => {
                let text = text_to_json(alloc, c.encode_utf8(&mut [0; 4]))?;
                member_to_json(alloc, "Char", text)
            }
            KeyCode::Media(key) => member_to_json(alloc, "Media", key.to_value(alloc)?),
            KeyCode::Modifier(key) => member_to_json(alloc, "Modifier", key.to_value(alloc)?),
            plain => name_to_json(alloc, plain),
        }
    }

    /// A key that holds something, by its variant.
    fn holding(variant: &str, held: &Value) -> Option<KeyCode>
        ensures { result ≡ holding_code (variant.now, view held.now) }
    {
        match variant {
            "F" => read_byte(held).map(KeyCode::F),
            "Char" => held.as_str().and_then(only_char).map(KeyCode::Char),
            "Media" => read_named(held).map(KeyCode::Media),
            "Modifier" => read_named(held).map(KeyCode::Modifier),
            _ => None,
        }
    }

    /// The key that JSON represents.
    fn read(value: &Value) -> Option<KeyCode>
        ensures { result ≡ reads_code (view value.now) }
    {
        if let Some(code) = read_named(value) {
            return Some(code);
        }
        match read_member(value) {
            Some((variant, held)) => KeyCode::holding(variant, held),
            None => None,
        }
    }

    /// The key that JSON represents. It takes no memory.
    ///
    /// # Errors
    ///
    /// `Shape` if the JSON represents no key.
    pub fn from_value(value: &Value) -> Result<KeyCode, ValueFault>
        ensures { ReadsJson (λ x. x) (reads_code (view value.now)) result }
    {
        shaped(KeyCode::read(value))
    }
}

impl KeyEvent {
    /// The ranges of its numbers.
    pub(crate) fn known(self)
        ensures { FitsKey self }
    {
        self.code.known();
    }

    /// The key as a JSON object of its fields, as they are, and not in the normal form.
    ///
    /// # Errors
    ///
    /// `Memory` if memory for it was refused.
    #[tactic(auto, using(crate::proofs::ValueLaws::key_back, crossterm_flags::proofs::ValueLaws::json_back))]
    pub fn to_value(&self, alloc: Global) -> Result<Value, ValueFault>
        ensures json { WritesJson (key_value self.now) result }
        ensures back { IfOk result (λ v. reads_key (view v) ≡ Some self.now) }
    {
        self.known();
        self.as_json(alloc)
    }

    /// The key as JSON.
    fn as_json(self, alloc: Global) -> Result<Value, ValueFault>
        ensures { WritesJson (key_value self) result }
    {
        let code = self.code.to_value(alloc)?;
        let kind = self.kind.to_value(alloc)?;
        let modifiers = self.modifiers.bits();
        let state = self.state.bits();
        Ok(json!(in alloc; {"code": code, "kind": kind, "modifiers": modifiers, "state": state})?)
    }

    /// The key that a JSON object represents which has the fields `code`, `modifiers`, `kind` and `state` and no other. It takes no memory.
    ///
    /// # Errors
    ///
    /// `Shape` if the JSON is no such object.
    pub fn from_value(value: &Value) -> Result<KeyEvent, ValueFault>
        ensures { ReadsJson (λ x. x) (reads_key (view value.now)) result }
    {
        shaped(KeyEvent::read(value))
    }

    /// The key that JSON represents.
    pub(crate) fn read(value: &Value) -> Option<KeyEvent>
        ensures { result ≡ reads_key (view value.now) }
    {
        let (code, kind, modifiers, state) = read_four(
            value,
            "code",
            "kind",
            "modifiers",
            "state",
        )?;
        Some(KeyEvent {
            code: KeyCode::read(code)?,
            kind: read_named(kind)?,
            modifiers: KeyModifiers::from_bits_retain(read_byte(modifiers)?),
            state: KeyEventState::from_bits_retain(read_byte(state)?),
        })
    }
}
