//! JSON values of flags.
ghost use Rattle.std.specs.Prelude.{◌≡◌, MatchResult};
ghost use Rattle.serde_json.specs.View.{view};
ghost use Rattle.crossterm_flags.specs.Values.{ReadsJson, number_value, reads_below};

use crate::value::{ValueFault, read_byte};
use crate::{KeyEventState, KeyModifiers, KeyboardEnhancementFlags};
use serde_json::Value;

impl KeyModifiers {
    /// Its bits as a JSON number. It takes no memory.
    ///
    /// # Errors
    ///
    /// None: it is a `Result` as every other `to_value` is.
    pub fn to_value(&self) -> Result<Value, ValueFault>
        ensures { MatchResult result (λ v. view v ≡ number_value self.now.0) (λ _. ⊥) }
    {
        Ok(Value::from(self.bits()))
    }

    /// The modifiers whose bits a JSON number below 256 is, those without a name too. It takes no memory.
    ///
    /// # Errors
    ///
    /// `Shape` if the JSON is nothing of that kind.
    pub fn from_value(value: &Value) -> Result<KeyModifiers, ValueFault>
        ensures { ReadsJson (λ set. set.0) (reads_below 256 (view value.now)) result }
    {
        match read_byte(value) {
            Some(bits) => Ok(KeyModifiers::from_bits_retain(bits)),
            None => Err(ValueFault::Shape),
        }
    }
}

impl KeyEventState {
    /// Its bits as a JSON number. It takes no memory.
    ///
    /// # Errors
    ///
    /// None: it is a `Result` as every other `to_value` is.
    pub fn to_value(&self) -> Result<Value, ValueFault>
        ensures { MatchResult result (λ v. view v ≡ number_value self.now.0) (λ _. ⊥) }
    {
        Ok(Value::from(self.bits()))
    }

    /// The state whose bits a JSON number below 256 is, those without a name too. It takes no memory.
    ///
    /// # Errors
    ///
    /// `Shape` if the JSON is nothing of that kind.
    pub fn from_value(value: &Value) -> Result<KeyEventState, ValueFault>
        ensures { ReadsJson (λ set. set.0) (reads_below 256 (view value.now)) result }
    {
        match read_byte(value) {
            Some(bits) => Ok(KeyEventState::from_bits_retain(bits)),
            None => Err(ValueFault::Shape),
        }
    }
}

impl KeyboardEnhancementFlags {
    /// Its bits as a JSON number. It takes no memory.
    ///
    /// # Errors
    ///
    /// None: it is a `Result` as every other `to_value` is.
    pub fn to_value(&self) -> Result<Value, ValueFault>
        ensures { MatchResult result (λ v. view v ≡ number_value self.now.0) (λ _. ⊥) }
    {
        Ok(Value::from(self.bits()))
    }

    /// The flags whose bits a JSON number below 256 is, those without a name too. It takes no memory.
    ///
    /// # Errors
    ///
    /// `Shape` if the JSON is nothing of that kind.
    pub fn from_value(value: &Value) -> Result<KeyboardEnhancementFlags, ValueFault>
        ensures { ReadsJson (λ set. set.0) (reads_below 256 (view value.now)) result }
    {
        match read_byte(value) {
            Some(bits) => Ok(KeyboardEnhancementFlags::from_bits_retain(bits)),
            None => Err(ValueFault::Shape),
        }
    }
}
