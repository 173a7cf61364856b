//! JSON values of attributes: their variants.
ghost use Rattle.std.specs.Prelude.{◌≡◌, IfOk, Some};
ghost use Rattle.serde_json.specs.Data.{string};
ghost use Rattle.serde_json.specs.View.{view};
ghost use Rattle.crossterm_flags.specs.Values.{ReadsJson, WritesJson};
ghost use Rattle.crossterm_flags.specs.Variants.{reads_variant, variant};
ghost use Rattle.crossterm_style.specs.Attributes.{attributes};

use crate::Attribute;
use crossterm_flags::ValueFault;
use crossterm_flags::value::{name_to_json, read_named, shaped};
use serde_json::Value;
use std::alloc::Global;

impl Attribute {
    /// Its variant as a JSON text.
    ///
    /// # Errors
    ///
    /// `Memory` if memory for it was refused.
    #[tactic(auto, using(crate::proofs::ValueLaws::attribute_back, crossterm_flags::proofs::ValueLaws::json_back))]
    pub fn to_value(&self, alloc: Global) -> Result<Value, ValueFault>
        ensures json { WritesJson (string (variant attributes self.now)) result }
        ensures back { IfOk result (λ v. reads_variant attributes (view v) ≡ Some self.now) }
    {
        name_to_json(alloc, *self)
    }

    /// The attribute whose variant a JSON text is. It takes no memory.
    ///
    /// # Errors
    ///
    /// `Shape` if the JSON is no such text.
    pub fn from_value(value: &Value) -> Result<Attribute, ValueFault>
        ensures { ReadsJson (λ x. x) (reads_variant attributes (view value.now)) result }
    {
        shaped(read_named(value))
    }
}
