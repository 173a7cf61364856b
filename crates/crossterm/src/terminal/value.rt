//! JSON values of what is cleared.
ghost use Rattle.std.specs.Prelude.{◌≡◌, IfOk, Some};
ghost use Rattle.serde_json.specs.Data.{string};
ghost use Rattle.serde_json.specs.View.{view};
ghost use Rattle.crossterm_flags.specs.Values.{ReadsJson, WritesJson};
ghost use Rattle.crossterm_flags.specs.Variants.{all, reads_variant, variant};
ghost use Rattle.crossterm.specs.Values.{clears};

use crate::terminal::ClearType;
use crossterm_flags::value::{Named, name_to_json, read_named, shaped};
use crossterm_flags::{ValueFault, named_variants, variants};
use serde_json::Value;
use std::alloc::Global;

impl Named for ClearType {
    ghost rows = { clears.rows };

    fn rows<'a>() -> &'a [(&'static str, ClearType)] {
        named_variants!(ClearType:
            All Purge FromCursorDown FromCursorUp CurrentLine UntilNewLine
        )
    }
}

impl ClearType {
    /// All of them, in declared order.
    pub fn all<'a>() -> &'a [ClearType]
        ensures { result.now ≡ all clears }
    {
        &variants!(ClearType: All Purge FromCursorDown FromCursorUp CurrentLine UntilNewLine)
    }

    /// Its variant as a JSON text.
    ///
    /// # Errors
    ///
    /// `Memory` if memory for it was refused.
    #[tactic(auto, using(crate::proofs::ValueLaws::clear_back, crossterm_flags::proofs::ValueLaws::json_back))]
    pub fn to_value(&self, alloc: Global) -> Result<Value, ValueFault>
        ensures json { WritesJson (string (variant clears self.now)) result }
        ensures back { IfOk result (λ v. reads_variant clears (view v) ≡ Some self.now) }
    {
        name_to_json(alloc, *self)
    }

    /// What is cleared, whose variant a JSON text is. It takes no memory.
    ///
    /// # Errors
    ///
    /// `Shape` if the JSON is no such text.
    pub fn from_value(value: &Value) -> Result<ClearType, ValueFault>
        ensures { ReadsJson (λ x. x) (reads_variant clears (view value.now)) result }
    {
        shaped(read_named(value))
    }
}
