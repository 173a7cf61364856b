//! JSON values of colours.
ghost use Rattle.std.specs.Prelude.{◌≡◌, ◌<◌, ◌||◌, IfOk, Some, codes, length, string_bytes};
ghost use Rattle.serde_json.specs.Find.{as_str};
ghost use Rattle.serde_json.specs.Data.{string};
ghost use Rattle.serde_json.specs.View.{view};
ghost use Rattle.crossterm_flags.specs.Values.{WritesJson, reads_member};
ghost use Rattle.crossterm_style.specs.Values.{FitsColor, FitsPlace, ReadsOrRefused, color_text, colored_value, copies, copies_member, copies_some, holds, place_of_color, read_color, reads_color, reads_colored, unmarked, unnamed};

use crate::types::{color_named, name_of};
use crate::value::marks::{byte, hex, holds, rgb, without};
use crate::{Color, Colored};
use crossterm_flags::ValueFault;
use crossterm_flags::value::{member_to_json, read_member, shaped, text_to_json};
use serde_json::Value;
use std::alloc::{AllocError, Allocator, Global};

impl Color {
    /// The ranges of its numbers.
    fn known(self)
        ensures { FitsColor self }
    {}

    /// The colour as a JSON text: `red`, `ansi_(9)` or `rgb_(1,2,3)`.
    ///
    /// # Errors
    ///
    /// `Memory` if memory for it was refused.
    #[tactic(auto, using(crate::proofs::ColorBack::color_back, crossterm_flags::proofs::ValueLaws::json_back))]
    pub fn to_value(&self, alloc: Global) -> Result<Value, ValueFault>
        ensures json { WritesJson (string (color_text self.now)) result }
        ensures back { IfOk result (λ v. reads_color (view v) ≡ Some self.now) }
    {
        self.known();
        self.as_json(alloc)
    }

    /// The colour as JSON.
    fn as_json(self, alloc: Global) -> Result<Value, ValueFault>
        ensures { WritesJson (string (color_text self)) result }
    {
        match self {
            Color::AnsiValue(n) => Ok(Value::from(format!(in alloc; "ansi_({n})")?)),
            Color::Rgb { r, g, b } => Ok(Value::from(format!(in alloc; "rgb_({r},{g},{b})")?)),
            named => text_to_json(alloc, name_of(named)),
        }
    }

    /// The colour that a JSON text represents: by its name, with ASCII letters of either case, as `ansi_(9)`, as `rgb_(1,2,3)`, or as `#`
    /// and six hexadecimal digits.
    ///
    /// # Errors
    ///
    /// `Shape` if the JSON represents no colour, and `Memory` if memory for a copy of the text was refused.
    pub fn from_value<A: Allocator + Copy>(alloc: A, value: &Value) -> Result<Color, ValueFault>
        ensures { ReadsOrRefused (copies_some (as_str (view value.now))) (reads_color (view value.now)) result }
    {
        match value.as_str() {
            Some(text) => Color::read(alloc, text),
            None => Err(ValueFault::Shape),
        }
    }

    /// The colour that a text represents.
    fn read<A: Allocator + Copy>(alloc: A, text: &str) -> Result<Color, ValueFault>
        ensures { ReadsOrRefused (copies text.now) (read_color text.now) result }
    {
        match color_named(text) {
            Some(color) => Ok(color),
            None => Color::unnamed(alloc, text),
        }
    }

    /// The colour that a text represents which is no name.
    fn unnamed<A: Allocator + Copy>(alloc: A, text: &str) -> Result<Color, ValueFault>
        ensures { ReadsOrRefused (holds (codes "ansi") text.now || holds (codes "rgb") text.now) (unnamed text.now) result }
    {
        if holds(text, "ansi") {
            return match unmarked(alloc, text, "ansi_(") {
                Ok(number) => shaped(byte(&number).map(Color::AnsiValue)),
                Err(_) => Err(ValueFault::Memory),
            };
        }
        if holds(text, "rgb") {
            return match unmarked(alloc, text, "rgb_(") {
                Ok(parts) => shaped(rgb(&parts)),
                Err(_) => Err(ValueFault::Memory),
            };
        }
        shaped(hex(text))
    }
}

/// A text without the marks of a kind of colour.
fn unmarked<A: Allocator + Copy>(alloc: A, text: &str, mark: &str) -> Result<String<A>, AllocError>
    requires { 0 < length mark.now }
    ensures { IfOk result (λ t. string_bytes t ≡ unmarked mark.now text.now) }
{
    let rest = without(alloc, text, mark)?;
    without(alloc, &rest, ")")
}

impl Colored {
    /// The ranges of its numbers.
    fn known(self)
        ensures { FitsPlace self }
    {}

    /// The colour and its place as JSON: `{"ForegroundColor":"red"}`.
    ///
    /// # Errors
    ///
    /// `Memory` if memory for it was refused.
    #[tactic(auto, using(crate::proofs::ColorBack::colored_back, crossterm_flags::proofs::ValueLaws::json_back))]
    pub fn to_value(&self, alloc: Global) -> Result<Value, ValueFault>
        ensures json { WritesJson (colored_value self.now) result }
        ensures back { IfOk result (λ v. reads_colored (view v) ≡ Some self.now) }
    {
        self.known();
        self.as_json(alloc)
    }

    /// The colour and its place as JSON.
    fn as_json(self, alloc: Global) -> Result<Value, ValueFault>
        ensures { WritesJson (colored_value self) result }
    {
        match self {
            Colored::ForegroundColor(color) => {
                member_to_json(alloc, "ForegroundColor", color.to_value(alloc)?)
            }
            Colored::BackgroundColor(color) => {
                member_to_json(alloc, "BackgroundColor", color.to_value(alloc)?)
            }
            Colored::UnderlineColor(color) => {
                member_to_json(alloc, "UnderlineColor", color.to_value(alloc)?)
            }
        }
    }

    /// The colour at its place that a JSON object of one member represents, whose name is the place and whose value is a colour's.
    ///
    /// # Errors
    ///
    /// `Shape` if the JSON is no such object, and `Memory` if memory for a copy of the colour's text was refused.
    pub fn from_value<A: Allocator + Copy>(alloc: A, value: &Value) -> Result<Colored, ValueFault>
        ensures { ReadsOrRefused (copies_member (reads_member (view value.now))) (reads_colored (view value.now)) result }
    {
        match read_member(value) {
            Some((place, held)) => Colored::at(alloc, place, held),
            None => Err(ValueFault::Shape),
        }
    }

    /// The colour at a place of this name.
    fn at<A: Allocator + Copy>(alloc: A, place: &str, held: &Value) -> Result<Colored, ValueFault>
        ensures { ReadsOrRefused (copies_some (as_str (view held.now))) (place_of_color (place.now, view held.now)) result }
    {
        match place {
            "ForegroundColor" => Color::from_value(alloc, held).map(Colored::ForegroundColor),
            "BackgroundColor" => Color::from_value(alloc, held).map(Colored::BackgroundColor),
            "UnderlineColor" => Color::from_value(alloc, held).map(Colored::UnderlineColor),
            _ => Err(ValueFault::Shape),
        }
    }
}
