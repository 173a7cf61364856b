//! JSON values of events: what is written of a value reads back as that value (`specs/Values.antt`).
ghost use Rattle.std.specs.Prelude.{◌≡◌, IfOk, Some};
ghost use Rattle.std.specs.Option.{option_map};
ghost use Rattle.serde_json.specs.View.{view};
ghost use Rattle.crossterm_flags.specs.Values.{WritesJson};

mod keys;
mod mouse;
mod variants;

use crate::event::{Event, KeyEvent, MouseEvent};
use crossterm_flags::ValueFault;
use crossterm_flags::value::{
    member_to_json, read_member, read_two, read_word, shaped, text_to_json,
};
use serde_json::{Value, json};
use std::alloc::{Allocator, Global};

impl<A: Allocator> Event<A> {
    ghost use Rattle.crossterm_types.specs.Seen.{seen_event};
    ghost use Rattle.crossterm_types.specs.Values.{FitsEvent, ReadsEvent, event_value, holding_event, plain_event, reads_event, size_of};
    ghost use Rattle.std.specs.Option.{option_and_then};
    ghost use Rattle.crossterm_flags.specs.Values.{reads_two};

    /// The ranges of its numbers.
    fn known(&self)
        ensures { FitsEvent self.now }
    {
        match self {
            Event::Key(key) => key.known(),
            Event::Mouse(mouse) => mouse.known(),
            Event::Resize(columns, rows) => {
                let _size = (*columns, *rows);
            }
            _ => {}
        }
    }

    /// The event as JSON: its variant, and if it holds something, an object of the variant and that, as `{"Resize":[80,24]}`.
    ///
    /// ```
    /// let value = event.to_value(alloc)?;
    /// ```
    ///
    /// # Errors
    ///
    /// `Memory` if memory for it was refused.
    #[tactic(auto, using(crate::proofs::ValueLaws::event_back, crossterm_flags::proofs::ValueLaws::json_back))]
    pub fn to_value(&self, alloc: Global) -> Result<Value, ValueFault>
        ensures json { WritesJson (event_value self.now) result }
        ensures back { IfOk result (λ v. reads_event (view v) ≡ Some (seen_event self.now)) }
    {
        self.known();
        self.as_json(alloc)
    }

    /// The event as JSON.
    fn as_json(&self, alloc: Global) -> Result<Value, ValueFault>
        ensures { WritesJson (event_value self.now) result }
    {
        match self {
            Event::FocusGained => text_to_json(alloc, "FocusGained"),
            Event::FocusLost => text_to_json(alloc, "FocusLost"),
            Event::Key(key) => member_to_json(alloc, "Key", key.to_value(alloc)?),
            Event::Mouse(mouse) => member_to_json(alloc, "Mouse", mouse.to_value(alloc)?),
            Event::Paste(text) => member_to_json(
                alloc,
                "Paste",
                text_to_json(alloc, text.as_str())?,
            ),
            Event::Resize(columns, rows) => {
                let size = json!(in alloc; [(*columns), (*rows)])?;
                member_to_json(alloc, "Resize", size)
            }
        }
    }

    /// The event that JSON represents.
    ///
    /// # Errors
    ///
    /// `Shape` if the JSON represents no event, and `Memory` if memory for the text of a paste was refused.
    pub fn from_value(alloc: A, value: &Value) -> Result<Event<A>, ValueFault>
        ensures { ReadsEvent (reads_event (view value.now)) result }
    {
        if let Some(name) = value.as_str() {
            if let Some(event) = Event::plain(name) {
                return Ok(event);
            }
        }
        match read_member(value) {
            Some((variant, held)) => Event::holding(alloc, variant, held),
            None => Err(ValueFault::Shape),
        }
    }

    /// An event that holds nothing, by its variant.
    fn plain(variant: &str) -> Option<Event<A>>
        ensures { option_map seen_event result ≡ plain_event variant.now }
    {
        match variant {
            "FocusGained" => Some(Event::FocusGained),
            "FocusLost" => Some(Event::FocusLost),
            _ => None,
        }
    }

    /// An event that holds something, by its variant.
    fn holding(alloc: A, variant: &str, held: &Value) -> Result<Event<A>, ValueFault>
        ensures { ReadsEvent (holding_event (variant.now, view held.now)) result }
    {
        match variant {
            "Key" => match KeyEvent::from_value(held) {
                Ok(key) => Ok(Event::Key(key)),
                Err(fault) => Err(fault),
            },
            "Mouse" => match MouseEvent::from_value(held) {
                Ok(mouse) => Ok(Event::Mouse(mouse)),
                Err(fault) => Err(fault),
            },
            "Paste" => match held.as_str() {
                Some(text) => match String::from_str(alloc, text) {
                    Ok(text) => Ok(Event::Paste(text)),
                    Err(_) => Err(ValueFault::Memory),
                },
                None => Err(ValueFault::Shape),
            },
            "Resize" => shaped(Event::size(held)),
            _ => Err(ValueFault::Shape),
        }
    }

    /// A size.
    fn size(value: &Value) -> Option<Event<A>>
        ensures { option_map seen_event result ≡ option_and_then size_of (reads_two (view value.now)) }
    {
        let (columns, rows) = read_two(value)?;
        Some(Event::Resize(read_word(columns)?, read_word(rows)?))
    }
}
