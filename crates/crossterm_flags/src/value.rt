//! JSON values of flags, and the parts of which the values of other types are made.
ghost use Rattle.std.specs.Prelude.{◌≡◌, ⊤, ℕ, List, MatchResult};
ghost use Rattle.std.specs.Option.{option_map, option_and_then};
ghost use Rattle.serde_json.specs.Data.{string};
ghost use Rattle.serde_json.specs.View.{view};
ghost use Rattle.crossterm_flags.specs.Values.{ReadsJson, WritesJson, below, number_value, one_member, reads_below, reads_four, reads_member, reads_two};
ghost use Rattle.crossterm_flags.specs.Variants.{name_in, reads_named, rows_of, value_in};
ghost use Rattle.crossterm_flags.specs.declared.value.ValueFault.TheVariants.{Memory, Shape};

mod flags;

use serde_json::{Value, json};
use std::alloc::{AllocError, Global};
use thiserror::Error;

/// Why there is no value.
#[derive(Clone, Copy, Debug, PartialEq, Eq, Error)]
pub enum ValueFault {
    /// Memory for it was refused.
    #[error("out of memory")]
    Memory,
    /// The JSON has another shape.
    #[error("the JSON has another shape")]
    Shape,
}

impl From<AllocError> for ValueFault {
    ghost from_gives = { λ _ fault. fault ≡ Memory };

    fn from(_refused: AllocError) -> ValueFault {
        ValueFault::Memory
    }
}

/// A type of whose values some or all are known by a name alone.
pub trait Named: Copy + PartialEq {
    // Those values with their names, in declared order.
    ghost rows: { List (List ℕ × Self) };

    /// Those values with their names, in declared order.
    fn rows<'a>() -> &'a [(&'static str, Self)]
        ensures { rows_of result.now ≡ rows };
}

/// Some variants of an enum.
#[macro_export]
macro_rules! variants {
    ($enum:ident: $($variant:ident)*) => {
        [$($enum::$variant),*]
    };
}

/// Some variants of an enum with their names, which are their identifiers.
#[macro_export]
macro_rules! named_variants {
    ($enum:ident: $($variant:ident)*) => {
        &[$((stringify!($variant), $enum::$variant)),*]
    };
}

/// The name of a value in a table, and the empty text if it has none.
pub fn name_in<'a, T: Copy + PartialEq>(table: &[(&'a str, T)], value: T) -> &'a str
    ensures { result.now ≡ name_in ⟦<T as PartialEq>⟧.eq (rows_of table.now) value }
{
    for (name, named) in table {
        if *named == value {
            return name;
        }
    }
    ""
}

/// The value of a name, if one has it.
fn value_named<T: Named>(text: &str) -> Option<T>
    ensures { result ≡ value_in T.rows text.now }
{
    for (name, value) in T::rows() {
        if *name == text {
            return Some(*value);
        }
    }
    None
}

/// The value whose name a JSON text is.
pub fn read_named<T: Named>(value: &Value) -> Option<T>
    ensures { result ≡ reads_named T.rows (view value.now) }
{
    match value.as_str() {
        Some(text) => value_named(text),
        None => None,
    }
}

/// The name of a value as JSON.
///
/// # Errors
///
/// `Memory` if memory for it was refused.
pub fn name_to_json<T: Named>(alloc: Global, value: T) -> Result<Value, ValueFault>
    ensures { WritesJson (string (name_in ⟦<T as PartialEq>⟧.eq T.rows value)) result }
{
    text_to_json(alloc, name_in(T::rows(), value))
}

/// A text as JSON.
///
/// # Errors
///
/// `Memory` if memory for it was refused.
pub fn text_to_json(alloc: Global, text: &str) -> Result<Value, ValueFault>
    ensures { WritesJson (string text.now) result }
{
    match Value::try_from_str(alloc, text) {
        Ok(value) => Ok(value),
        Err(_) => Err(ValueFault::Memory),
    }
}

/// An object with one member.
///
/// # Errors
///
/// `Memory` if memory for it was refused.
pub fn member_to_json(alloc: Global, name: &str, value: Value) -> Result<Value, ValueFault>
    ensures { WritesJson (one_member name.now (view value)) result }
{
    match json!(in alloc; {name: value}) {
        Ok(object) => Ok(object),
        Err(_) => Err(ValueFault::Memory),
    }
}

/// What was read, or that the JSON has another shape.
///
/// # Errors
///
/// `Shape` if nothing was read.
pub fn shaped<T: Drop>(reading: Option<T>) -> Result<T, ValueFault>
    ensures { ReadsJson (λ x. x) reading result }
{
    match reading {
        Some(x) => Ok(x),
        None => Err(ValueFault::Shape),
    }
}

/// A number below 256.
pub fn read_byte(value: &Value) -> Option<u8>
    ensures { result ≡ reads_below 256 (view value.now) }
{
    match value.as_u64() {
        Some(n) if n < 256 => Some(n as u8),
        _ => None,
    }
}

/// A number below 65536.
pub fn read_word(value: &Value) -> Option<u16>
    ensures { result ≡ reads_below 65536 (view value.now) }
{
    match value.as_u64() {
        Some(n) if n < 65536 => Some(n as u16),
        _ => None,
    }
}

/// The member of an object that has one: its name and its value.
pub fn read_member(value: &Value) -> Option<(&str, &Value)>
    ensures { option_map (λ m. (m.0.now, view m.1.now)) result ≡ reads_member (view value.now) }
{
    let Some(map) = value.as_object() else {
        return None;
    };
    let mut members = map.iter();
    match (members.next(), members.next()) {
        (Some((name, value)), None) => Some((name.as_str(), value)),
        _ => None,
    }
}

/// The values of the four members of an object that has these names, in their order, and no other.
pub fn read_four<'a>(
    value: &'a Value,
    a: &str,
    b: &str,
    c: &str,
    d: &str,
) -> Option<(&'a Value, &'a Value, &'a Value, &'a Value)>
    ensures { option_map (λ m. (view m.0.now, view m.1.now, view m.2.now, view m.3.now)) result ≡ reads_four a.now b.now c.now d.now (view value.now) }
{
    let Some(map) = value.as_object() else {
        return None;
    };
    let mut members = map.iter();
    let (Some(first), Some(second)) = (members.next(), members.next()) else {
        return None;
    };
    let (Some(third), Some(fourth)) = (members.next(), members.next()) else {
        return None;
    };
    if members.next().is_some() {
        return None;
    }
    if first.0.as_str() == a
        && second.0.as_str() == b
        && third.0.as_str() == c
        && fourth.0.as_str() == d
    {
        Some((first.1, second.1, third.1, fourth.1))
    } else {
        None
    }
}

/// The items of an array of two.
pub fn read_two(value: &Value) -> Option<(&Value, &Value)>
    ensures { option_map (λ m. (view m.0.now, view m.1.now)) result ≡ reads_two (view value.now) }
{
    let Some(list) = value.as_array() else {
        return None;
    };
    let mut items = list.iter();
    match (items.next(), items.next(), items.next()) {
        (Some(first), Some(second), None) => Some((first, second)),
        _ => None,
    }
}
