//! JSON values of what is cleared.

use crossterm::event::ValueFault;
use crossterm::terminal::ClearType;
use serde_json::Value;
use std::alloc::Global;
use test_support::expect;

/// Whether a text represents this, and this is written as that text.
fn is_carried(alloc: Global, text: &str, cleared: ClearType) -> bool {
    match (Value::try_from_str(alloc, text), cleared.to_value(alloc)) {
        (Ok(value), Ok(returned)) => returned == value
            && ClearType::from_value(&value) == Ok(cleared),
        _ => false,
    }
}

#[test]
fn what_is_cleared_is_carried(rt: HostRuntime) {
    expect!(rt; is_carried(rt.alloc(), "All", ClearType::All));
    expect!(rt; is_carried(rt.alloc(), "UntilNewLine", ClearType::UntilNewLine));
    expect!(rt; ClearType::from_value(&Value::Null) == Err(ValueFault::Shape));
}
