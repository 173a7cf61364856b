//! Copies to the clipboard: selections there and back, and what a copy may hold.

use crate::commands::is_cloned;
use crossterm::Command;
use crossterm::clipboard::{ClipboardSelection, ClipboardType, CopyToClipboard};
use crossterm::style::ColorOutput;
use std::alloc::Global;
use std::convert::AsSlice;
use std::io;
use test_support::{expect, is_text};

/// Letters, and the places that they represent.
static SPELLED: [(&str, &[ClipboardType]); 7] = [
    ("", &[]),
    ("c", &[ClipboardType::Clipboard]),
    ("p", &[ClipboardType::Primary]),
    ("cp", &[ClipboardType::Clipboard, ClipboardType::Primary]),
    ("pc", &[ClipboardType::Primary, ClipboardType::Clipboard]),
    ("s", &[ClipboardType::Other('s')]),
    (
        "é\u{1f980}",
        &[ClipboardType::Other('é'), ClipboardType::Other('\u{1f980}')],
    ),
];

/// Whether a selection has these places and shows as this text.
fn is_spelled(
    alloc: Global,
    made: io::Result<ClipboardSelection>,
    text: &str,
    types: &[ClipboardType],
) -> bool {
    match made {
        Ok(selection) => {
            selection.0.as_slice() == types && is_text(format!(in alloc; "{selection}"), text)
        }
        Err(_) => false,
    }
}

#[test]
fn letters_are_places(rt: HostRuntime) {
    for (text, types) in &SPELLED {
        let selection = ClipboardSelection::from_str(rt.alloc(), text);
        expect!(rt; is_spelled(rt.alloc(), selection, text, types), text);
    }
}

/// Whether a place shows as these letters.
fn shows_as(alloc: Global, place: ClipboardType, letters: &str) -> bool {
    match vec![in alloc; place] {
        Ok(places) => is_text(format!(in alloc; "{}", ClipboardSelection(places)), letters),
        Err(_) => false,
    }
}

#[test]
fn other_places_show_as_their_letters(rt: HostRuntime) {
    expect!(rt; shows_as(rt.alloc(), ClipboardType::Other('c'), "c"));
}

/// Whether this is the text of a copy.
fn writes<T: AsSlice<u8> + Drop>(
    alloc: Global,
    made: io::Result<CopyToClipboard<T>>,
    want: &str,
) -> bool {
    match made {
        Ok(copy) => {
            let mut written = String::new(alloc);
            let outcome = copy.write_ansi(&mut written, ColorOutput::Disabled);
            outcome.is_ok() && written.as_str() == want
        }
        Err(_) => false,
    }
}

/// A copy of a text of its own to the clipboard.
fn copy_of_string(alloc: Global) -> io::Result<CopyToClipboard<String>> {
    let text = String::from_str(alloc, "foobar")?;
    CopyToClipboard::to_clipboard_from(alloc, text)
}

#[test]
fn copies_hold_bytes_and_texts(rt: HostRuntime) {
    let text = CopyToClipboard::to_clipboard_from(rt.alloc(), "foo");
    expect!(rt; writes(rt.alloc(), text, "\x1b]52;c;Zm9v\x1b\\"));
    let bytes = CopyToClipboard::to_primary_from(rt.alloc(), b"fo".as_slice());
    expect!(rt; writes(rt.alloc(), bytes, "\x1b]52;p;Zm8=\x1b\\"));
    let string = copy_of_string(rt.alloc());
    expect!(rt; writes(rt.alloc(), string, "\x1b]52;c;Zm9vYmFy\x1b\\"));
}

/// A copy of bytes of its own to the clipboard.
fn copy_of_bytes(alloc: Global) -> io::Result<CopyToClipboard<Vec<u8>>> {
    let bytes = vec![in alloc; b'a']?;
    CopyToClipboard::to_clipboard_from(alloc, bytes)
}

#[test]
fn copies_are_cloned_and_printed(rt: HostRuntime) -> io::Result<()> {
    let copy = copy_of_bytes(rt.alloc())?;
    let want = "CopyToClipboard { content: [97], destination: ClipboardSelection([Clipboard]) }";
    expect!(rt; is_cloned(rt.alloc(), copy, want));
    Ok(())
}
