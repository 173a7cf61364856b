//! Texts in cells.
ghost use Rattle.std.specs.Prelude.{◌≡◌, ◌+◌, ◌<◌, ◌≤◌, ◌∷◌, ◌++◌, ℕ, List, IfSome, None, chars, drop, false, get_or, length, map, take};
ghost use Rattle.std.specs.List.{AllByRecursion};
ghost use Rattle.std.specs.Option.{option_map};
ghost use Rattle.screen.specs.Cells.{FitsCell, IsPrinted};
ghost use Rattle.screen.specs.Overwriting.{overwritten};
ghost use Rattle.screen.specs.Parts.{text_parts};
ghost use Rattle.screen.specs.Texts.{cells_of, columns, part_fault, replacement_fault, text_columns, text_fault, within, without_marks};
ghost use Rattle.screen.specs.inside.Edits.{IsEditing, edit, edited, fault_unless_mark};
ghost use Rattle.screen.specs.inside.FirstParts.{IsPart};
ghost use Rattle.screen.specs.inside.Ascii.{BeginsBare, IsPrintableAscii, bare_cell};

use crate::cells::{Cell, symbol_fault, takes_two};
use crate::faults::CellFault;
use crate::marks::{Marks, takes_none};
use crate::overwriting::{begin_at, columns, end_before, overwrite};
use crate::packed::PackedStyle;
use crate::parts::{Part, first_part};
use crossterm_style::ContentStyle;

/// What is written of the parts of a text that no cell can hold.
#[derive(Clone, Copy)]
pub(crate) enum Editing {
    /// Nothing.
    Whole,
    /// This character in place of each, which takes one column.
    Replacing(char),
    /// Nothing, and of all others their characters alone.
    WithoutMarks,
}

/// Why cells can't hold a part, if they can't.
pub(crate) fn part_fault(part: &Part) -> Option<CellFault>
    ensures value { (p : List ℕ) → IsPart part.now p → result ≡ part_fault p }
    ensures printed { result ≡ None → IsPrinted part.now.symbol }
    ensures short { result ≡ None → part.now.is_long ≡ false }
{
    if let Some(fault) = symbol_fault(part.symbol) {
        return Some(fault);
    }
    if part.is_long {
        return Some(CellFault::ManyMarks);
    }
    None
}

/// Why cells can't hold a text, if they can't: the fault of its first character, with its marks, that they can't hold.
pub(crate) fn text_fault(text: &str) -> Option<CellFault>
    ensures { result ≡ text_fault (text_parts (chars text.now)) }
{
    let mut rest = text;
    while let Some((part, back)) = first_part(rest) {
        if let Some(fault) = part_fault(&part) {
            return Some(fault);
        }
        rest = back;
    }
    None
}

/// Why cells can't hold a character, if they can't and it takes a column or more.
fn fault_unless_mark(symbol: char) -> Option<CellFault>
    ensures { result ≡ fault_unless_mark symbol }
{
    if takes_none(symbol) {
        return None;
    }
    symbol_fault(symbol)
}

/// Why cells can't hold a text without its characters of no column, if they can't.
pub(crate) fn fault_without_marks(text: &str) -> Option<CellFault>
    ensures { result ≡ text_fault (without_marks (chars text.now)) }
{
    for symbol in text.chars() {
        if let Some(fault) = fault_unless_mark(symbol) {
            return Some(fault);
        }
    }
    None
}

/// How many columns a character takes, if cells can hold it.
fn width(symbol: char) -> u16
    ensures value { result ≡ columns symbol }
    ensures few { result ≤ 2 }
{
    if takes_two(symbol) { 2 } else { 1 }
}

/// How many of so many columns a text takes. Its first character that has no room is left out, and so are all behind it.
pub(crate) fn columns_within(text: &str, room: u16) -> u16
    ensures value { result ≡ text_columns (within room (text_parts (chars text.now))) }
    ensures few { result ≤ room }
{
    let mut used = 0;
    let mut rest = text;
    while let Some((part, back)) = first_part(rest) {
        let taken = width(part.symbol);
        if taken > room - used {
            return used;
        }
        used += taken;
        rest = back;
    }
    used
}

/// Why a character can't replace others, if it can't: it has to take one column.
pub(crate) fn replacement_fault(symbol: char) -> Option<CellFault>
    ensures value { result ≡ replacement_fault symbol }
    ensures printed { result ≡ None → IsPrinted symbol }
    ensures one { result ≡ None → columns symbol ≡ 1 }
{
    match symbol_fault(symbol) {
        Some(fault) => Some(fault),
        None => {
            if takes_two(symbol) {
                return Some(CellFault::Wide);
            }
            None
        }
    }
}

/// What is written of a part: a character and its marks, if anything.
fn edit(part: &Part, how: Editing) -> Option<(char, Marks)>
    requires how { IsEditing how }
    ensures value { (p : List ℕ) → IsPart part.now p → edit how p ≡ option_map (λ shown. shown.0 ∷ shown.1) result }
    ensures held { (p : List ℕ) → IsPart part.now p → IfSome result (λ shown. FitsCell (shown.0 ∷ shown.1)) }
{
    match how {
        Editing::Whole => match part_fault(part) {
            None => Some((part.symbol, part.marks)),
            Some(_) => None,
        },
        Editing::Replacing(replacement) => match part_fault(part) {
            None => Some((part.symbol, part.marks)),
            Some(_) => Some((replacement, Marks::none())),
        },
        Editing::WithoutMarks => match symbol_fault(part.symbol) {
            None => Some((part.symbol, Marks::none())),
            Some(_) => None,
        },
    }
}

/// How many printable characters of ASCII some bytes begin with, so many at most.
fn printable_front(bytes: &[u8], most: usize) -> usize
    ensures few { result ≤ most }
    ensures inside { result ≤ length bytes.now }
    ensures printable { (k : ℕ) → k < result → IsPrintableAscii (get_or bytes.now k 0) }
{
    let mut count = 0;
    while count < most && count < bytes.len() {
        if bytes[count] < 32 || bytes[count] > 126 {
            break;
        }
        count += 1;
    }
    count
}

/// How many printable characters of ASCII a text begins with, so many at most, without the last one if it may have a mark.
pub(crate) fn bare_ascii(text: &str, most: usize) -> usize
    ensures bare { BeginsBare text.now result }
    ensures few { result ≤ most }
{
    let bytes = text.as_bytes();
    let count = printable_front(bytes, most);
    // No character of one byte is a mark.
    if count > 0 && count < bytes.len() && bytes[count] >= 128 {
        return count - 1;
    }
    count
}

/// Sets cells, from a place on, to characters of one byte.
fn set_ascii(cells: &mut [Cell], at: usize, letters: &[u8], style: PackedStyle)
    requires { at + length letters.now ≤ length cells.old }
    ensures { cells.new ≡ take at cells.old ++ (map (bare_cell style) letters.now ++ drop (at + length letters.now) cells.old) }
{
    for k in 0..letters.len() {
        cells[at + k] = Cell::of(letters[k] as char, Marks::none(), style);
    }
}

/// Overwrites so many cells at most, from a place on, by printable characters of ASCII that a text begins with, and returns how many.
fn write_ascii(cells: &mut [Cell], at: usize, room: usize, text: &str, style: PackedStyle) -> usize
    requires room { at + room ≤ length cells.old }
    ensures bare { BeginsBare text.now result }
    ensures few { result ≤ room }
    ensures cells { cells.new ≡ overwritten cells.old at (map (bare_cell style) (take result text.now)) }
{
    let count = bare_ascii(text, room);
    if count == 0 {
        return 0;
    }
    end_before(cells, at);
    begin_at(cells, at + count);
    set_ascii(cells, at, &text.as_bytes()[0..count], style);
    count
}

/// Overwrites so many cells at most, from a place on, by those of a text, and returns how many.
pub(crate) fn write_text(
    cells: &mut [Cell],
    at: usize,
    room: usize,
    text: &str,
    how: Editing,
    style: &ContentStyle,
) -> usize
    requires room { at + room ≤ length cells.old }
    requires how { IsEditing how }
    ensures count { result ≡ text_columns (within room (edited how (text_parts (chars text.now)))) }
    ensures few { result ≤ room }
    ensures cells { cells.new ≡ overwritten cells.old at (cells_of style.now (within room (edited how (text_parts (chars text.now))))) }
    ensures held { AllByRecursion FitsCell (within room (edited how (text_parts (chars text.now)))) }
{
    let style = PackedStyle::new(style);
    let mut count = write_ascii(cells, at, room, text, style);
    let mut rest = &text[count..text.len()];
    while let Some((part, back)) = first_part(rest) {
        rest = back;
        let (symbol, marks) = match edit(&part, how) {
            None => continue,
            Some(shown) => shown,
        };
        let cell = Cell::of(symbol, marks, style);
        let taken = columns(&cell);
        if taken > room - count {
            return count;
        }
        overwrite(cells, at + count, cell);
        count += taken;
    }
    count
}
