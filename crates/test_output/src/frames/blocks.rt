//! Blocks by their bytes, written by hand from ECMA-48.

use crate::frames::failing::{Short, own_kind};
use crossterm_command::ColorOutput;
use crossterm_style::ContentStyle;
use linked_list_allocator::LocalHeap;
use screen::{Block, Buffer, DrawFault};
use std::alloc::{AllocError, Global};
use std::io::ErrorKind;
use test_support::{Calls, Came, expect, is_refused_below_a_size};

const ON: ColorOutput = ColorOutput::Enabled;

/// The first frame of `ab` above `cd`, with the cursor behind them.
const FIRST: &str = "\x1b[0m\x1b[?25h\x1b[1G\x1b[K\r\n\x1b[K\x1b[1Aab\x1b[1G\x1b[1Bcd";

/// Rows of a block of six columns, the cursor's place, and what is written. Each frame is drawn right behind the one before it.
const FRAMES: [(&[&str], (u16, u16), &str); 10] = [
    (&["ab", "cd"], (2, 1), FIRST),
    (&["ab", "cde"], (3, 1), "e"),
    (&["ab", "cde"], (3, 1), ""),
    (&["ab", "cde"], (1, 0), "\x1b[1A\x1b[2G"),
    // In the row below, a letter that is shown already is shorter than a move over it.
    (
        &["axb", "cdef"],
        (2, 0),
        "xb\x1b[3G\x1b[1Bef\x1b[1G\x1b[1A\x1b[3G",
    ),
    // Two rows more, of which one stays blank.
    (
        &["axb", "cdef", "g", ""],
        (0, 3),
        "\x1b[1B\r\n\x1b[K\r\n\x1b[K\x1b[1Ag\x1b[1G\x1b[1B",
    ),
    (&["axb", "cdef", "g", ""], (0, 0), "\x1b[3A"),
    (
        &["axb", "", "", ""],
        (3, 0),
        "\x1b[1B    \x1b[1G\x1b[1B \x1b[1G\x1b[2A\x1b[4G",
    ),
    // Behind the block's last column nobody knows the cursor's place.
    (&["axb漢q", "", "", ""], (5, 0), "漢q\x1b[6G"),
    (&["axb漢q", "", "", "x"], (1, 3), "\x1b[3B\x1b[1Gx"),
];

/// What three more rows are below a row of `ab`, with a letter in the last one.
const GROWN: &str = "\r\n\x1b[K\r\n\x1b[K\r\n\x1b[Kc";

/// A buffer with a text in each row.
fn rows_of(alloc: Global, width: u16, rows: &[&str]) -> Option<Buffer> {
    let height = u16::try_from(rows.len()).ok()?;
    let mut buffer = Buffer::new(alloc, width, height).ok()?;
    let mut at = 0u16;
    for text in rows {
        if buffer.print(0, at, text, ContentStyle::new()).is_err() {
            return None;
        }
        at = at.saturating_add(1);
    }
    Some(buffer)
}

/// Whether a block writes this for rows right behind the last frame.
fn writes(
    alloc: Global,
    block: &mut Block,
    rows: &[&str],
    cursor: (u16, u16),
    wanted: &str,
) -> bool {
    let Some(buffer) = rows_of(alloc, block.width(), rows) else {
        return false;
    };
    let mut bytes: Vec<u8> = Vec::new(alloc);
    let drawn = block.draw_next(&mut bytes, &buffer, cursor);
    drawn.is_ok()
        && bytes.as_slice() == wanted.as_bytes()
        && usize::from(block.height()) == rows.len()
        && block.row() == cursor.1
}

/// The fault by which a frame of blank cells is refused, if nothing was written.
fn refusal(
    alloc: Global,
    block: &mut Block,
    size: (u16, u16),
    cursor: (u16, u16),
) -> Option<DrawFault> {
    let buffer = Buffer::new(alloc, size.0, size.1).ok()?;
    let mut bytes: Vec<u8> = Vec::new(alloc);
    let drawn = block.draw_next(&mut bytes, &buffer, cursor);
    if bytes.is_empty() { drawn.err() } else { None }
}

/// Whether a frame that breaks off after any number of bytes is a beginning of the whole one, and the next frame begins a new block.
fn are_broken(alloc: Global, block: &mut Block) -> bool {
    let rows = ["ab", "cd"];
    let Some(buffer) = rows_of(alloc, block.width(), &rows) else {
        return false;
    };
    for room in 0..FIRST.len() {
        block.forget();
        let mut short = Short {
            bytes: Vec::new(alloc),
            room,
        };
        let drawn = block.draw(&mut short, &buffer, (2, 1));
        let is_begun = FIRST.as_bytes().starts_with(&short.bytes) && short.bytes.len() == room;
        let is_broken = drawn.err().map(own_kind) == Some(ErrorKind::BrokenPipe);
        if !is_begun || !is_broken || !writes(alloc, block, &rows, (2, 1), FIRST) {
            return false;
        }
    }
    true
}

/// Draws one row, and then four, whose memory may be refused. Then nothing is written, and the block is as it was.
fn grows(alloc: Global, block: &mut Block<&LocalHeap>) -> Came {
    let (Some(small), Some(tall)) = (
        rows_of(alloc, 6, &["ab"]),
        rows_of(alloc, 6, &["ab", "", "", "c"]),
    ) else {
        return Came::Wrong;
    };
    let mut bytes: Vec<u8> = Vec::new(alloc);
    match block.draw(&mut bytes, &small, (2, 0)) {
        Ok(()) => {}
        Err(DrawFault::Memory) if bytes.is_empty() && block.height() == 0 => return Came::Refused,
        Err(_) => return Came::Wrong,
    }
    bytes.clear();
    match block.draw_next(&mut bytes, &tall, (1, 3)) {
        Ok(()) if bytes.as_slice() == GROWN.as_bytes() => Came::Done,
        Err(DrawFault::Memory) if bytes.is_empty() && block.height() == 1 => Came::Refused,
        _ => Came::Wrong,
    }
}

/// A block is drawn and grows.
#[derive(Drop)]
struct Blocks {
    alloc: Global,
}

impl Calls for Blocks {
    fn over(&self, heap: &LocalHeap) -> Result<Came, AllocError> {
        Ok(grows(self.alloc, &mut Block::new(heap, ON, 6)))
    }
}

#[test]
fn refused_memory_leaves_a_block(rt: HostRuntime) -> Result<(), AllocError> {
    let alloc = rt.alloc();
    expect!(rt; is_refused_below_a_size(alloc, &Blocks { alloc })?);
    Ok(())
}

#[test]
fn blocks_write_in_their_rows(rt: HostRuntime) -> Result<(), AllocError> {
    let alloc = rt.alloc();
    let mut block = Block::new(alloc, ON, 6);
    for (rows, cursor, wanted) in &FRAMES {
        expect!(rt; writes(alloc, &mut block, rows, *cursor, wanted));
    }
    expect!(rt; matches!(refusal(alloc, &mut block, (5, 4), (0, 0)), Some(DrawFault::Size)));
    expect!(rt; matches!(refusal(alloc, &mut block, (6, 3), (0, 0)), Some(DrawFault::Size)));
    expect!(rt; matches!(refusal(alloc, &mut block, (6, 4), (6, 0)), Some(DrawFault::Cursor)));
    expect!(rt; matches!(refusal(alloc, &mut block, (6, 4), (0, 4)), Some(DrawFault::Cursor)));
    // A refusal changes nothing.
    expect!(rt; writes(alloc, &mut block, &["axb漢q", "", "", "xy"], (2, 3), "y"));
    block.forget_cursor();
    expect!(rt; writes(alloc, &mut block, &["axb漢q", "", "", "xy"], (2, 3), "\x1b[0m\x1b[?25h\x1b[1G\x1b[3G"));
    block.resize(4);
    expect!(rt; block.width() == 4 && block.height() == 0);
    expect!(rt; writes(alloc, &mut block, &["wxyz"], (3, 0), "\x1b[0m\x1b[?25h\x1b[1G\x1b[Kwxyz\x1b[4G"));
    expect!(rt; are_broken(alloc, &mut block));
    Ok(())
}
