//! Screens and buffers whose memory is refused.

use crossterm_command::ColorOutput;
use crossterm_style::ContentStyle;
use linked_list_allocator::LocalHeap;
use screen::{Buffer, Screen};
use std::alloc::{AllocError, Global};
use test_support::{Calls, Came, expect, is_refused_below_a_size};

/// Resizes both, and then draws, which takes no memory of the heap. If memory is refused, the sizes stay.
fn grows(alloc: Global, screen: &mut Screen<&LocalHeap>, buffer: &mut Buffer<&LocalHeap>) -> Came {
    if buffer.resize(9, 4).is_err() {
        return if buffer.width() == 3 && buffer.height() == 2 {
            Came::Refused
        } else {
            Came::Wrong
        };
    }
    if screen.resize(9, 4).is_err() {
        return if screen.width() == 3 && screen.height() == 2 {
            Came::Refused
        } else {
            Came::Wrong
        };
    }
    for column in 0..9u16 {
        if buffer.set(column, 3, 'x', ContentStyle::new()).is_err() {
            return Came::Wrong;
        }
    }
    let mut bytes: Vec<u8> = Vec::new(alloc);
    match screen.draw(&mut bytes, ColorOutput::Enabled, &*buffer, None) {
        Ok(()) => Came::Done,
        Err(_) => Came::Wrong,
    }
}

fn makes(alloc: Global, heap: &LocalHeap) -> Came {
    let Ok(mut screen) = Screen::new(heap, 3, 2) else {
        return Came::Refused;
    };
    match Buffer::new(heap, 3, 2) {
        Ok(mut buffer) => grows(alloc, &mut screen, &mut buffer),
        Err(_) => Came::Refused,
    }
}

/// A screen and a buffer are made, resized and drawn.
#[derive(Drop)]
struct Frames {
    alloc: Global,
}

impl Calls for Frames {
    fn over(&self, heap: &LocalHeap) -> Result<Came, AllocError> {
        Ok(makes(self.alloc, heap))
    }
}

#[test]
fn refused_memory_changes_nothing(rt: HostRuntime) -> Result<(), AllocError> {
    let alloc = rt.alloc();
    expect!(rt; is_refused_below_a_size(alloc, &Frames { alloc })?);
    Ok(())
}
