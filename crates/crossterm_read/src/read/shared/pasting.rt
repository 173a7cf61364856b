//! The open paste of a shared reader's terminal.
ghost use Rattle.std.specs.Prelude.{◌≡◌, List};
ghost use Rattle.crossterm_parse.specs.Marked.{bytes_of};
ghost use Rattle.crossterm_parse.specs.View.{Represents, paste_length};
ghost use Rattle.crossterm_parse.specs.declared.marked.Marked.{Marked};
ghost use Rattle.crossterm_read.specs.Entries.{Looks};
ghost use Rattle.crossterm_read.specs.PassViews.{knows};
ghost use Rattle.crossterm_read.specs.Shared.{IsPassOf};
ghost use Rattle.crossterm_read.specs.Sources.{HasPaste, SourceDrawn};

use crate::read::shared::pass::Pass;
use crate::read::shared::reader::EventReader;
use crate::source::{Device, DeviceSource};
use crossterm_types::event::filter::AnyFilter;
use std::alloc::Allocator;
use std::marker::Brand;
use std::sync::Wait;

impl<D: Device, A: Allocator + Clone> EventReader<DeviceSource<D, A>, A> {
    /// How many bytes of the open paste came after its start, as `DeviceSource::paste_len` returns it: 0 if no paste is open, and `None` if
    /// another has the reader.
    ///
    /// It waits for nobody, doesn't ask the device, and takes no memory. In the one history it is a poll with no try.
    ///
    /// ```
    /// if reader.paste_len(&rt, &mut pass).is_some_and(|count| count > 1 << 20) {
    ///     return Err(io::Error::from(ErrorKind::InvalidData));
    /// }
    /// ```
    pub fn paste_len<R: Wait>(
        &self,
        rt: &R,
        pass: &mut Pass<DeviceSource<D, A>, A>,
    ) -> Option<usize>
        requires { IsPassOf self.now pass.old }
        ensures pass { IsPassOf self.now pass.new }
        ensures call { Looks (SourceDrawn D.answering.answered) (λ s. D.asked s.device) HasPaste (knows pass.old) (knows pass.new) result }
    {
        let Some(mut reader) = self.slot.try_take(rt, &mut pass.slot_pass) else {
            return None;
        };
        let polled = reader.poll_within(0, &AnyFilter::Event);
        let count = reader.source().paste_len();
        self.slot
            .put::<Brand, _, R>(rt, &mut pass.slot_pass, reader, &(&polled, count));
        Some(count)
    }
}
