//! A reader whose keys are taken one by one.

use crate::bench::timing::Work;
use crate::fault::Fault;
use crossterm::event::filter::EventFilter;
use crossterm::event::read::InternalEventReader;
use crossterm::event::source::{Device, DeviceSource};
use std::alloc::Allocator;

/// A reader of a device on which keys come without end.
#[derive(Drop)]
pub(super) struct Reading<D: Device, A: Allocator> {
    pub(super) reader: InternalEventReader<DeviceSource<D, A>, A>,
}

impl<D: Device, A: Allocator + Clone> Reading<D, A> {
    pub(super) fn new(alloc: A, device: D) -> Result<Reading<D, A>, Fault> {
        let source = DeviceSource::new(alloc.clone()?, device);
        let reader = InternalEventReader::new(alloc, source);
        Ok(Reading { reader })
    }
}

impl<D: Device, A: Allocator + Clone> Work for Reading<D, A> {
    /// A key comes, and is taken.
    fn run(&mut self) -> Result<(), Fault> {
        match self.reader.read_within(1, &EventFilter) {
            Ok(Some(_)) => Ok(()),
            Ok(None) => Err(Fault::ReadFailed),
            Err(error) => Err(Fault::of_read(&error)),
        }
    }
}
