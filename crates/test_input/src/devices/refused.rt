//! Memory that is refused. Each allocation is refused in turn by the command that runs the tests, as `rt try --test --fail-alloc N`.

use crate::devices::ends::{piped, sized, socket};
use std::alloc::Global;
use std::fs::{File, Files};
use std::io::{self, ErrorKind};
use std::net::Net;
use std::time::Clock;
use test_support::expect;

/// Whether something was made, or memory was refused.
fn is_made_or_refused<T: Drop>(made: io::Result<T>) -> bool {
    match made {
        Ok(_) => true,
        Err(error) => error.kind() == ErrorKind::OutOfMemory,
    }
}

fn makes<R: Net + Files<File = File> + Clock>(rt: &R, alloc: Global) -> bool {
    is_made_or_refused(piped(rt, alloc))
        && is_made_or_refused(sized(rt, alloc))
        && is_made_or_refused(socket(rt, alloc))
}

#[test]
fn a_device_is_made_or_memory_was_refused(rt: HostRuntime) -> io::Result<()> {
    expect!(rt; makes(&rt, rt.alloc()));
    Ok(())
}
