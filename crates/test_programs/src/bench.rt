//! What no row of `probe bench` shows: a second frame, and two bodies with macros.

use crate::expect;
use crossterm::style::ColorOutput;
use probe_modes::bench::frame::Screen;
use probe_modes::bench::timing::Work;
use probe_modes::bench::{print_first, show_now};
use probe_modes::fault::Fault;
use std::io;

#[test]
fn a_second_frame_is_in_the_place_of_the_first(rt: HostRuntime) -> Result<(), Fault> {
    let mut screen = Screen::new(rt.alloc());
    screen.run()?;
    screen.run()?;
    let begins = screen
        .bytes()
        .starts_with(b"\x1b[1;1H\x1b[38;5;0;48;2;0;0;128m\x1b[0ma\x1b[1;2H");
    expect(&rt, begins, "the first cell");
    expect(&rt, screen.bytes().len() == 390_984, "the length");
    Ok(())
}

#[test]
fn macros_write_their_commands(rt: HostRuntime) -> io::Result<()> {
    let mut output: Vec<u8> = Vec::new(rt.alloc());
    print_first(&mut output, ColorOutput::Enabled)?;
    show_now(&mut output, ColorOutput::Disabled)?;
    let holds = output.as_slice() == b"\x1b[1;1Hab\x1b[?25h".as_slice();
    expect(&rt, holds, "the first cell and the cursor");
    Ok(())
}
