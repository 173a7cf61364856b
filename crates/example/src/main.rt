//! Runs one of the `example_modes` by its name, as `example table`.
//!
//! `browse`, `clock`, `edit`, `events`, `keys`, `paint`, `record`, `shell` and `stream` run in a terminal:
//! `terminal/with_terminal crates/example/out/example browse`.
#![tactic(auto)]

use example_modes::{
    browse, clock, edit, events, frames, keylog, keys, own_command, paint, record, replay, shell,
    stream, table,
};
use own_terminal::Tty;
use prompt::LockFile;
use std::env;
use std::io::{self, BufWriter, ErrorKind};
use std::rt::Files;
use std::sync::Wait;
use std::thread::Threads;
use std::time::Clock;

const USAGE: &str = "usage: example NAME
by itself: frames, keylog, own_command, table, paint serve PORT, paint serve PORT SECONDS
  replay FILE, replay FILE --speed N, replay FILE --probe, replay FILE --cast; each with --front after FILE if the recording was cut
by terminal/with_terminal: browse, clock, edit, events, keys, keys FILE, paint, record FILE, record FILE --over, shell FILE, stream";

/// Runs an example on standard input and output. If there is none of the name, standard error lists them.
fn run_plain(rt: &HostRuntime, name: &str, words: &[String]) -> io::Result<()> {
    let alloc = rt.alloc();
    let mut out = BufWriter::new(alloc, io::writer(rt))?;
    match (name, words) {
        ("frames", []) => frames::run(rt, alloc, rt.reader(), &mut out),
        ("keylog", []) => keylog::run(alloc, &mut rt.reader(), &mut out),
        ("own_command", []) => own_command::run(alloc, rt.reader(), &mut out),
        ("table", []) => table::run(rt, &mut out),
        ("paint", [word, port, more @ ..]) if word.as_str() == "serve" => {
            paint::serve(rt, alloc, rt.stdin(), port.as_str(), more)
        }
        ("replay", [file, form @ ..]) => replay::run(rt, file.as_str(), form, &mut out),
        _ => {
            eprintln!(rt; "{USAGE}")?;
            Err(io::Error::new(ErrorKind::InvalidInput, "no example takes these words"))
        }
    }
}

/// Runs an example in a terminal: `keys`, with the bindings of a file, if the name is none of the others.
fn run_in_terminal<R: AllocGlobal + Files + Clock + Threads + Wait + Copy + Send + Drop + 'static>(
    rt: &R,
    tty: &mut Tty<'_>,
    name: &str,
    file: Option<&str>,
) -> io::Result<()>
where
    R::File: LockFile,
{
    match name {
        "browse" => browse::run(rt, tty),
        "edit" => edit::run(rt, tty),
        "events" => events::run(rt, tty),
        "paint" => paint::run(rt, tty),
        "shell" => shell::run(rt, tty, file.unwrap_or("history")),
        _ => keys::run(rt, tty, file),
    }
}

/// Whether these words may come between a recording's file and the folder of the pipes: none, or the one by which it is written over.
fn may_follow_file(words: &[String]) -> bool {
    matches!(words, []) || matches!(words, [word] if word.as_str() == "--over")
}

fn main(rt: HostRuntime) -> io::Result<()> {
    let words: Vec<String> = env::args(&rt)?.skip(1).collect(rt.alloc())?;
    let Some((name, words)) = words.as_slice().split_first() else {
        return run_plain(&rt, "", &[]);
    };
    // In a terminal the last word is the folder of its pipes.
    match (name.as_str(), words) {
        ("record", [file, over @ .., folder]) if may_follow_file(over) => {
            let (file, folder, is_over) = (file.as_str(), folder.as_str(), !over.is_empty());
            let (mut tty, watch) = record::open(
                &rt,
                rt.stdin(),
                rt.stdout(),
                file,
                is_over,
                folder,
            )?;
            record::run(&rt, &mut tty, &watch)?;
            tty.leave()
        }
        ("clock", [_]) => {
            let (mut tty, mut others) = own_terminal::start_shared(
                &rt,
                rt.stdin(),
                rt.stdout(),
                1,
            )?;
            if let Some(mut events) = others.pop() {
                clock::run(&rt, &mut tty, &mut events)?;
            }
            tty.leave()
        }
        ("stream", [_]) => {
            let (mut tty, mut events) = own_terminal::start_streaming(
                &rt,
                rt.stdin(),
                rt.stdout(),
            )?;
            stream::run(&rt, &mut tty, &mut events)?;
            tty.leave()
        }
        ("paint", [word, ..]) if word.as_str() == "serve" => run_plain(&rt, "paint", words),
        (name @ ("browse" | "edit" | "events" | "keys" | "paint" | "shell"), [file @ .., _]) => {
            let mut tty = own_terminal::start(&rt, rt.stdin(), rt.stdout())?;
            run_in_terminal(&rt, &mut tty, name, file.first().map(|file| file.as_str()))?;
            tty.leave()
        }
        (name, words) => run_plain(&rt, name, words),
    }
}
