//! A probe of crossterm: runs a script of device answers and reader calls and prints what comes of them, or writes commands.
//!
//! `probe play` reads lines from standard input. Acts of the device: `piece HEX`, `raw HEX`, `resize COLUMNS ROWS`, `wake`, `idle`, `fault`.
//! Calls of the reader: `poll FILTER TRIES`, `read FILTER TRIES`, `take FILTER`, `position TRIES`, `keyboard TRIES`. `probe say` reads commands by their names and arguments,
//! and `colors on|off`, and writes the commands' bytes. `probe serve` sends its input through a socket of its own, and prints the events
//! there. `probe keys` reads bindings (`bind NAME CHORD,..`) and acts, and prints what their keys are cut into.
//!
//! `probe bench` reads standard input to its end, and hands it to the parser in pieces of 1024 bytes. It prints the bytes and the events by
//! kind. `probe bench frame` writes the commands of one frame into memory, and prints how many bytes and commands they are. With `--time`
//! each does so again and again for about a second, and prints the least time. `probe bench screen CASE` does both for a screen's frame:
//! `all` cells change, `few`, `one`, by a `line`, or characters that are `wide`. `probe bench make NAME BYTES` writes an input of a kind:
//! `letters`, `utf8`, `keys`, `mouse`, `replies`, `paste` or `hostile`. `probe bench held REPLIES` prints the least time in which a key comes and is
//! taken while so many replies are held. `probe bench recorded` prints the least time of a key with a recorder and without one.
//! `probe bench keys BINDINGS` prints the least time that a key takes which is fed to a matcher of so many bound lists. `probe bench take WAY
//! KEYS` takes so many keys that come alone by `read`, by `poll` and a take, by a read of a `shared` reader, by one `within` a limit, or by a
//! `stream`, or that come in a `burst`.
//!
//! Its code is built on `crossterm` and `keymap`, by their public calls.
#![tactic(auto)]

use probe_modes::bench::mode::Mode;
use probe_modes::bench::taken::Taking;
use probe_modes::fault::Fault;
use probe_modes::keys::run_keys;
use probe_modes::play::run_play;
use probe_modes::say::run_say;
use probe_modes::serve::run_serve;
use std::io::ErrorKind;
use std::process::ExitCode;
use std::{env, io};

/// The words of the command line after the program's name.
fn words(rt: &HostRuntime) -> Result<Vec<String>, Fault> {
    let mut words = match env::args(rt) {
        Ok(words) => words,
        Err(error) if error.kind() == ErrorKind::OutOfMemory => return Err(Fault::OutOfMemory),
        Err(_) => return Err(Fault::Usage),
    };
    let _program = words.next();
    Ok(words.collect(rt.alloc())?)
}

/// What the command line asks for.
enum Task {
    Play,
    Say,
    Serve,
    Keys,
    Bench(Mode),
    Take(Taking),
}

/// The task of a word that is alone.
fn task_of(word: &str) -> Result<Task, Fault> {
    match word {
        "play" => Ok(Task::Play),
        "say" => Ok(Task::Say),
        "serve" => Ok(Task::Serve),
        "keys" => Ok(Task::Keys),
        _ => Err(Fault::Usage),
    }
}

/// What these words ask for.
fn find_task(words: &[String]) -> Result<Task, Fault> {
    match words.split_first() {
        Some((first, rest)) if first.as_str() == "bench" => match Taking::read(rest) {
            Some(taking) => Ok(Task::Take(taking)),
            None => Ok(Task::Bench(Mode::read(rest)?)),
        },
        Some((word, [])) => task_of(word.as_str()),
        _ => Err(Fault::Usage),
    }
}

fn read_task(rt: &HostRuntime) -> Result<Task, Fault> {
    find_task(words(rt)?.as_slice())
}

fn main(rt: HostRuntime) -> ExitCode {
    let (alloc, mut reader, mut writer) = (rt.alloc(), rt.reader(), io::writer(&rt));
    let done = match read_task(&rt) {
        Ok(Task::Play) => run_play(alloc, &mut reader, &mut writer),
        Ok(Task::Say) => run_say(alloc, &mut reader, &mut writer),
        Ok(Task::Serve) => run_serve(&rt, alloc, &mut reader, &mut writer),
        Ok(Task::Keys) => run_keys(&rt, alloc, &mut reader, &mut writer),
        Ok(Task::Bench(mode)) => mode.run(&rt, alloc, &mut reader, &mut writer),
        Ok(Task::Take(taking)) => taking.run(rt, &mut writer),
        Err(fault) => Err(fault),
    };
    match done {
        Ok(()) => ExitCode::SUCCESS,
        Err(fault) => {
            let _ = eprintln!(rt; "{fault}");
            ExitCode::FAILURE
        }
    }
}
