//! A law of lines that are asked for. Its function does nothing when it runs: its contract is the law.
ghost use Rattle.std.specs.Prelude.{List, ℕ};
ghost use Rattle.crossterm_types.specs.Seen.{Seen};
ghost use Rattle.crossterm_read.specs.History.{Known};
ghost use Rattle.line_editor.specs.States.{EditorState};
ghost use Rattle.prompt.specs.Lines.{Calls, GivesLines};

use crossterm::event::source::EventSource;
use std::alloc::Global;

/// The lines of several calls are those that come out of the events that were read for them, but for those whose texts are too long.
pub fn gives_lines<S: EventSource<Global>>()
    ensures { (v u : Known S) (w z : EditorState) (given : EditorState → Seen → Seen) (events : List Seen) (lines : List (List ℕ)) → Calls S.drawn S.asked given v w u z events lines → GivesLines given events w lines z }
{}
