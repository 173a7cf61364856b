//! Events, as an editor takes them.
ghost use Rattle.std.specs.Prelude.{◌≡◌, ◌++◌, true, false, map, IfErr, IfOk, OnOk, OnErr};
ghost use Rattle.crossterm_types.specs.Seen.{seen_event};
ghost use Rattle.line_editor.specs.declared.fault.EditFault.TheVariants.{TooLong};
ghost use Rattle.line_editor.specs.Bounds.{refusal_of, is_too_long};
ghost use Rattle.line_editor.specs.Kills.{texts};
ghost use Rattle.line_editor.specs.Tasks as tasks;
ghost use Rattle.line_editor.specs.Tasks.{done, task_more};
ghost use Rattle.line_editor.specs.Turns.{AreTaken, StopsBefore, after_events, answer, seen_outcome, event_more, lines_in, lines_of_events, plain_task, ring_if, search_key, search_task, task_of, task_of_command, turned};
ghost use Rattle.line_editor.specs.Turns as turns;

use crate::actions::Action;
use crate::editor::Editor;
use crate::fault::EditFault;
use crate::keys::{KeyCommand, command_of};
use crate::outcome::Outcome;
use crate::places::{Stop, Target};
use crate::seeking::{SearchKey, search_key};
use crate::texts::is_nothing;
use crossterm_types::event::Event;
use std::alloc::Allocator;

/// The outcome of a key that may only ring.
fn ring_if<A: Allocator>(rings: bool) -> Outcome<A>
    ensures { seen_outcome result ≡ ring_if rings }
{
    if rings { Outcome::Ring } else { Outcome::Going }
}

impl<A: Allocator + Clone> Editor<A> {
    /// Does an action, and the line goes on.
    fn act_on(&mut self, action: Action) -> Result<Outcome<A>, EditFault>
        ensures ok { OnOk result (self.new ≡ done (tasks.Acts action) self.old) }
        ensures answer { IfOk result (λ outcome. seen_outcome outcome ≡ turns.Going) }
        ensures room { OnOk result (is_too_long (task_more (tasks.Acts action) self.old) self.old ≡ false) }
        ensures err { OnErr result (self.new ≡ self.old) }
        ensures fault { IfErr result (λ fault. fault ≡ refusal_of (task_more (tasks.Acts action) self.old) self.old) }
    {
        match self.act(action) {
            Ok(()) => Ok(Outcome::Going),
            Err(fault) => Err(fault),
        }
    }

    /// Does what a key is to an incremental search.
    fn obey_search(&mut self, key: SearchKey) -> Result<Outcome<A>, EditFault>
        ensures ok { OnOk result (self.new ≡ done (search_task key) self.old) }
        ensures answer { IfOk result (λ outcome. seen_outcome outcome ≡ answer (search_task key) self.old) }
        ensures room { OnOk result (is_too_long (task_more (search_task key) self.old) self.old ≡ false) }
        ensures err { OnErr result (self.new ≡ self.old) }
        ensures fault { IfErr result (λ fault. fault ≡ refusal_of (task_more (search_task key) self.old) self.old) }
    {
        let rings = match key {
            SearchKey::More(c) => self.seek_more(c),
            SearchKey::Less => self.seek_less(),
            SearchKey::GiveUp => self.give_up(),
        };
        match rings {
            Ok(rings) => Ok(ring_if(rings)),
            Err(_) => Err(EditFault::Memory),
        }
    }

    /// Begins an incremental search, or goes on with it.
    fn obey_seek(&mut self, ahead: bool) -> Result<Outcome<A>, EditFault>
        ensures ok { OnOk result (self.new ≡ done (tasks.Seeks ahead) self.old) }
        ensures answer { IfOk result (λ outcome. seen_outcome outcome ≡ answer (tasks.Seeks ahead) self.old) }
        ensures room { OnOk result (is_too_long (task_more (tasks.Seeks ahead) self.old) self.old ≡ false) }
        ensures err { OnErr result (self.new ≡ self.old) }
        ensures fault { IfErr result (λ fault. fault ≡ refusal_of (task_more (tasks.Seeks ahead) self.old) self.old) }
    {
        match self.seek_next(ahead) {
            Ok(rings) => Ok(ring_if(rings)),
            Err(_) => Err(EditFault::Memory),
        }
    }

    /// Does what a key asks for.
    fn obey(&mut self, command: KeyCommand) -> Result<Outcome<A>, EditFault>
        ensures ok { OnOk result (self.new ≡ done (task_of_command command self.old) self.old) }
        ensures answer { IfOk result (λ outcome. seen_outcome outcome ≡ answer (task_of_command command self.old) self.old) }
        ensures room { OnOk result (is_too_long (task_more (task_of_command command self.old) self.old) self.old ≡ false) }
        ensures err { OnErr result (self.new ≡ self.old) }
        ensures fault { IfErr result (λ fault. fault ≡ refusal_of (task_more (task_of_command command self.old) self.old) self.old) }
    {
        if !self.is_seeking() {
            return self.obey_plainly(command);
        }
        match search_key(command) {
            Some(key) => self.obey_search(key),
            None => self.obey_plainly(command),
        }
    }

    /// Does what a key asks for if no search goes on.
    fn obey_plainly(&mut self, command: KeyCommand) -> Result<Outcome<A>, EditFault>
        ensures ok { OnOk result (self.new ≡ done (plain_task command self.old) self.old) }
        ensures answer { IfOk result (λ outcome. seen_outcome outcome ≡ answer (plain_task command self.old) self.old) }
        ensures room { OnOk result (is_too_long (task_more (plain_task command self.old) self.old) self.old ≡ false) }
        ensures err { OnErr result (self.new ≡ self.old) }
        ensures fault { IfErr result (λ fault. fault ≡ refusal_of (task_more (plain_task command self.old) self.old) self.old) }
    {
        match command {
            KeyCommand::Act(action) => self.act_on(action),
            KeyCommand::Accept => match self.accept() {
                Ok(text) => Ok(Outcome::Line(text)),
                Err(fault) => Err(fault),
            },
            KeyCommand::Interrupt => {
                self.let_go();
                Ok(Outcome::Interrupted)
            }
            KeyCommand::EraseOrClose => {
                if is_nothing(self.line().text()) {
                    return Ok(Outcome::Closed);
                }
                self.act_on(Action::Erase(Target::Forward(Stop::Cluster)))
            }
            KeyCommand::Clear => {
                self.break_off();
                Ok(Outcome::Clear)
            }
            KeyCommand::EndSearch => {
                self.break_off();
                Ok(Outcome::Going)
            }
            KeyCommand::SearchBack => self.obey_seek(false),
            KeyCommand::SearchAhead => self.obey_seek(true),
            KeyCommand::Abort => self.obey_search(SearchKey::GiveUp),
        }
    }

    /// Takes an event. A key does what `command_of` says, a paste is pasted, and any other event does nothing.
    ///
    /// # Errors
    ///
    /// `TooLong` if what is written has no room in the line, and else `Memory` if memory was refused. Then nothing has changed.
    ///
    /// ```
    /// match editor.turn(&event)? {
    ///     Outcome::Going => {}
    ///     Outcome::Clear => draw_anew(),
    ///     Outcome::Ring => ring(),
    ///     Outcome::Line(text) => println!(rt; "{text}")?,
    ///     Outcome::Interrupted | Outcome::Closed => return Ok(()),
    /// }
    /// ```
    pub fn turn<B: Allocator>(&mut self, event: &Event<B>) -> Result<Outcome<A>, EditFault>
        ensures ok { OnOk result (self.new ≡ turned (seen_event event.now) self.old) }
        ensures answer { IfOk result (λ outcome. seen_outcome outcome ≡ answer (task_of (seen_event event.now) self.old) self.old) }
        ensures room { OnOk result (is_too_long (event_more (seen_event event.now) self.old) self.old ≡ false) }
        ensures err { OnErr result (self.new ≡ self.old) }
        ensures fault { IfErr result (λ fault. fault ≡ refusal_of (event_more (seen_event event.now) self.old) self.old) }
    {
        match event {
            Event::Key(key) => match command_of(key) {
                None => Ok(Outcome::Going),
                Some(command) => self.obey(command),
            },
            Event::Paste(text) => match self.paste(text.as_str()) {
                Ok(()) => Ok(Outcome::Going),
                Err(fault) => Err(fault),
            },
            Event::FocusGained | Event::FocusLost | Event::Mouse(_) | Event::Resize(..) => {
                Ok(Outcome::Going)
            }
        }
    }

    /// Takes an event, and adds the line that came out.
    fn turn_into<B: Allocator>(
        &mut self,
        event: &Event<B>,
        lines: &mut Vec<String<A>, A>,
    ) -> Result<(), EditFault>
        ensures ok { OnOk result (self.new ≡ turned (seen_event event.now) self.old) }
        ensures lines { OnOk result (texts lines.new.items ≡ texts lines.old.items ++ lines_in (answer (task_of (seen_event event.now) self.old) self.old)) }
        ensures room { OnOk result (is_too_long (event_more (seen_event event.now) self.old) self.old ≡ false) }
        ensures err { OnErr result (self.new ≡ self.old) }
        ensures lines_err { OnErr result (lines.new.items ≡ lines.old.items) }
        ensures fault { IfErr result (λ fault. fault ≡ TooLong → is_too_long (event_more (seen_event event.now) self.old) self.old ≡ true) }
    {
        if lines.reserve(1).is_err() {
            return Err(EditFault::Memory);
        }
        match self.turn(event) {
            Ok(Outcome::Line(text)) => {
                lines.push_reserved(text);
                Ok(())
            }
            Ok(
                Outcome::Going
                | Outcome::Clear
                | Outcome::Ring
                | Outcome::Interrupted
                | Outcome::Closed,
            ) => Ok(()),
            Err(fault) => Err(fault),
        }
    }

    /// Takes events, one after another, and adds the lines that come out. What was in the list stays before them.
    ///
    /// # Errors
    ///
    /// `TooLong` if what the next event writes has no room in the line, or `Memory` if memory was refused. Then the events before it were
    /// taken, their lines were added, and nothing else has changed.
    ///
    /// ```
    /// let mut lines = Vec::new(alloc);
    /// editor.turns(&events, &mut lines)?;
    /// ```
    pub fn turns<B: Allocator>(
        &mut self,
        events: &[Event<B>],
        lines: &mut Vec<String<A>, A>,
    ) -> Result<(), EditFault>
        ensures ok { OnOk result (self.new ≡ after_events (map seen_event events.now) self.old) }
        ensures lines { OnOk result (texts lines.new.items ≡ texts lines.old.items ++ lines_of_events (map seen_event events.now) self.old) }
        ensures room { OnOk result (AreTaken (map seen_event events.now) self.old) }
        ensures err { IfErr result (λ fault. StopsBefore fault (map seen_event events.now) self.old self.new (texts lines.old.items) (texts lines.new.items)) }
    {
        for event in events {
            self.turn_into(event, lines)?;
        }
        Ok(())
    }
}
