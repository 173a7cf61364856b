//! What holds of all that happens.
ghost use Rattle.crossterm_read.specs.Calls.{CountsTries};
ghost use Rattle.crossterm_read.specs.OneResult.{OneResult, OneShown};
ghost use Rattle.crossterm_read.specs.Outcomes.{HappensByDivision};
ghost use Rattle.crossterm_read.specs.OverScripts.{HistoriesOverScripts, ScriptsReplay};

/// The law of what happens: the events of bytes are those of the only division of all bytes, and resizes take no part in it.
pub fn one_happening()
    ensures { HappensByDivision }
{}

/// The law of limits: a step within a limit of time is one with some number of tries.
pub fn counts_tries()
    ensures { CountsTries }
{}

/// The law of scripts: what a new source over a script answers comes of the script's answers.
pub fn scripts_replay()
    ensures { ScriptsReplay }
{}

/// The law of histories over a script, whichever threads made their calls: what the source answered comes of the script's answers. The
/// events that were taken and those that are held are, each once, the first ones of all that happens by the script.
pub fn histories_over_scripts()
    ensures { HistoriesOverScripts }
{}

/// The law of results: two runs of the same calls over the same answers have the same replies, and leave the same events. That holds if no
/// call was refused memory, and the bytes of no answer both end an event and leave a paste open.
///
/// A query that took the keyboard's flags, and no attributes after them, may have been refused memory unseen, so it counts as one that was.
/// If no call is such a query, the replies that callers see say whether memory was refused.
pub fn one_result()
    ensures result { OneResult }
    ensures shown { OneShown }
{}
