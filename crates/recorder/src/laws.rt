//! What holds of all recordings.
ghost use Rattle.recorder.specs.Reads.{EntriesReadBack, LinesReadBack};
ghost use Rattle.recorder.specs.Replaying.{AnswersAsRecorded, HistoriesReplay, PlaysAlike, RecordsLines, Replays};
ghost use Rattle.recorder.specs.Stopping.{CutsKeep, FailuresTear, FrontsHappen, FrontsRead, OneList};

use crossterm_parse::laws::unique_division;
use crossterm_read::laws::{histories_over_scripts, one_result, scripts_replay};
use crossterm_read::source::Device;
use std::alloc::Allocator;
use std::io::Write;

/// The law of texts: what was written reads as what was written, answer for answer and time for time.
pub fn reads_back()
    ensures recordings { EntriesReadBack }
    ensures acts { LinesReadBack }
{}

/// The law of recordings: what a new source over a recorder answers comes of a script of the recording. That holds as long as the recording
/// wasn't stopped, and nothing came after the end of input.
///
/// So calls over a script of it have the result that they had, if they weren't refused memory, and the bytes of no answer both end an event
/// and leave a paste open.
pub fn replays<D: Device, W: Write>()
    ensures replays { Replays W.contents D.answering.answered }
    ensures plays { PlaysAlike W.contents D.answering.answered }
{
    scripts_replay();
    one_result();
}

/// The law of recordings that a shared reader made: the events that its passes took or that it holds are, each once, the first of all that
/// happens by a script of the recording. It doesn't matter on which threads the passes were. That holds as long as the recording wasn't
/// stopped, and nothing came after the end of input.
pub fn histories_replay<D: Device, W: Write>()
    ensures { HistoriesReplay W.contents D.answering.answered }
{
    scripts_replay();
    histories_over_scripts();
}

/// The law of events: what was recorded has one list of events, and a front of it has a front of these events.
pub fn one_list()
    ensures one { OneList }
    ensures fronts { FrontsHappen }
{
    unique_division();
}

/// The law of recordings that stopped: one that was cut reads as a front of what came, with its times. One whose writer failed does so
/// too, or its last line has no end, and then it doesn't read.
pub fn stops<D: Device, W: Write>()
    ensures texts { FrontsRead }
    ensures cut { CutsKeep W.contents D.answering.answered }
    ensures failed { FailuresTear W.contents D.answering.answered }
{}

/// The law of acts: those of a recording answer what they say, one answer an act, so that a script of them answers what was recorded.
pub fn answers_as_recorded<A: Allocator>()
    ensures recorded { AnswersAsRecorded A }
    ensures lines { RecordsLines }
{}
