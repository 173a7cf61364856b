//! The last action of an editor.
ghost use Rattle.std.specs.Prelude.{◌≡◌};
ghost use Rattle.line_editor.specs.States.{rung};

/// How far an incremental search is.
#[derive(Clone, Copy, PartialEq, Eq, Debug)]
pub(crate) struct Seek {
    /// Whether it goes to newer lines.
    pub(crate) ahead: bool,
    /// Whether it has found a line.
    pub(crate) found: bool,
}

/// The last action, as far as the next one goes on with it.
#[derive(Clone, Copy, PartialEq, Eq, Debug)]
pub(crate) enum Last {
    /// Nothing that another one goes on with.
    Other,
    /// A search for any line: the next search is one too.
    Walked,
    /// A kill: the text of the next kill is joined to its text.
    Killed,
    /// A yank: the next turn of the ring puts another kill in its place.
    Yanked,
    /// The last word of the line with so many newer ones was taken: the next time that of the next older line takes its place.
    Took(usize),
    /// A key of an incremental search, which goes on.
    Seeking(Seek),
}

/// The last action after something that only rings the bell.
pub(crate) fn rung(last: Last) -> Last
    ensures { result ≡ rung last }
{
    match last {
        Last::Killed => Last::Killed,
        Last::Other | Last::Walked | Last::Yanked | Last::Took(_) | Last::Seeking(_) => Last::Other,
    }
}
