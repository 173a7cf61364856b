//! The bounds of an editor.

/// How much an editor holds at most.
///
/// ```
/// let limits = Limits { bytes: 200, ..Limits::default() };
/// assert_eq!(rt; limits.steps, 1_000);
/// ```
#[derive(Clone, Copy, PartialEq, Eq, Debug)]
pub struct Limits {
    /// The bytes of a line in UTF-8. A longer one is refused.
    pub bytes: usize,
    /// The accepted lines in the history. The oldest one is forgotten for a further one.
    pub lines: usize,
    /// The changes of each line that can be undone. The oldest one is forgotten for a further one.
    pub steps: usize,
    /// The texts of kills that can be yanked. The oldest one is forgotten for a further one.
    pub kills: usize,
    /// Whether an accepted line that equals the newest one isn't kept once more, as by `ignoredups` of bash's `HISTCONTROL`.
    pub ignore_dups: bool,
    /// Whether an accepted line that begins with a blank isn't kept, as by `ignorespace`.
    pub ignore_space: bool,
    /// Whether a line may have several rows, with a line feed between two of them. Then Alt-Enter types one, a paste keeps its line ends, and
    /// the text of a history has `\n` for each.
    pub multiline: bool,
}

impl Default for Limits {
    /// 65,536 bytes, 1,000 lines, 1,000 steps and 60 kills. Each accepted line is kept but an empty one, and a line has one row.
    fn default() -> Self {
        Limits {
            bytes: 65_536,
            lines: 1_000,
            steps: 1_000,
            kills: 60,
            ignore_dups: false,
            ignore_space: false,
            multiline: false,
        }
    }
}
