//! Whether colours are written.
ghost use Rattle.std.specs.Prelude.{◌≡◌, if◌then◌else◌};
ghost use Rattle.crossterm_command.specs.Environment.{is_set};

/// Whether the colours of commands are written.
#[derive(Clone, Copy, PartialEq, Eq, Debug)]
pub enum ColorOutput {
    /// Colours are written.
    Enabled,
    /// Colours have no text, for when `NO_COLOR` is set: a command that sets some writes no parameters for them. `ESC [ m`, which is what
    /// is left of one colour's sequence, takes attributes off too, as in the Rust crate.
    Disabled,
}

impl ColorOutput {
    /// Returns `Disabled` if the value of `NO_COLOR` is there and not empty.
    ///
    /// ```
    /// let colors = match env::var(rt, "NO_COLOR") {
    ///     Ok(value) => ColorOutput::from_no_color(Some(value.as_str())),
    ///     Err(_) => ColorOutput::Enabled,
    /// };
    /// ```
    pub fn from_no_color(no_color: Option<&str>) -> ColorOutput
        ensures { result ≡ (if is_set no_color.entry then ColorOutput.Disabled else ColorOutput.Enabled) }
    {
        match no_color {
            Some(value) if !value.is_empty() => ColorOutput::Disabled,
            _ => ColorOutput::Enabled,
        }
    }
}
