//! What a command is.
ghost use Rattle.std.specs.Prelude.{◌⊎◌, ℕ, List, Option, OnOk, OnErr, ⊤};
ghost use Rattle.std.specs.Fmt.{option_append};
ghost use Rattle.crossterm_command.specs.Writing.{Writes};

use crate::ColorOutput;
use std::fmt;

/// Something that a text asks of a terminal, mostly a control function of ECMA-48.
///
/// ```
/// impl Command for Bell {
///     ghost text = { λ _ _. Some (codes "\u{7}") };
///
///     fn write_ansi<W: fmt::Write>(&self, f: &mut W, _colors: ColorOutput) -> fmt::Result {
///         f.write_str("\x07")
///     }
/// }
/// ```
pub trait Command {
    ghost use Rattle.crossterm_command.specs.declared.color_output.ColorOutput.{ColorOutput};

    /// The text, or `None` if the command doesn't say it.
    ghost text: { Self → ColorOutput → Option (List ℕ) };

    /// What the command says if `write_ansi` returns an error: nothing, if it doesn't say more.
    ghost fails: { Self → ColorOutput → Type 0 } = { λ _ _. ⊤ };

    /// Writes the command's text.
    ///
    /// # Errors
    ///
    /// `fmt::Error` if `f` failed, or the command by itself.
    fn write_ansi<W: fmt::Write>(&self, f: &mut W, colors: ColorOutput) -> fmt::Result
        ensures ok { OnOk result (Writes W.write_str_gives f.old (text self.now colors) f.new) }
        ensures err { OnErr result (fails self.now colors) };
}

impl<C: Command> Command for &C {
    ghost text = { λ c colors. C.text c.now colors };

    ghost fails = { λ c colors. C.fails c.now colors };

    fn write_ansi<W: fmt::Write>(&self, f: &mut W, colors: ColorOutput) -> fmt::Result {
        C::write_ansi(*self, f, colors)
    }
}

/// Two commands, one after the other.
impl<C: Command, D: Command> Command for (C, D) {
    ghost text = { λ both colors. option_append (C.text both.0 colors) (D.text both.1 colors) };

    ghost fails = { λ both colors. C.fails both.0 colors ⊎ D.fails both.1 colors };

    fn write_ansi<W: fmt::Write>(&self, f: &mut W, colors: ColorOutput) -> fmt::Result {
        self.0.write_ansi(f, colors)?;
        self.1.write_ansi(f, colors)
    }
}
