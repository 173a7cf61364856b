//! Commands that set attributes.
ghost use Rattle.std.specs.Prelude.{Some};
ghost use Rattle.crossterm_command.specs.declared.color_output.ColorOutput.TheVariants.{Enabled};
ghost use Rattle.crossterm_command.specs.Tokens.{text_of};
ghost use Rattle.crossterm_style.specs.Acts.{attribute_acts};
ghost use Rattle.crossterm_style.specs.Styles.{attribute_functions, act_tokens};

use crate::{Attribute, Attributes};
use arrayvec::ArrayString;
use crossterm_command::{ColorOutput, Command, execute_fmt};
use std::fmt;

/// Sets an attribute (SGR: ECMA-48, 8.3.117).
#[derive(Clone, Copy, PartialEq, Eq, Debug)]
pub struct SetAttribute(pub Attribute);

impl Command for SetAttribute {
    ghost text = { λ c _. Some (text_of (attribute_functions c.0)) };

    fn write_ansi<W: fmt::Write>(&self, f: &mut W, _colors: ColorOutput) -> fmt::Result {
        let mut text = ArrayString::<8>::new();
        text.push_str("\x1b[");
        text.push_str(self.0.code());
        text.push_str("m");
        f.write_str(text.as_str())
    }
}

impl fmt::Display for SetAttribute {
    ghost output = { λ c. ⟦<SetAttribute as Command>⟧.text c Enabled };

    fn fmt<W: fmt::Write>(&self, f: &mut fmt::Formatter<W>) -> fmt::Result {
        execute_fmt(f, self)
    }
}

/// Sets the attributes of a set, one sequence each, in declared order.
#[derive(Clone, Copy, PartialEq, Eq, Debug)]
pub struct SetAttributes(pub Attributes);

impl Command for SetAttributes {
    ghost text = { λ c colors. Some (text_of (act_tokens colors (attribute_acts c.0.0))) };

    fn write_ansi<W: fmt::Write>(&self, f: &mut W, colors: ColorOutput) -> fmt::Result {
        for attribute in Attribute::all() {
            if self.0.has(*attribute) {
                SetAttribute(*attribute).write_ansi(f, colors)?;
            }
        }
        Ok(())
    }
}
