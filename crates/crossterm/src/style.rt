//! Colours, attributes and styled text.

pub use crossterm_style::{
    AsStyle, Attribute, AttributeIter, Attributes, Color, ColorOutput, Colored, Colors,
    ContentStyle, Print, PrintStyledContent, ResetColor, SGR, SetAttribute, SetAttributes,
    SetBackgroundColor, SetColors, SetForegroundColor, SetStyle, SetUnderlineColor, StyledContent,
    available_color_count, laws, style,
};
pub use crossterm_stylize::Stylize;
