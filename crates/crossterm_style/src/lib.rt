//! Colours, attributes and styled text: crossterm's `style`, but for `Stylize`.
//!
//! What is proved, beyond safety:
//!
//! | Proved | By the contract of |
//! |---|---|
//! | each command of style writes exactly its text, with colours and without, and looks as it paints | each `Command::text`, `Display`; `laws::{looks, styled_ends_plain, some_looks}` |
//! | `parse_ansi` returns what its definition reads; with colours on, a colour's own text reads back | `Colored::{parse_ansi, text}`, `laws::colors_read` |
//! | `Attributes` is a set: two are equal exactly if their members are; JSON values read back | each method; `laws::{sets, sets_are_their_members}`; `to_value`, `from_value` |
//!
//! What to believe, in the order in which it reads (`specs/`), and the contracts that it is proved by:
//!
//! | Definitions | Lines | Of | Contract |
//! |---|---|---|---|
//! | `Attributes` | 73 | names, parameters and bits of attributes, and sets of them | `Attribute`, `laws::{sets, sets_are_their_members}` |
//! | `AttributeSet` | 6 | a set as a clause sees it | `Attributes` |
//! | `Colors` | 137 | what terminals receive for colours, and how it reads | `Colored`, `Colors`, `laws` |
//! | `ColorNames` | 48 | the names of colours | `Color::from_str` |
//! | `Fields` | 75 | the fields of a text | `fields.rt` |
//! | `Reading` | 37 | how SGR parameters read as colours | `Color::parse_ansi`, `Colored::parse_ansi` |
//! | `Counts` | 20 | how many colours a terminal has | `available_color_count` |
//! | `Ranks` | 46 | the declared orders | `laws::declared_orders` |
//! | `Styles` | 54 | what the commands of style write | `Command::text` of each |
//! | `Looks` | 220 | how a terminal shows what it receives | `laws::looks` |
//! | `Acts` | 137 | what commands do to the look | `laws::some_looks` |
//! | `Appearance` | 77 | what terminals receive shows as commands paint | `laws::{looks, styled_ends_plain}` |
//! | `Values` | 179 | colours and attributes as JSON | `to_value` and `from_value` of each |
//!
//! Crates above cite the lemmas of `ActLooks`, `Fitting`, `Parameters`, `ActTokens`, `TextLaws`.
//!
//! A function's proof is in `proofs/` at the function's path; if there is no file, the prover found it by itself.
#![tactic(auto)]

mod attributes;
mod commands;
mod content_style;
mod count;
pub mod digits;
mod fields;
pub mod laws;
mod print;
mod styled_content;
mod types;
mod value;

pub use attributes::Attributes;
pub use commands::{
    PrintStyledContent, ResetColor, SetAttribute, SetAttributes, SetBackgroundColor, SetColors,
    SetForegroundColor, SetStyle, SetUnderlineColor,
};
pub use content_style::{AsStyle, ContentStyle, style};
pub use count::available_color_count;
pub use crossterm_command::ColorOutput;
pub use crossterm_flags::ValueFault;
pub use print::Print;
pub use styled_content::StyledContent;
pub(crate) use types::SgrColor;
pub use types::{Attribute, AttributeIter, Color, Colored, Colors, SGR};
