//! What holds of colours and of sets of attributes.
ghost use Rattle.std.specs.Prelude.{◌≡◌, ◌<◌, ◌^◌, ◌||◌, ◌&&◌, ◌↔◌, ℕ, Bool, IsTrue, List, not, true, false};
ghost use Rattle.std.specs.Int.{bit_not, w32};
ghost use Rattle.std.specs.Int.RustNames.{bit_and, bit_or, bit_xor};
ghost use Rattle.std.specs.List.{AllByRecursion, Contains};
ghost use Rattle.crossterm_flags.specs.Orders.{ComparesBy};
ghost use Rattle.crossterm_flags.specs.Variants.{rank_order};
ghost use Rattle.crossterm_style.specs.Acts.{style_acts};
ghost use Rattle.crossterm_style.specs.Appearance.{ActsShow, ColorsShow, DisabledMakesPlain, FitsAct, FitsThere, OneUnderline, IndexedHasNames, ResetComesFirst, StyledEndsPlain, UnderlineColorStays, colors_acts};
ghost use Rattle.crossterm_style.specs.Attributes.{Combines, attributes, bit_of, differ, has_attribute, of_list};
ghost use Rattle.crossterm_style.specs.declared.types.attribute.Attribute.{Attribute};
ghost use Rattle.crossterm_style.specs.Colors.{FitsColored, LaterIsAssociative, LaterWins, NoColorsAreNeutral};
ghost use Rattle.crossterm_style.specs.Fields.{OneColor, OneColored, TextIsReadBack};
ghost use Rattle.crossterm_style.specs.Ranks.{color_order, colored_order};

use crate::{Attribute, Attributes, Color, Colored, Colors, ContentStyle};
use std::cmp::{Ord, PartialOrd};

/// `Attributes` is a set: `with`, `set`, `extend` and `|` make the union, `without` and `unset` the difference, `&` the intersection,
/// `toggle` and `^` the symmetric difference; a set of one attribute has that one alone, that of a list exactly the list's, and the empty set none.
#[tactic(auto, using(crate::proofs::SetLaws::said, crate::proofs::SetMembers::listed))]
pub fn sets()
    ensures union { (x y : ℕ) → Combines (λ p q. p || q) x y (bit_or x y) }
    ensures intersection { (x y : ℕ) → Combines (λ p q. p && q) x y (bit_and x y) }
    ensures symmetric_difference { (x y : ℕ) → Combines differ x y (bit_xor x y) }
    ensures difference { (x y : ℕ) → y < 2 ^ 32 → Combines (λ p q. p && not q) x y (bit_and x (bit_not w32 y)) }
    ensures one { (a b : Attribute) → has_attribute (bit_of a) b ≡ true → b ≡ a }
    ensures itself { (a : Attribute) → has_attribute (bit_of a) a ≡ true }
    ensures none { (a : Attribute) → has_attribute 0 a ≡ false }
    ensures listed { (all : List Attribute) (a : Attribute) → IsTrue (has_attribute (of_list all) a) ↔ Contains all a }
{}

/// Two sets of `Attributes` are equal exactly if their members are the same. It does nothing when it runs.
pub fn sets_are_their_members(left: Attributes, right: Attributes)
    ensures { (left ≡ right) ↔ ((a : Attribute) → has_attribute left.0 a ≡ has_attribute right.0 a) }
{
    left.known();
    right.known();
}

/// Colours set one after another: the later colour wins at its place, colours that aren't there change nothing, and how the steps are grouped
/// doesn't matter.
pub fn colors_then()
    ensures wins { LaterWins }
    ensures neutral { NoColorsAreNeutral }
    ensures grouped { LaterIsAssociative }
{}

/// What `parse_ansi` answers is settled by the text, and at the text of a colour it is that colour, `AnsiValue(0)` to `AnsiValue(15)` by
/// their names.
#[tactic(auto, using(crate::proofs::ReadingLaws::one_colored, crate::proofs::TextLaws::text_is_read_back))]
pub fn colors_read()
    ensures color { OneColor }
    ensures colored { OneColored }
    ensures back { TextIsReadBack }
{}

/// The declared orders of attributes and colours: variants in the order of their ranks, and two of one variant by what they hold.
pub fn declared_orders()
    ensures attributes { ComparesBy (rank_order attributes) ⟦<Attribute as Ord>⟧.cmp ⟦<Attribute as PartialOrd>⟧.partial_cmp }
    ensures colors { ComparesBy color_order ⟦<Color as Ord>⟧.cmp ⟦<Color as PartialOrd>⟧.partial_cmp }
    ensures colored { ComparesBy colored_order ⟦<Colored as Ord>⟧.cmp ⟦<Colored as PartialOrd>⟧.partial_cmp }
{}

/// What a terminal receives shows as commands paint, from any style: of acts one after another, and of two colours by one sequence.
pub fn looks()
    ensures acts { ActsShow }
    ensures colors { ColorsShow }
{}

/// With colours, a content in its style leaves the plain style plain in two cases, and in no other: it has an attribute, or no colour of
/// its underline but the terminal's own.
#[tactic(auto, using(crate::proofs::StyledLooks::styled_ends_plain))]
pub fn styled_ends_plain()
    ensures { StyledEndsPlain }
{}

/// Some looks: the palette's 9 is red; a colour that isn't written makes all plain; `Reset` of a set comes first; of two underlines only
/// the later stays; an underline's colour outlives its content.
#[tactic(auto, using(crate::proofs::StyledLooks::said))]
pub fn some_looks()
    ensures indexed { IndexedHasNames }
    ensures disabled { DisabledMakesPlain }
    ensures reset { ResetComesFirst }
    ensures underline { OneUnderline }
    ensures underline_color { UnderlineColorStays }
{}

/// The numbers of a colour are bytes. Like the two below it does nothing when it runs.
pub fn color_fits(color: Colored)
    ensures { FitsColored color }
{}

fn there_fits(color: Option<Color>)
    ensures { FitsThere color }
{}

/// The numbers of two colours are bytes.
pub fn colors_fit(colors: Colors)
    ensures { AllByRecursion FitsAct (colors_acts colors.foreground colors.background) }
{
    there_fits(colors.foreground);
    there_fits(colors.background);
}

/// The numbers of a style's colours are bytes.
pub fn style_fits(style: ContentStyle)
    ensures { AllByRecursion FitsAct (style_acts style) }
{
    there_fits(style.background_color);
    there_fits(style.foreground_color);
    there_fits(style.underline_color);
}
