//! The fields of a text.
ghost use Rattle.std.specs.Prelude.{◌≡◌, ◌==◌, ℕ, ◌↔◌, [], ◌∷◌, Some, IsTrue, MatchOption};
ghost use Rattle.crossterm_style.specs.Fields.{fields, fields_left, AreParts, BeginsWith, BeginsWithNone};
ghost use Rattle.crossterm_style.specs.Reading.{ReadsInk};
ghost use Rattle.crossterm_style.specs.declared.types.sgr.SgrColor.{SgrColor};

use crate::SgrColor;

/// The fields of a text, between semicolons, of which some were taken.
#[derive(Clone, Copy)]
pub(crate) struct Fields<'a> {
    rest: Option<&'a str>,
}

impl<'a> Fields<'a> {
    /// All fields of a text.
    pub(crate) fn of(text: &'a str) -> Fields<'a>
        ensures { fields_left result.rest ≡ fields text.now }
    {
        Fields { rest: Some(text) }
    }

    /// Whether none is left.
    pub(crate) fn is_empty(self) -> bool
        ensures { IsTrue result ↔ (fields_left self.entry.rest ≡ []) }
    {
        self.rest.is_none()
    }

    /// Takes a field.
    fn next(self) -> Option<(&'a str, Fields<'a>)>
        ensures { MatchOption result (fields_left self.entry.rest ≡ [])
            (λ x. fields_left self.entry.rest ≡ x.0.now ∷ fields_left x.1.rest) }
    {
        match self.rest {
            None => None,
            Some(text) => match text.split_once(';') {
                Some((field, rest)) => Some((field, Fields { rest: Some(rest) })),
                None => Some((text, Fields { rest: None })),
            },
        }
    }

    /// Takes a field that is the number of a byte.
    pub(crate) fn byte(self) -> Option<(u8, Fields<'a>)>
        ensures { MatchOption result (BeginsWithNone (fields_left self.entry.rest))
            (λ x. BeginsWith (fields_left self.entry.rest) x.0 (fields_left x.1.rest)) }
    {
        let Some((field, fields)) = self.next() else {
            return None;
        };
        match field.parse::<u8>() {
            Ok(n) => Some((n, fields)),
            Err(_) => None,
        }
    }

    /// The number of a byte that is the last field.
    fn last_byte(self) -> Option<u8>
        ensures { MatchOption result ((n : ℕ) → BeginsWith (fields_left self.entry.rest) n [] → ⊥)
            (λ n. BeginsWith (fields_left self.entry.rest) n []) }
    {
        match self.byte() {
            Some((n, fields)) if fields.is_empty() => Some(n),
            _ => None,
        }
    }

    /// Three numbers of bytes that are the last fields.
    fn parts(self) -> Option<(u8, u8, u8)>
        ensures { MatchOption result ((r g b : ℕ) → AreParts (fields_left self.entry.rest) r g b → ⊥)
            (λ x. AreParts (fields_left self.entry.rest) x.0 x.1 x.2) }
    {
        let Some((r, fields)) = self.byte() else {
            return None;
        };
        let Some((g, fields)) = fields.byte() else {
            return None;
        };
        match fields.last_byte() {
            Some(b) => Some((r, g, b)),
            None => None,
        }
    }

    /// The colour that the last fields represent.
    pub(crate) fn sgr(self) -> Option<SgrColor>
        ensures { MatchOption result ((sgr : SgrColor) → ReadsInk (fields_left self.entry.rest) sgr → ⊥)
            (λ sgr. ReadsInk (fields_left self.entry.rest) sgr) }
    {
        let Some((form, fields)) = self.byte() else {
            return None;
        };
        match form {
            5 => match fields.last_byte() {
                Some(n) => Some(SgrColor::Indexed(n)),
                None => None,
            },
            2 => match fields.parts() {
                Some((r, g, b)) => Some(SgrColor::Rgb(r, g, b)),
                None => None,
            },
            _ => None,
        }
    }
}
