//! The state of an open sequence as numbers, and back.
ghost use Rattle.std.specs.Prelude.{◌≡◌};
ghost use Rattle.crossterm_c.specs.State.{x10_at, number_at, part_at, field_place, begun_at, opening_at, met_at, parameters_at, state_at};

use crossterm_parse::character::{Begun, Character};
use crossterm_parse::fields::{Field, Fields, Part, Place};
use crossterm_parse::mouse::X10Report;
use crossterm_parse::number::Number;
use crossterm_parse::numbered::Parameters;
use crossterm_parse::paste::{Met, Opening};
use crossterm_parse::state::State;
use crossterm_parse::utf8::Validity;

/// A number that is being read.
#[repr(C)]
#[derive(Clone, Copy, Default)]
pub struct GelvanhNumber {
    /// How far: with no byte yet, a `+`, a value, past 32 bits, or no number.
    pub kind: u32,
    /// The value, if there is one.
    pub value: u32,
}

/// The bytes of a character so far.
#[repr(C)]
#[derive(Clone, Copy, Default)]
pub struct GelvanhBytes {
    /// How many.
    pub count: u8,
    /// The first.
    pub first: u8,
    /// The second.
    pub second: u8,
    /// The third.
    pub third: u8,
}

/// The state of the parser. All zeros is a parser that has seen no bytes.
#[repr(C)]
#[derive(Clone, Copy, Default)]
pub struct GelvanhState {
    /// Which of the twelve states.
    pub kind: u8,
    /// The part of the first field that is being read.
    pub part_one: u8,
    /// The part of the second field that is being read.
    pub part_two: u8,
    /// The field that is being read.
    pub place: u8,
    /// The last byte of a numbered sequence.
    pub last: u8,
    /// Whether the bytes of a numbered sequence are UTF-8.
    pub validity: u8,
    /// How far a paste's start is met, or its end.
    pub opening: u8,
    /// Whether an escape is before a character.
    pub escaped: u8,
    /// The bytes of a character so far, or those of a report of the mouse.
    pub begun: GelvanhBytes,
    /// The first field's first part, or the text of a reply.
    pub one: GelvanhNumber,
    /// The first field's second part.
    pub one_more: GelvanhNumber,
    /// The second field's first part.
    pub two: GelvanhNumber,
    /// The second field's second part.
    pub two_more: GelvanhNumber,
    /// The third field.
    pub three: GelvanhNumber,
}

fn flat_number(number: Number) -> GelvanhNumber
    ensures { number_at result ≡ number }
{
    match number {
        Number::Empty => GelvanhNumber { kind: 0, value: 0 },
        Number::Plus => GelvanhNumber { kind: 1, value: 0 },
        Number::Value(value) => GelvanhNumber { kind: 2, value },
        Number::Big => GelvanhNumber { kind: 3, value: 0 },
        Number::Bad => GelvanhNumber { kind: 4, value: 0 },
    }
}

fn number_of(flat: GelvanhNumber) -> Number
    ensures { result ≡ number_at flat }
{
    match flat.kind {
        0 => Number::Empty,
        1 => Number::Plus,
        2 => Number::Value(flat.value),
        3 => Number::Big,
        _ => Number::Bad,
    }
}

fn flat_begun(begun: Begun) -> GelvanhBytes
    ensures { begun_at result ≡ begun }
{
    match begun {
        Begun::One(first) => GelvanhBytes {
            count: 1,
            first,
            second: 0,
            third: 0,
        },
        Begun::Two(first, second) => GelvanhBytes {
            count: 2,
            first,
            second,
            third: 0,
        },
        Begun::Three(first, second, third) => GelvanhBytes {
            count: 3,
            first,
            second,
            third,
        },
    }
}

fn begun_of(flat: GelvanhBytes) -> Begun
    ensures { result ≡ begun_at flat }
{
    match flat.count {
        1 => Begun::One(flat.first),
        2 => Begun::Two(flat.first, flat.second),
        _ => Begun::Three(flat.first, flat.second, flat.third),
    }
}

fn flat_x10(report: X10Report) -> GelvanhBytes
    ensures { x10_at result ≡ report }
{
    let (count, first, second) = match report {
        X10Report::Empty => (0, 0, 0),
        X10Report::Code(code) => (1, code, 0),
        X10Report::Column(code, column) => (2, code, column),
    };
    GelvanhBytes {
        count,
        first,
        second,
        third: 0,
    }
}

fn flat_part(part: Part) -> u8
    ensures { part_at result ≡ part }
{
    match part {
        Part::First => 0,
        Part::Second => 1,
        Part::Later => 2,
    }
}

fn part_of(flat: u8) -> Part
    ensures { result ≡ part_at flat }
{
    match flat {
        0 => Part::First,
        1 => Part::Second,
        _ => Part::Later,
    }
}

fn flat_place(place: Place) -> u8
    ensures { field_place result ≡ place }
{
    match place {
        Place::First => 0,
        Place::Second => 1,
        Place::Third => 2,
        Place::Later => 3,
    }
}

fn place_of(flat: u8) -> Place
    ensures { result ≡ field_place flat }
{
    match flat {
        0 => Place::First,
        1 => Place::Second,
        2 => Place::Third,
        _ => Place::Later,
    }
}

fn flat_opening(opening: Opening) -> u8
    ensures { opening_at result ≡ opening }
{
    match opening {
        Opening::Not => 0,
        Opening::Two => 1,
        Opening::Zero => 2,
        Opening::Zeros => 3,
    }
}

fn opening_of(flat: u8) -> Opening
    ensures { result ≡ opening_at flat }
{
    match flat {
        1 => Opening::Two,
        2 => Opening::Zero,
        3 => Opening::Zeros,
        _ => Opening::Not,
    }
}

fn flat_met(met: Met) -> u8
    ensures { met_at result ≡ met }
{
    match met {
        Met::Nothing => 0,
        Met::Escape => 1,
        Met::Bracket => 2,
        Met::Two => 3,
        Met::Zero => 4,
        Met::One => 5,
    }
}

fn met_of(flat: u8) -> Met
    ensures { result ≡ met_at flat }
{
    match flat {
        1 => Met::Escape,
        2 => Met::Bracket,
        3 => Met::Two,
        4 => Met::Zero,
        5 => Met::One,
        _ => Met::Nothing,
    }
}

fn empty(kind: u8) -> GelvanhState
    ensures kind { result.kind ≡ kind }
    ensures begun { result.begun ≡ record { count = 0; first = 0; second = 0; third = 0 } }
{
    GelvanhState {
        kind,
        ..GelvanhState::default()
    }
}

fn flat_parameters(kind: u8, parameters: &Parameters, opening: u8) -> GelvanhState
    ensures parameters { parameters_at result ≡ parameters.now }
    ensures kind { result.kind ≡ kind }
    ensures opening { result.opening ≡ opening }
{
    let (validity, begun) = match parameters.validity {
        Validity::Sound => (0, GelvanhBytes::default()),
        Validity::Partial(begun) => (1, flat_begun(begun)),
        Validity::Broken => (2, GelvanhBytes::default()),
    };
    GelvanhState {
        kind,
        part_one: flat_part(parameters.fields.first.part),
        part_two: flat_part(parameters.fields.second.part),
        place: flat_place(parameters.fields.place),
        last: parameters.last,
        validity,
        opening,
        escaped: 0,
        begun,
        one: flat_number(parameters.fields.first.first),
        one_more: flat_number(parameters.fields.first.second),
        two: flat_number(parameters.fields.second.first),
        two_more: flat_number(parameters.fields.second.second),
        three: flat_number(parameters.fields.third),
    }
}

fn parameters_of(flat: &GelvanhState) -> Parameters
    ensures { result ≡ parameters_at flat.now }
{
    Parameters {
        fields: Fields {
            first: Field {
                first: number_of(flat.one),
                second: number_of(flat.one_more),
                part: part_of(flat.part_one),
            },
            second: Field {
                first: number_of(flat.two),
                second: number_of(flat.two_more),
                part: part_of(flat.part_two),
            },
            third: number_of(flat.three),
            place: place_of(flat.place),
        },
        last: flat.last,
        validity: match flat.validity {
            0 => Validity::Sound,
            1 => Validity::Partial(begun_of(flat.begun)),
            _ => Validity::Broken,
        },
    }
}

/// The numbers of a state.
pub fn flatten(state: &State) -> GelvanhState
    ensures { state_at result ≡ state.now }
{
    match state {
        State::Ground => empty(0),
        State::Escape => empty(1),
        State::Ss3 => empty(2),
        State::Csi => empty(3),
        State::LinuxKey => empty(4),
        State::X10(report) => {
            let mut flat = empty(5);
            flat.begun = flat_x10(*report);
            flat
        }
        State::Sgr(parameters) => flat_parameters(6, parameters, 0),
        State::Private => empty(7),
        State::Reply(number) => {
            let mut flat = empty(8);
            flat.one = flat_number(*number);
            flat
        }
        State::Numbered(parameters, opening) => flat_parameters(
            9,
            parameters,
            flat_opening(*opening),
        ),
        State::Paste(met) => {
            let mut flat = empty(10);
            flat.opening = flat_met(*met);
            flat
        }
        State::Utf8(character) => {
            let mut flat = empty(11);
            flat.escaped = u8::from(character.escaped);
            flat.begun = flat_begun(character.begun);
            flat
        }
    }
}

/// The state of some numbers.
pub fn state_of(flat: &GelvanhState) -> State
    ensures { result ≡ state_at flat.now }
{
    match flat.kind {
        1 => State::Escape,
        2 => State::Ss3,
        3 => State::Csi,
        4 => State::LinuxKey,
        5 => State::X10(match flat.begun.count {
            0 => X10Report::Empty,
            1 => X10Report::Code(flat.begun.first),
            _ => X10Report::Column(flat.begun.first, flat.begun.second),
        }),
        6 => State::Sgr(parameters_of(flat)),
        7 => State::Private,
        8 => State::Reply(number_of(flat.one)),
        9 => State::Numbered(parameters_of(flat), opening_of(flat.opening)),
        10 => State::Paste(met_of(flat.opening)),
        11 => State::Utf8(Character {
            escaped: flat.escaped != 0,
            begun: begun_of(flat.begun),
        }),
        _ => State::Ground,
    }
}
