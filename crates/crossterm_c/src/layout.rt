//! The sizes of what C hands over, which `gelvanh.h` checks too.

use crate::command::GelvanhCommand;
use crate::held::{GelvanhHeld, GelvanhReader};
use crate::state::GelvanhState;
use numbers::{GelvanhColor, GelvanhEvent, GelvanhStyle};
use std::mem::{align_of, size_of};

const _: () = prove!(size_of::<GelvanhState>() == 52);

const _: () = prove!(align_of::<GelvanhState>() == 4);

const _: () = prove!(size_of::<GelvanhEvent>() == 16);

const _: () = prove!(align_of::<GelvanhEvent>() == 4);

const _: () = prove!(size_of::<GelvanhHeld>() == 24);

const _: () = prove!(align_of::<GelvanhHeld>() == 8);

const _: () = prove!(size_of::<GelvanhReader>() == 24);

const _: () = prove!(size_of::<GelvanhColor>() == 4);

const _: () = prove!(size_of::<GelvanhStyle>() == 16);

const _: () = prove!(size_of::<GelvanhCommand>() == 24);
