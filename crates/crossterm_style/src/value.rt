//! JSON values of attributes and colours: what is written of a value reads back as that value (`specs/Values.antt`).

mod attributes;
mod colors;
mod marks;
