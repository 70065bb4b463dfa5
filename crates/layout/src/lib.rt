// The byte formats that all positioning tables share.
#![tactic(auto)]

pub mod beside;
pub mod class_def;
pub mod coverage;
pub mod delta_words;
pub mod device;
pub mod gather;
pub mod glyph_class;
pub mod output;
mod ranges;
pub mod reading;
mod shape;
pub mod value;
pub mod variation;
pub mod write;
