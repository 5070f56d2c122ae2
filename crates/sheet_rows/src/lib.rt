// The rows of a sheet, one for each listed code, with its name, way, start, bands and places: what they show, and each of them
// put into a sink.
#![tactic(auto)]

mod pieces;
mod rows;
mod showing;

pub use pieces::{Shown, put_heading};
pub use rows::Rows;
pub use showing::show_codes;
