// The tests that decide whether a list of codes, or one of names, is fit to be taken: number 12.
#![tactic(auto)]

mod codes;
mod names;
mod texts;

pub use codes::{FitList, list_ok, sum_of};
pub use names::{FitNames, is_taken, names_ok};
pub use texts::{all_bands, name_ok};
