// Windows of bands on a row: starts at which a word can stand.
#![tactic(auto)]

mod fitting;

pub use fitting::{Sums, Window, next_fit, sum_of, sums_of, window_at};
