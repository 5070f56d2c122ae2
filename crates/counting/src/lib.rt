// How often a word stands on a row.
#![tactic(auto)]

mod counts;

pub use counts::count_places;
