// What an order of faces spells, whatever the order: the ribbon's length, what it saves, its bands.
#![tactic(auto)]

mod writing;

pub use writing::{Order, Sums};
