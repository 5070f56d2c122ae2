// The entries of an order list: its rows checked and gathered, one after the other.
#![tactic(auto)]

mod checks; // the faults of one row
mod collect; // all rows of a file

pub use collect::{Gathered, gather};
