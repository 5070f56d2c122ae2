// The faces sorted by their bands, so that those that begin with a given word stand together.
#![tactic(auto)]

mod compare;
mod insertion;
mod ranges;
mod sorted;

pub use sorted::Sorted;
