// The codes of a list as parts of its run of bands, and which of them are kept.
#![tactic(auto)]

mod contained; // codes that another holds
mod cuts; // codes as parts of the run

pub use cuts::Parts;
