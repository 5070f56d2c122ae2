// What the trials tell of a case: lines that go into a checksum, and are printed where a case is shown in full.
#![tactic(auto)]

mod tally; // the checksum

pub use tally::{Checksum, Tally};
