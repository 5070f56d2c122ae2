// The outcomes of calls as the trials tell them: answers, and lent buffers before and after.
#![tactic(auto)]

mod answers; // of calls, said
mod filled; // what a call filled
mod items; // of buffers
mod lent; // buffers before and after a call
mod records; // place records among them

pub use answers::{Answer, say_answer};
pub use filled::{Filled, due, tell_filled};
pub use items::{Item, Listed};
pub use lent::{MOST_BYTES, MOST_NUMBERS, lend, lent_row, say_items, tell, tell_since};
pub use records::{MOST_RECORDS, blank_record};
