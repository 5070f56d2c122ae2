// Words compared and written, each read as given or turned.
#![tactic(auto)]

mod endings;
mod falling;
mod forms;
mod patterns;
mod starts;
mod writing;

pub use endings::overlap;
pub use falling::go_on;
pub use forms::Form;
pub use patterns::Pattern;
pub use starts::{begins_way, stands};
pub use writing::{put_way, put_word};
