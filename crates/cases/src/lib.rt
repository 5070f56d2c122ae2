// The cases of the trials: the fields of those that are written out, and the lists of those that are generated.
#![tactic(auto)]

mod code; // one of a generated list
mod codes; // all of them
mod draws;
mod families; // of generated lists
mod fields; // of a line: what they stand for
mod letters; // of generated bands
mod line; // of the file of cases
mod names; // of a generated list
mod rooms; // that a case lends
mod supplied; // the ribbon of a generated case
mod word_list; // words side by side

pub use codes::{Codes, draw_codes};
pub use draws::Draws;
pub use families::Family;
pub use line::Line;
pub use names::{Names, draw_names};
pub use rooms::{FileRooms, ListRooms};
pub use supplied::supply;
pub use word_list::Words;
