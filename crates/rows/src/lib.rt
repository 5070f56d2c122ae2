// One row of an RFC 4180 file, and the ribbon of a ribbon file.
#![tactic(auto)]

mod ribbon_file;
mod scan; // byte by byte

pub use ribbon_file::ribbon_of;
pub use scan::{RowRead, read_row};
