// The sheet of a list, row after row: how long it is, and the sheet itself on a lent buffer that has room for it.
#![tactic(auto)]

mod page;

pub use page::{put_sheet, sheet_size};
