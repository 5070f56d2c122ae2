// The crate that others link: the public calls under one roof, and for each program the call that computes its output.
#![tactic(auto)]

mod check_printing; // the check program's output
mod order_list; // an order list as the programs have it
mod ribbon_printing; // the ribbon program's
mod sheet_printing; // the sheet program's

// reading an order list
pub use orders::{Orders, read_orders};
// laying out a ribbon
pub use layout::{Laid, lay_ribbon};
// checking a supplied ribbon
pub use places::{Place, Way};
pub use records::check_ribbon;
pub use rows::ribbon_of;
pub use verdicts::{Checked, Findings, check_only, check_places};
// writing the sheet
pub use writer::{Wrote, write_sheet};
// refusals, which all of them give
pub use lists::{Fault, Refusal};
// sizes that always suffice
pub use lines::MOST_LINE_BYTES;
pub use lists::{
    MOST_BANDS, MOST_CODES, MOST_FILE_BYTES, MOST_NAME_BYTES, MOST_SHEET_BYTES, MOST_SUPPLIED_BANDS,
};
// what the programs write
pub use check_printing::check_output;
pub use ribbon_printing::ribbon_output;
pub use sheet_printing::sheet_output;
