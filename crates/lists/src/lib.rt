// What a list of codes or of names must meet as calls hand it over: the limits, and what is refused.
#![tactic(auto)]

mod limits; // of what is handed over
mod numbers; // of refusals
mod handed; // lists of words

pub use handed::Run;
pub use limits::{
    MOST_BANDS, MOST_CODE_BANDS, MOST_CODES, MOST_FACES, MOST_FILE_BYTES, MOST_NAME_BYTES,
    MOST_NAME_SIZE, MOST_SHEET_BYTES, MOST_SUPPLIED_BANDS,
};
pub use numbers::{Fault, Refusal};
