// Joining n kept codes, whatever their faces spell. The joins are one row, `after`: at each face the face after it, or none
// where the face ends a piece. It and n stay two parameters: a type that kept the row to the faces of n codes would ask more
// of make_join, which takes any two faces. Rows of just 256 would ask more of those who have longer ones, and faces of type u8
// would be converted at each index: `256 ≤ length` and `< 256` stand in the contracts in their place.
#![tactic(auto)]

mod ends; // from a face to the end of its piece
mod making; // a join made
mod reading; // the order read from the joins

pub use ends::{end_from, mirror_of};
pub use making::make_join;
pub use reading::write_order;
