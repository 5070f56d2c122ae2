// The order of the faces of kept codes: sorted by their bands, then joined in one pass.
#![tactic(auto)]

mod following; // the face that comes after a face
mod pass; // the joining, and the order of faces

pub use pass::order_faces;
