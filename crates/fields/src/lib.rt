// What rows are made of, names as fields and numbers in decimal, and where texts go: a sink, which writes or counts them.
#![tactic(auto)]

mod counter;
mod numbers;
mod quoting;
mod sink;
mod writer;

pub use counter::Counter;
pub use numbers::put_decimal;
pub use quoting::put_field;
pub use sink::Sink;
pub use writer::Writer;
