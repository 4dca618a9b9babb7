// Reading a frame: the by-value core, tests 1 to 12 before the steps, and the thin entry over it.
#![tactic(auto)]

mod by_value;
mod entry;

pub use by_value::read_core;
pub use entry::{read, read_kept};
