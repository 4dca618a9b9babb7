// What an accepted frame does to its channel: the walk from packet to packet (step 5), with the definitions and laws of the steps around it,
// whose code is the crates `judging`, `gathering` and `steps`.
#![tactic(auto)]

mod stepping;
mod walking;

pub use stepping::Course;
pub use walking::{End, Ended, Tally, walk};
