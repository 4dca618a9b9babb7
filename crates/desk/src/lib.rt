// What the program makes of the answer to a frame, input and output aside: a word read as a number, the counts, and how many octets
// of the output are the frame's packets.
#![tactic(auto)]

mod counting;
mod saving;
mod taking;
mod words;

pub use counting::{Sums, Totals, after, more};
pub use saving::{Saved, octets_of};
pub use taking::{Desk, Taken};
pub use words::spelt;
