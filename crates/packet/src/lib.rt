// What a packet header tells: how long a source packet is, whose it is, whether it is idle; with the definitions and laws of a run as a chain
// of packets, whose code is the crate `chain`.
#![tactic(auto)]

mod header;
mod source;

pub use header::Header;
pub use source::{Packet, Size};
