// The frame part: the set-up, the two counts, the header, and what opening a version 1 telemetry frame (tests 1 and 5 to 12) and closing one
// answer, with their definitions and laws. The code of opening is the crate `opening`, that of closing the crate `closing`.
#![tactic(auto)]

mod closing;
mod counts;
mod header;
mod opening;
mod set_up;

pub use closing::{CloseRefusal, ControlWord};
pub use counts::{ChannelCount, MasterCount};
pub use header::Header;
pub use opening::{Frame, Refusal, data_size};
pub use set_up::SetUp;
