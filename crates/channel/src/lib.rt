// The record of the eight channels: their states, the rules of a record, the store's parts, the busy mask.
#![tactic(auto)]

mod busy;
mod state;
mod store;

pub use busy::busy_state;
pub use state::{Channel, Record, State};
pub use store::{Output, Store};
