use crate::walking::Tally;
use channel::State;

// What a frame did to its channel: whole packets, the new state, the counts.
#[derive(Clone, Copy, Default)]
pub struct Course {
    pub tally: Tally,
    pub state: State,
    pub broken: usize,
    pub disagreement: usize,
    pub foreign: usize,
    pub oversize: usize,
}
