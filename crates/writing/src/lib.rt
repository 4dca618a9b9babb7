// What a writing answers, with the definitions and laws of writing a frame from a run of packets. The code is the crates `laying` (the data
// field) and `writer`.
#![tactic(auto)]

ghost use Rattle.std.specs.Prelude.{◌≡◌};
ghost use Rattle.writing.specs.Answers.{number_of};

use frame::{ChannelCount, MasterCount};
use packet::Packet;

// What one call hands to the next: where the run goes on, what is left over of an idle packet, and the counts of the next frame.
#[derive(Clone, Copy)]
pub struct Place {
    pub offset: usize,
    pub left_over: usize,
    pub master: MasterCount,
    pub count: ChannelCount,
}

impl Place {
    // At most all but one of the octets of the shortest idle packet.
    pub const LEFT_OVER_MAX: usize = Packet::MIN - 1;
}

// What a data field was laid with: where the run goes on, what stays left over.
#[derive(Clone, Copy)]
pub struct Laid {
    pub offset: usize,
    pub left_over: usize,
}

// Why no frame is written.
#[derive(Clone, Copy)]
pub enum Refusal {
    SetUpRange = 1,
    ChannelAbove = 20,
    RunLength = 21,
    NotAChain = 22,
    OffsetPast = 23,
    LeftOver = 24,
    OutputLength = 25,
}

impl Refusal {
    // The paper's number, which is the case's own. Each type of refusals has this line: a trait would be longer than the three.
    pub fn number(self) -> u32
        ensures { result ≡ number_of self }
    {
        self as u32
    }
}

// What one call gives back: its answer, and the place from now on, which a refusal gives back as it came.
#[derive(Clone, Copy)]
pub struct Written {
    pub answer: Result<(), Refusal>,
    pub next: Place,
}
