// What a reading answers, with the definitions and laws of reading a frame. The code is the crates `accepting` (a frame that passed all tests)
// and `reader`.
#![tactic(auto)]

ghost use Rattle.std.specs.Prelude.{◌≡◌};
ghost use Rattle.reading.specs.Answers.{number_of};
ghost use Rattle.reading.specs.declared.Refusal.TheVariants.{OfFrame};

use channel::Record;
use frame::Header;

// What a frame carries: packets, idle data only, or private data.
#[derive(Clone, Copy)]
pub enum Kind {
    Packets = 1,
    Idle = 2,
    Private = 3,
}

// Why a call is refused: what the frame part says, or one of the reader's own tests.
#[derive(Clone, Copy)]
pub enum Refusal {
    OfFrame(frame::Refusal),
    StoreLength,
    OutputLength,
    BrokenRecord,
}

impl Refusal {
    // The paper's number. By a match and no discriminants: a refusal of the frame part has its own.
    pub fn number(self) -> u32
        ensures { result ≡ number_of self }
    {
        match self {
            Refusal::OfFrame(refusal) => refusal.number(),
            Refusal::StoreLength => 2,
            Refusal::OutputLength => 3,
            Refusal::BrokenRecord => 4,
        }
    }
}

impl From<frame::Refusal> for Refusal {
    ghost from_gives = { λ refusal e. e ≡ OfFrame refusal };

    fn from(refusal: frame::Refusal) -> Refusal {
        Self::OfFrame(refusal)
    }
}

// The answer of an accepted frame. Its control word is 0 if not flagged, as the frame's.
#[derive(Clone, Copy)]
pub struct Report {
    pub kind: Kind,
    pub header: Header,
    pub word: u32,
    pub gap: u8,
    pub delivered: usize,
    pub idle: usize,
    pub broken: usize,
    pub disagreement: usize,
    pub foreign: usize,
    pub oversize: usize,
}

// What a call by value gives back: its answer, and the record from now on, which a refusal gives back as it came.
#[derive(Clone, Copy)]
pub struct Outcome {
    pub answer: Result<Report, Refusal>,
    pub after: Record,
}
