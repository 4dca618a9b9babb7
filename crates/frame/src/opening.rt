ghost use Rattle.std.specs.Prelude.{◌≡◌, ◌+◌, ◌<◌, ◌≤◌, length};
ghost use Rattle.frame.specs.Answers.{number_of};
ghost use Rattle.frame.specs.Opening.{data_size};

use crate::closing::ControlWord;
use crate::header::Header;
use crate::set_up::SetUp;

// Why a frame is not opened, by the paper's numbers.
#[derive(Clone, Copy)]
pub enum Refusal {
    SetUpRange = 1,
    FrameLength = 5,
    FrameCheck = 6,
    FrameVersion = 7,
    OtherSpacecraft = 8,
    SecondaryHeader = 9,
    NoData = 10,
    OrderOrSegment = 11,
    PointerPlace = 12,
}

impl Refusal {
    // The paper's number, which is the case's own. Each type of refusals has this line: a trait would be longer than the three.
    pub fn number(self) -> u32
        ensures { result ≡ number_of self }
    {
        self as u32
    }
}

// An opened frame: its header values, its control word, where its data field starts and how long it is.
#[derive(Clone, Copy)]
pub struct Frame {
    pub header: Header,
    // 0 if not flagged, and not an Option: the header's flag says whether there is one, and the paper's answer has the number (`word_of`).
    pub word: u32,
    pub place: usize,
    pub size: usize,
}

// D, and 0 where nothing is left for the data field.
#[tactic(auto, unfolding(crate::specs::Opening::data_size))]
pub fn data_size(set: SetUp, s: usize, flagged: bool) -> usize
    requires { s ≤ 64 }
    ensures { result ≡ data_size set s flagged }
{
    let word = if flagged { ControlWord::OCTETS } else { 0 };
    let check = if set.error_control { SetUp::CHECK } else { 0 };
    let taken = Header::SIZE + s + word + check;
    set.length.saturating_sub(taken)
}
