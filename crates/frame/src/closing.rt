ghost use Rattle.std.specs.Prelude.{◌≡◌};
ghost use Rattle.frame.specs.Answers.{close_number_of};

// A control word of a frame.
#[derive(Clone, Copy)]
pub struct ControlWord(pub u32);

impl ControlWord {
    pub const OCTETS: usize = 4;
}

// Why a frame is not closed, by the paper's numbers.
#[derive(Clone, Copy)]
pub enum CloseRefusal {
    SetUpRange = 1,
    ChannelAbove = 20,
    OutputLength = 25,
}

impl CloseRefusal {
    // The paper's number, which is the case's own. Each type of refusals has this line: a trait would be longer than the three.
    pub fn number(self) -> u32
        ensures { result ≡ close_number_of self }
    {
        self as u32
    }
}
