ghost use Rattle.std.specs.Prelude.{◌≡◌};
ghost use Rattle.frame.specs.SetUp.{fits_of};

// What a station says of its frames: their length N, the spacecraft number, whether error control is present.
#[derive(Clone, Copy)]
pub struct SetUp {
    pub length: usize,
    pub spacecraft: u32,
    pub error_control: bool,
}

impl SetUp {
    // The frame length, in octets.
    pub const MIN: usize = 13;

    pub const MAX: usize = 2048;

    pub const SPACECRAFT_MAX: u32 = 1023;
    // Octets of the error control field, if it is set up.
    pub const CHECK: usize = 2;

    #[tactic(auto, unfolding(crate::specs::SetUp::fits_of))]
    pub fn fits(self) -> bool
        ensures { result ≡ fits_of self }
    {
        (SetUp::MIN..=SetUp::MAX).contains(&self.length) && self.spacecraft <= SetUp::SPACECRAFT_MAX
    }
}
