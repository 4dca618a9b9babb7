ghost use Rattle.std.specs.Prelude.{◌≡◌};
ghost use Rattle.frame.specs.Counts.{gap_of, after};

// The count of all frames of a spacecraft, and the count of those of one virtual channel: two types, so that neither stands in for the other.
#[derive(Clone, Copy)]
pub struct MasterCount(pub u8);

#[derive(Clone, Copy, Default)]
pub struct ChannelCount(pub u8);

// Each count has a `next` of its own: one trait for the two would be longer than both, and each caller would have to name it.
impl MasterCount {
    #[tactic(auto, unfolding(crate::specs::Counts::after))]
    pub fn next(self) -> MasterCount
        ensures { result.0 ≡ after self.0 }
    {
        MasterCount(self.0.wrapping_add(1))
    }
}

impl ChannelCount {
    #[tactic(auto, unfolding(crate::specs::Counts::after))]
    pub fn next(self) -> ChannelCount
        ensures { result.0 ≡ after self.0 }
    {
        ChannelCount(self.0.wrapping_add(1))
    }

    // How many frames of the channel are missing between the last one and this one.
    #[tactic(auto, unfolding(crate::specs::Counts::gap_of))]
    pub fn gap(self, last: ChannelCount) -> u8
        ensures { result ≡ gap_of self.0 last.0 }
    {
        self.0.wrapping_sub(last.0).wrapping_sub(1)
    }
}
