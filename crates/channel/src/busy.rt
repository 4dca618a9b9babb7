ghost use Rattle.std.specs.Prelude.{◌≡◌, ◌+◌, ◌*◌, ◌<◌};
ghost use Rattle.octets.specs.Pick.{pick};
ghost use Rattle.channel.specs.Busy.{busy_state, mask_of, count_of, lowest_of};

use crate::state::{Record, State};

pub fn busy_state(state: State) -> bool
    ensures { result ≡ busy_state state }
{
    match state {
        State::Hunting => false,
        State::Gathering(k) => 0 < k,
        State::Skipping(_) => true,
    }
}

// A mask of channels from 1 on moved up by one, with channel 0 below it.
fn with_bit(mask: u8, busy: bool) -> u8
    requires { mask < 128 }
    ensures { result ≡ pick busy 1 0 + mask * 2 }
{
    mask * 2 + u8::from(busy)
}

impl Record {
    // The bit of value 2^v is set exactly when channel v skips or holds at least one octet.
    pub fn busy(self) -> u8
        ensures { result ≡ mask_of self.channels }
    {
        let mut mask = 0;
        for channel in self.channels.iter().rev() {
            mask = with_bit(mask, busy_state(channel.state));
        }
        mask
    }

    // How many channels are busy.
    pub fn busy_count(self) -> u32
        ensures { result ≡ count_of self.channels }
    {
        self.busy().count_ones()
    }

    // The lowest busy channel, 8 if none is: the paper's number for none, and no Option.
    pub fn lowest_busy(self) -> u32
        ensures { result ≡ lowest_of self.channels }
    {
        self.busy().trailing_zeros()
    }
}
