ghost use Rattle.std.specs.Prelude.{◌≡◌};
ghost use Rattle.channel.specs.State.{fresh_record};

use frame::ChannelCount;

// What a channel is about: looking for a packet's start, in the midst of one of which k octets are held, or passing over r octets
// of one that is too long.
#[derive(Clone, Copy, Default)]
pub enum State {
    #[default]
    Hunting,
    Gathering(usize),
    Skipping(usize),
}

// A flag and a count, and not an Option: a saved record gives back the last count of an unheard channel as it came (`saved_by`, `packed`).
#[derive(Clone, Copy, Default)]
pub struct Channel {
    pub heard: bool,
    pub last: ChannelCount,
    pub state: State,
}

// All eight channels, in order. It means nothing without its store.
#[derive(Clone, Copy, Default)]
pub struct Record {
    pub channels: [Channel; 8],
}

impl Record {
    pub fn fresh() -> Record
        ensures { result ≡ fresh_record }
    {
        Record::default()
    }
}
