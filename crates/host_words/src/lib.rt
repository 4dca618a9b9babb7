// A saved record's words: four for each channel, and what the busy mask reads of them.
#![tactic(auto)]

ghost use Rattle.std.specs.Prelude.{◌≡◌, [], get_or, ◌^◌, ◌<◌, length};
ghost use Rattle.std.specs.Option.{unwrap_or};
ghost use Rattle.channel.specs.declared.state.State.TheVariants.{Hunting};
ghost use Rattle.host_words.specs.Busy.{seen, seen_at, seen_state};
ghost use Rattle.host_words.specs.Words.{NumbersFit, broken_state, channel_at, number_word, packed, packed_channel, unpacked, unpacked_state};

use channel::{Channel, Record, State};
use frame::{ChannelCount, Header};
use host::flag_word;
use std::array;

// The words of a channel: heard (0 or 1), last channel count, state, number.
const CHANNEL_WORDS: usize = 4;

// A saved record: the channels' words, in order.
pub const WORDS: usize = CHANNEL_WORDS * Header::CHANNELS;

// A channel that breaks the rules of every channel: it stands for words that no channel has.
const BROKEN: Channel = Channel {
    heard: true,
    last: ChannelCount(0),
    state: State::Skipping(0),
};

// The state that two words name by the C interface's numbers, if they name one.
#[tactic(auto, unfolding(crate::specs::Words::unpacked_state, crate::specs::Busy::seen_state))]
fn named_state(state: u32, number: u32) -> Option<State>
    ensures unpacked { unwrap_or result broken_state ≡ unpacked_state state number }
    ensures seen { unwrap_or result Hunting ≡ seen_state state number }
{
    match (state, number) {
        (0, 0) => Some(State::Hunting),
        (1, k) => Some(State::Gathering(k as usize)),
        (2, r) => Some(State::Skipping(r as usize)),
        _ => None,
    }
}

#[tactic(auto, unfolding(crate::specs::Words::channel_at, crate::specs::Words::unpacked_channel))]
fn unpack_channel(words: &[u32; CHANNEL_WORDS]) -> Channel
    ensures { result ≡ channel_at words.now 0 }
{
    let [heard, count, state, number] = *words;
    if 1 < heard {
        return BROKEN;
    }
    let Ok(count) = u8::try_from(count) else {
        return BROKEN;
    };
    Channel {
        heard: heard == 1,
        last: ChannelCount(count),
        state: named_state(state, number).unwrap_or(BROKEN.state),
    }
}

// The record that the words are.
#[tactic(auto, unfolding(crate::specs::Words::unpacked))]
pub fn unpack(words: &[u32]) -> Record
    ensures { result ≡ unpacked words.now }
{
    if words.len() != WORDS {
        return Record {
            channels: [BROKEN; Header::CHANNELS],
        };
    }
    let (channels, _) = words.as_chunks();
    Record {
        channels: array::from_fn(|v| unpack_channel(&channels[v])),
    }
}

// With the C interface's numbers of the states.
fn pack_channel(channel: Channel) -> [u32; CHANNEL_WORDS]
    requires { number_word channel.state < 2 ^ 32 }
    ensures { result ≡ packed_channel channel }
{
    let heard = flag_word(channel.heard);
    let count = u32::from(channel.last.0);
    let (state, number) = match channel.state {
        State::Hunting => (0, 0),
        State::Gathering(k) => (1, k as u32),
        State::Skipping(r) => (2, r as u32),
    };
    [heard, count, state, number]
}

// The record's words in the place of what the words were.
pub fn pack(rec: Record, words: &mut [u32])
    requires { (length words.old ≡ 32) × NumbersFit rec }
    ensures { words.new ≡ packed rec }
{
    let packed = rec.channels.map(pack_channel);
    words.copy_from_slice(packed.as_flattened());
}

// The state that stands in the words of a channel, hunting where they are not all there, in a channel of which nothing else is meant.
#[tactic(auto, unfolding(crate::specs::Busy::state_at))]
fn see_channel(channels: &[[u32; CHANNEL_WORDS]], v: usize) -> Channel
    ensures { result ≡ seen_at (get_or channels.now v []) 0 }
{
    let state = match channels.get(v) {
        Some(&[_, _, state, number]) => named_state(state, number).unwrap_or(State::Hunting),
        None => State::Hunting,
    };
    Channel {
        heard: true,
        last: ChannelCount(0),
        state,
    }
}

// The states that stand in the words.
pub fn see(words: &[u32]) -> Record
    ensures { result.channels ≡ seen words.now }
{
    let (channels, _) = words.as_chunks();
    Record {
        channels: array::from_fn(|v| see_channel(channels, v)),
    }
}
