// The rules of a record (test 4).
#![tactic(auto)]

ghost use Rattle.std.specs.Prelude.{◌≡◌, length};
ghost use Rattle.packet.specs.Size.{most, size_of, source};
ghost use Rattle.channel.specs.Rules.{judged, state_follows, channel_follows, record_follows};

use channel::{Channel, Record, State, Store};
use packet::{Packet, Size};

// What the held octets must tell.
#[tactic(auto, using(packet::proofs::Laws::fits_by_limit), unfolding(channel::specs::Rules::judged))]
fn held_follows(held: &[u8]) -> bool
    ensures { result ≡ judged most (length held.now) (size_of held.now) }
{
    match Packet::size(held) {
        Size::Wait => true,
        Size::Foreign => false,
        Size::Total(total) => held.len() < total && Packet::fits(total),
    }
}

// The k octets gathered lie at the start of the part.
#[tactic(auto, unfolding(channel::specs::Rules::state_follows))]
fn gathering_follows(k: usize, part: &[u8]) -> bool
    ensures { result ≡ state_follows source most part.now (State.Gathering k) }
{
    k < Packet::MAX && k <= part.len() && held_follows(&part[..k])
}

#[tactic(auto, unfolding(channel::specs::Rules::state_follows))]
fn state_follows(state: State, part: &[u8]) -> bool
    ensures { result ≡ state_follows source most part.now state }
{
    match state {
        State::Hunting => true,
        State::Gathering(k) => gathering_follows(k, part),
        State::Skipping(r) => 1 <= r && r <= Packet::FORMAT_MAX - Packet::HEADER,
    }
}

#[tactic(auto, unfolding(channel::specs::Rules::channel_follows, channel::specs::Rules::hunts))]
fn channel_follows(channel: Channel, part: &[u8]) -> bool
    ensures { result ≡ channel_follows source most part.now channel }
{
    let state = channel.state;
    if channel.heard {
        state_follows(state, part)
    } else {
        matches!(state, State::Hunting)
    }
}

// The record keeps the rules, all eight channels (test 4). In a store that is too short, parts are shorter or empty.
pub fn follows(rec: Record, store: &[u8]) -> bool
    ensures { result ≡ record_follows source most store.now rec }
{
    for (v, channel) in rec.channels.iter().enumerate() {
        let place = Store::place(v);
        let at = octets::lesser(place, store.len());
        let end = octets::lesser(place + Store::PART, store.len());
        if !channel_follows(*channel, &store[at..end]) {
            return false;
        }
    }
    true
}
