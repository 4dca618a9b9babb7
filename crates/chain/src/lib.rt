// A run of octets as a chain of packets.
#![tactic(auto)]

ghost use Rattle.std.specs.Prelude.{◌≡◌, true, ◌≤◌, length};
ghost use Rattle.packet.specs.Chain.{front_of, option_of, chain_of, distance_of};

use packet::{Packet, Size};

// The octets of the whole packet that the run begins with, if it begins with one.
#[tactic(auto, using(packet::proofs::Laws::total_least), unfolding(packet::specs::Chain::front_of, packet::specs::Chain::whole_in, packet::specs::Chain::option_of))]
pub fn front(run: &[u8]) -> Option<usize>
    ensures { result ≡ option_of (front_of run.now) }
{
    match Packet::size(run) {
        Size::Total(n) if n <= run.len() => Some(n),
        _ => None,
    }
}

// The run is a chain of whole packets (row 22).
pub fn is_chain(run: &[u8]) -> bool
    ensures { result ≡ chain_of run.now }
{
    let mut rest = run;
    while let Some(n) = front(rest) {
        rest = &rest[n..];
    }
    rest.is_empty()
}

// From an offset into a chain to the first packet boundary at or after it.
pub fn distance(run: &[u8], offset: usize) -> usize
    requires { (chain_of run.now ≡ true) × (offset ≤ length run.now) }
    ensures { result ≡ distance_of run.now offset }
{
    let mut at = 0;
    // A cursor and no for: each turn goes on by a packet's own length, and before its end a chain has a packet at each such place.
    while at < offset {
        at += front(&run[at..]).unwrap();
    }
    at - offset
}
