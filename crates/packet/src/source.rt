ghost use Rattle.std.specs.Prelude.{◌≡◌, ◌++◌, ◌+◌, ◌%◌, ◌≤◌, eqb, length};
ghost use Rattle.packet.specs.Header.{idle_application, idle_of, total_of};
ghost use Rattle.packet.specs.Size.{format_most, most, packet_fits, size_of};

use crate::header::{application, version};

// What the octets seen so far of a packet tell: too few to know, another version, or the total.
#[derive(Clone, Copy)]
pub enum Size {
    Wait,
    Foreign,
    Total(usize),
}

// The first two octets hold this number in an idle packet.
fn idle_by(first: usize) -> bool
    ensures { result ≡ eqb (first % 2048) idle_application }
{
    application(first) == Packet::IDLE
}

// The limits of a source packet, in octets.
#[derive(Clone, Copy)]
pub struct Packet;

impl Packet {
    pub const MIN: usize = 7;
    // The largest that is delivered, and the largest that the format has.
    pub const MAX: usize = 4096;

    pub const FORMAT_MAX: usize = 65542;
    // Octets of its header.
    pub const HEADER: usize = 6;
    // What a total has more than its length field says.
    pub const LENGTH_BIAS: usize = 7;
    // The application id of idle packets.
    pub const IDLE: usize = 2047;

    // A packet of this total is delivered, if it is not idle.
    pub fn fits(total: usize) -> bool
        ensures { result ≡ packet_fits most total }
    {
        Packet::fits_within(total, Packet::MAX)
    }

    // The same where the caller has a limit of its own.
    #[tactic(auto, unfolding(crate::specs::Size::packet_fits))]
    pub fn fits_within(total: usize, limit: usize) -> bool
        ensures { result ≡ packet_fits limit total }
    {
        Packet::MIN <= total && total <= limit
    }

    #[tactic(auto, using(crate::proofs::HeaderLaws::application_is), unfolding(crate::specs::Header::idle_of))]
    pub fn idle(packet: &[u8]) -> bool
        requires { 2 ≤ length packet.now }
        ensures { result ≡ idle_of packet.now }
    {
        idle_by(numbers::number::<2>(packet, 0))
    }

    // The same of octets that lie in two places: those held, and those that follow.
    // Two functions and not one over a trait: only idle and size read across, and two impls of a trait would be longer than both.
    #[tactic(auto, using(crate::proofs::HeaderLaws::application_is, octets::proofs::Laws::number_two), unfolding(crate::specs::Header::idle_of))]
    pub fn idle_across(held: &[u8], more: &[u8]) -> bool
        requires { 2 ≤ length held.now + length more.now }
        ensures { result ≡ idle_of (held.now ++ more.now) }
    {
        let first = octets::octet_across(held, more, 0);
        let second = octets::octet_across(held, more, 1);
        idle_by(first * 256 + second)
    }

    #[tactic(auto, using(crate::proofs::HeaderLaws::total_is))]
    pub fn total(seen: &[u8]) -> usize
        requires { 6 ≤ length seen.now }
        ensures { (result ≡ total_of seen.now) × (result ≤ format_most) }
    {
        numbers::number::<2>(seen, 4) + Packet::LENGTH_BIAS
    }

    // What the octets seen so far of a packet tell.
    #[tactic(auto, unfolding(crate::specs::Size::size_of))]
    pub fn size(seen: &[u8]) -> Size
        ensures { result ≡ size_of seen.now }
    {
        if seen.is_empty() {
            return Size::Wait;
        }
        if version(seen) != 0 {
            return Size::Foreign;
        }
        if seen.len() < Packet::HEADER {
            return Size::Wait;
        }
        Size::Total(Packet::total(seen))
    }

    // The same of octets that lie in two places: those held, and those that follow.
    pub fn size_across(held: &[u8], more: &[u8]) -> Size
        ensures { result ≡ size_of (held.now ++ more.now) }
    {
        if Packet::HEADER <= held.len() {
            return Packet::size(held);
        }
        // Six octets and how many are there: the library has no heap.
        let mut head = [0u8; Packet::HEADER];
        let k = held.len();
        octets::copy(&mut head, 0, held);
        let wanted = Packet::HEADER - k;
        let there = octets::lesser(more.len(), wanted);
        octets::copy(&mut head, k, &more[..there]);
        Packet::size(&head[..k + there])
    }
}
