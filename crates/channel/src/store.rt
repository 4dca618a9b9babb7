ghost use Rattle.std.specs.Prelude.{◌≡◌, ◌<◌};
ghost use Rattle.channel.specs.Store.{part_place, store_fits, output_fits};
ghost use Rattle.frame.specs.Header.{channels};
ghost use Rattle.packet.specs.Size.{most};

use frame::{Header, SetUp};
use packet::Packet;

// The holding store: a part for each channel in order.
#[derive(Clone, Copy)]
pub struct Store;

impl Store {
    pub const PART: usize = Packet::MAX;

    pub const LEN: usize = Store::PART * Header::CHANNELS;

    pub fn fits(octets: usize) -> bool
        ensures { result ≡ store_fits most octets }
    {
        octets == Store::LEN
    }

    // Where the part of a channel starts.
    pub fn place(channel: usize) -> usize
        requires { channel < channels }
        ensures { result ≡ part_place most channel }
    {
        Store::PART * channel
    }
}

// The output: room for the packet under way and for all that a frame can hold.
#[derive(Clone, Copy)]
pub struct Output;

impl Output {
    pub const MIN: usize = Packet::MAX + SetUp::MAX;

    pub fn fits(octets: usize) -> bool
        ensures { result ≡ output_fits most octets }
    {
        Output::MIN <= octets
    }
}
