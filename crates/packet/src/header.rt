ghost use Rattle.std.specs.Prelude.{◌≡◌, ◌%◌, ◌≤◌, length};
ghost use Rattle.packet.specs.Header.{packet_header_of, version_of};

use crate::source::Packet;

// The values of a packet header, as numbers: the layout gives them these, and nothing here goes by a kind of packet but idle.
#[derive(Clone, Copy)]
pub struct Header {
    pub version: u8,
    pub type_bit: u8,
    pub secondary: bool,
    pub application: usize,
    pub grouping: u8,
    pub sequence: usize,
    pub total: usize,
}

// The version, which the first octet holds.
#[tactic(auto, using(crate::proofs::HeaderLaws::version_is))]
pub fn version(packet: &[u8]) -> u8
    requires { 1 ≤ length packet.now }
    ensures { result ≡ version_of packet.now }
{
    (octets::octet(packet, 0) / 32) as u8
}

// The application id in the number that the first two octets hold.
pub fn application(first: usize) -> usize
    ensures { result ≡ first % 2048 }
{
    first % 2048
}

impl Header {
    pub fn of(packet: &[u8]) -> Header
        requires { 6 ≤ length packet.now }
        ensures { result ≡ packet_header_of packet.now }
    {
        let first = octets::octet(packet, 0);
        let third = octets::octet(packet, 2);
        Header {
            version: version(packet),
            type_bit: (first / 16 % 2) as u8,
            secondary: first / 8 % 2 == 1,
            application: application(numbers::number::<2>(packet, 0)),
            grouping: (third / 64) as u8,
            sequence: numbers::number::<2>(packet, 2) % 16384,
            total: Packet::total(packet),
        }
    }
}
