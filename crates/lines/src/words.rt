// What stands in the lines for a value that is no number.
use frame::Header;
use reading::{Kind, Refusal};
use std::fmt;

// The control word, if the frame has one, behind its name.
#[derive(Drop)]
pub struct Word(Option<u32>);

impl Word {
    pub fn of(h: Header, w: u32) -> Word {
        Word(h.flagged.then_some(w))
    }
}

impl fmt::Display for Word {
    fn fmt<W: fmt::Write>(&self, f: &mut fmt::Formatter<W>) -> fmt::Result {
        match self.0 {
            Some(w) => write!(f, " word={}", printing::Hex::<8>(w)),
            None => f.write_str(" word=none"),
        }
    }
}

// Behind its name. A function and no Display, as `why`: the type is another crate's, and the words are the program's.
pub fn kind(k: Kind) -> &'static str {
    match k {
        Kind::Packets => " kind=packets",
        Kind::Idle => " kind=idle",
        Kind::Private => " kind=private",
    }
}

// Why a frame is refused.
pub fn why(refusal: Refusal) -> &'static str {
    match refusal {
        Refusal::OfFrame(frame::Refusal::SetUpRange) => {
            "LENGTH is not 13 to 2048, or SPACECRAFT is above 1023"
        }
        Refusal::OfFrame(frame::Refusal::FrameLength) => "the frame is not LENGTH octets",
        Refusal::OfFrame(frame::Refusal::FrameCheck) => "the frame is damaged: its check fails",
        Refusal::OfFrame(frame::Refusal::FrameVersion) => "the frame version is not 00",
        Refusal::OfFrame(frame::Refusal::OtherSpacecraft) => "the frame is of another spacecraft",
        Refusal::OfFrame(frame::Refusal::SecondaryHeader) => {
            "the secondary header's version is not 00"
        }
        Refusal::OfFrame(frame::Refusal::NoData) => "the frame has no room for data",
        Refusal::OfFrame(frame::Refusal::OrderOrSegment) => {
            "the order flag or segment id is not that of packets"
        }
        Refusal::OfFrame(frame::Refusal::PointerPlace) => {
            "the first header pointer lies past the data field"
        }
        Refusal::StoreLength => "the store is not 32768 octets",
        Refusal::OutputLength => "the output is under 6144 octets",
        Refusal::BrokenRecord => "the record breaks its rules",
    }
}
