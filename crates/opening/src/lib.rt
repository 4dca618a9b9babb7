// Opening a frame: tests 1 and 5 to 12, and what the frame gives.
#![tactic(auto)]

ghost use Rattle.std.specs.Prelude.{◌≡◌, true, ◌+◌, ◌≤◌, length, Err, IfOk, IfErr};
ghost use Rattle.frame.specs.Header.{header_of};
ghost use Rattle.frame.specs.Inside.{open_from};
ghost use Rattle.frame.specs.Opening.{secondary_size, word_of, row6, row7, row9, row11, row12, open_of};
ghost use Rattle.frame.specs.SetUp.{fits_of};

use frame::{ChannelCount, Frame, Header, MasterCount, Refusal, SetUp, data_size};

// A frame that is as long as its set-up says, and its header: what tests 1 and 5 leave to those behind them.
#[derive(Clone, Copy)]
struct Whole<'a> {
    set: SetUp,
    octets: &'a [u8],
    header: Header,
    ghost fits: { fits_of set ≡ true },
    ghost whole: { length octets.now ≡ set.length },
    ghost long: { 13 ≤ length octets.now },
    ghost told: { header ≡ header_of octets.now },
}

impl<'a> Whole<'a> {
    // Tests 1 and 5.
    #[tactic(auto, using(frame::proofs::OpeningSteps::outside, frame::proofs::OpeningSteps::wrong_length))]
    fn new(set: SetUp, octets: &'a [u8]) -> Result<Whole<'a>, Refusal>
        ensures ok { IfOk result (λ w. (w.set ≡ set) × (w.octets.now ≡ octets.now)) }
        ensures err { IfErr result (λ r. Err r ≡ open_of set octets.now) }
    {
        if !set.fits() {
            return Err(Refusal::SetUpRange);
        }
        if octets.len() != set.length {
            return Err(Refusal::FrameLength);
        }
        let header = header_of(octets);
        Ok(Whole {
            set,
            octets,
            header,
        })
    }

    // Test 6.
    #[tactic(auto, unfolding(frame::specs::Opening::row6))]
    fn damaged(&self) -> bool
        ensures { result ≡ row6 self.now.set self.now.octets.now }
    {
        self.set.error_control && crc::syndrome(self.octets) != 0
    }

    // Test 9.
    fn bad_secondary(&self) -> bool
        ensures { result ≡ row9 self.now.header self.now.octets.now }
    {
        self.header.secondary && octets::octet(self.octets, 6) / 64 != 0
    }

    // s.
    fn secondary_size(&self) -> usize
        ensures { (result ≡ secondary_size self.now.header self.now.octets.now) × (result ≤ 64) }
    {
        if self.header.secondary {
            octets::octet(self.octets, 6) % 64 + 1
        } else {
            0
        }
    }

    #[tactic(auto, unfolding(frame::specs::Opening::word_of))]
    fn word_at(&self, end: usize) -> u32
        requires { self.now.header.flagged ≡ true → end + 4 ≤ length self.now.octets.now }
        ensures { result ≡ word_of self.now.header self.now.octets.now end }
    {
        if self.header.flagged {
            numbers::number::<4>(self.octets, end) as u32
        } else {
            0
        }
    }

    // Tests 7 to 9, and those behind them.
    #[tactic(auto, using(frame::proofs::OpeningSteps::wrong_version, frame::proofs::OpeningSteps::wrong_spacecraft, frame::proofs::OpeningSteps::wrong_secondary, frame::proofs::OpeningSteps::right_header))]
    fn open_header(&self) -> Result<Frame, Refusal>
        ensures { result ≡ open_from 3 self.now.set self.now.octets.now }
    {
        if other_version(self.octets) {
            return Err(Refusal::FrameVersion);
        }
        if self.header.spacecraft != self.set.spacecraft {
            return Err(Refusal::OtherSpacecraft);
        }
        if self.bad_secondary() {
            return Err(Refusal::SecondaryHeader);
        }
        self.open_data()
    }

    // Tests 10 to 12, and what the frame gives.
    #[tactic(auto, using(frame::proofs::OpeningSteps::no_data, frame::proofs::OpeningSteps::wrong_order, frame::proofs::OpeningSteps::wrong_pointer, frame::proofs::OpeningSteps::right_frame))]
    fn open_data(&self) -> Result<Frame, Refusal>
        ensures { result ≡ open_from 6 self.now.set self.now.octets.now }
    {
        let h = self.header;
        let s = self.secondary_size();
        let size = data_size(self.set, s, h.flagged);
        if size < 1 {
            return Err(Refusal::NoData);
        }
        if bad_order(h) {
            return Err(Refusal::OrderOrSegment);
        }
        if bad_pointer(h, size) {
            return Err(Refusal::PointerPlace);
        }
        let place = Header::SIZE + s;
        let word = self.word_at(place + size);
        Ok(Frame {
            header: h,
            word,
            place,
            size,
        })
    }
}

// Test 7.
fn other_version(octets: &[u8]) -> bool
    requires { 6 ≤ length octets.now }
    ensures { result ≡ row7 octets.now }
{
    numbers::number::<2>(octets, 0) / 16384 != 0
}

// Test 11.
#[tactic(auto, unfolding(frame::specs::Opening::row11))]
fn bad_order(h: Header) -> bool
    ensures { result ≡ row11 h }
{
    !h.synchronisation && (h.order || h.segment != Header::SEGMENT_ID)
}

// Test 12.
#[tactic(auto, unfolding(frame::specs::Opening::row12))]
fn bad_pointer(h: Header, size: usize) -> bool
    ensures { result ≡ row12 h size }
{
    let points = h.pointer < size || h.pointer == Header::IDLE || h.pointer == Header::NONE;
    !h.synchronisation && !points
}

// Opens a frame of this set-up: tests 1 and 5 to 12, the first cause found; else what the frame gives.
pub fn open(set: SetUp, frame: &[u8]) -> Result<Frame, Refusal>
    ensures { result ≡ open_of set frame.now }
{
    let whole = Whole::new(set, frame)?;
    if whole.damaged() {
        return Err(Refusal::FrameCheck);
    }
    whole.open_header()
}

// The header of a frame.
fn header_of(frame: &[u8]) -> Header
    requires { 6 ≤ length frame.now }
    ensures { result ≡ header_of frame.now }
{
    let first = numbers::number::<2>(frame, 0);
    let last = numbers::number::<2>(frame, 4);
    Header {
        spacecraft: (first / 16 % 1024) as u32,
        channel: first / 2 % 8,
        flagged: first % 2 == 1,
        master: MasterCount(frame[2]),
        count: ChannelCount(frame[3]),
        secondary: last / 32768 == 1,
        synchronisation: last / 16384 % 2 == 1,
        order: last / 8192 % 2 == 1,
        segment: (last / 2048 % 4) as u8,
        pointer: last % 2048,
    }
}
