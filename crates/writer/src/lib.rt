// Writing one frame from a run of packets: tests 1 and 20 to 25, then the frame.
#![tactic(auto)]

ghost use Rattle.std.specs.Prelude.{◌≡◌, Ok, length};
ghost use Rattle.writing.specs.Inside.{Ready, WroteBy};
ghost use Rattle.writing.specs.Laying.{nothing_of};
ghost use Rattle.writing.specs.Writing.{Wrote, answer_of, row24};

use frame::{ControlWord, Header, SetUp};
use laying::{lay, pointer};
use writing::{Place, Refusal, Written};

// The limit of a run of packets, in octets.
#[derive(Clone, Copy)]
pub struct Run;

impl Run {
    pub const MAX: usize = 65536;
}

// Test 24.
#[tactic(auto, unfolding(writing::specs::Writing::row24))]
fn bad_left_over(run: &[u8], place: Place) -> bool
    ensures { result ≡ row24 (length run.now) place.offset place.left_over }
{
    let Place {
        offset,
        left_over,
        ..
    } = place;
    Place::LEFT_OVER_MAX < left_over || left_over != 0 && offset != 0 && offset != run.len()
}

// Nothing of a left-over and nothing of the run is to be laid.
#[tactic(auto, unfolding(writing::specs::Laying::nothing_of))]
fn nothing_placed(run: &[u8], offset: usize, left_over: usize) -> bool
    ensures { result ≡ nothing_of run.now offset left_over }
{
    left_over == 0 && offset == run.len()
}

// The frame itself, once all tests passed.
fn write_frame(
    set: SetUp,
    channel: usize,
    place: Place,
    word: Option<ControlWord>,
    run: &[u8],
    output: &mut [u8],
) -> Place
    requires { Ready set channel place run.now output.old }
    ensures { WroteBy set channel place word run.now (Ok tt) result output.new }
{
    let Place {
        offset,
        left_over,
        master,
        count,
    } = place;
    let d = closing::data_size_for(set, word);
    let from = Header::SIZE;
    let to = from + d;
    let laid = lay(&mut output[from..to], run, offset, left_over);
    let nothing = nothing_placed(run, offset, left_over);
    let to_start = chain::distance(run, offset);
    let start = pointer(d, to_start, left_over, nothing);
    closing::close(set, channel, master, count, word, start, output).unwrap();
    Place {
        offset: laid.offset,
        left_over: laid.left_over,
        master: master.next(),
        count: count.next(),
    }
}

// Tests 1 and 20 to 25, the first cause found.
#[tactic(auto, using(writing::proofs::WritingSteps::tests_told))]
fn tests(set: SetUp, channel: usize, place: Place, run: &[u8], output: &[u8]) -> Result<(), Refusal>
    ensures { result ≡ answer_of set channel place run.now output.now }
{
    if !set.fits() {
        return Err(Refusal::SetUpRange);
    }
    if Header::CHANNELS <= channel {
        return Err(Refusal::ChannelAbove);
    }
    if Run::MAX < run.len() {
        return Err(Refusal::RunLength);
    }
    if !chain::is_chain(run) {
        return Err(Refusal::NotAChain);
    }
    if run.len() < place.offset {
        return Err(Refusal::OffsetPast);
    }
    if bad_left_over(run, place) {
        return Err(Refusal::LeftOver);
    }
    if output.len() != set.length {
        return Err(Refusal::OutputLength);
    }
    Ok(())
}

// Writes one frame: tests 1 and 20 to 25, the first cause found; then the frame. The parameters are what the paper gives one writing: a struct of
// them would be made for one call, and taken apart in it.
pub fn write(
    set: SetUp,
    channel: usize,
    place: Place,
    word: Option<ControlWord>,
    run: &[u8],
    output: &mut [u8],
) -> Written
    ensures { Wrote set channel place word run.now output.old result.answer result.next output.new }
{
    let answer = tests(set, channel, place, run, output);
    let next = match answer {
        Err(_) => place,
        Ok(()) => write_frame(set, channel, place, word, run, output),
    };
    Written { answer, next }
}
