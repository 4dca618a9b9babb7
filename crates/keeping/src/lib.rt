// What the program keeps from frame to frame of a recording, input and output aside.
#![tactic(auto)]

ghost use Rattle.std.specs.Prelude.{◌≡◌, ◌≤◌, length};
ghost use Rattle.reading.specs.Reading.{Read, answer_of};
ghost use Rattle.desk.specs.Counting.{totals_after};
ghost use Rattle.desk.specs.Saving.{octets_of};
ghost use Rattle.keeping.specs.Keeping.{Keeps};

use channel::{Output, Store};
use desk::{Desk, Saved, Taken, after, octets_of};
use frame::SetUp;
use reading::{Refusal, Report};

// What is kept from frame to frame, besides the store: the desk, how far each channel's file got, and whether all was read. Arrays of channels
// stand in each layer by themselves, the record's, the sums, these and the program's files: no layer below knows of what is above it.
#[derive(Clone, Copy)]
pub struct Work {
    pub desk: Desk,
    pub saved: [Saved; 8],
    pub complete: bool,
}

// The work after a frame, the reader's answer, and how many octets of the output are packets to be saved.
#[derive(Clone, Copy)]
pub struct Stepped {
    pub work: Work,
    pub answer: Result<Report, Refusal>,
    pub octets: usize,
}

// One frame through the reader's thin entry.
pub fn take(desk: Desk, set: SetUp, frame: &[u8], store: &mut [u8], output: &mut [u8]) -> Taken
    ensures reading { Read set desk.rec store.old output.old frame.now result.answer result.next.rec store.new output.new }
    ensures counts { result.next.totals ≡ totals_after desk.totals result.answer }
    ensures octets { (result.octets ≡ octets_of result.answer output.new) × (result.octets ≤ length output.new) }
{
    let o = reader::read_kept(set, desk.rec, frame, store, output);
    let answer = o.answer;
    Taken {
        answer,
        next: Desk {
            rec: o.after,
            totals: after(desk.totals, answer),
        },
        octets: octets_of(answer, output),
    }
}

// One frame read and counted.
pub fn step(
    work: Work,
    set: SetUp,
    frame: &[u8],
    store: &mut [u8; Store::LEN],
    output: &mut [u8; Output::MIN],
) -> Stepped
    ensures kept { Keeps set work.desk store.old output.old frame.now result.work.desk store.new }
    ensures answer { result.answer ≡ answer_of set work.desk.rec store.old output.old frame.now }
    ensures octets { (result.octets ≡ octets_of result.answer output.new) × (result.octets ≤ length output.new) }
{
    let taken = take(work.desk, set, frame, store, output);
    Stepped {
        work: Work {
            desk: taken.next,
            ..work
        },
        answer: taken.answer,
        octets: taken.octets,
    }
}
