ghost use Rattle.std.specs.Prelude.{◌≡◌};
ghost use Rattle.packet.specs.Size.{most, source};
ghost use Rattle.reading.specs.Inside.{tested_over};
ghost use Rattle.reading.specs.Reading.{Read};

use accepting::accept;
use channel::{Output, Record, Store};
use frame::{Frame, SetUp};
use reading::{Outcome, Refusal};
use rules::follows;

// Tests 1 to 12, the first cause found; else what the frame gives.
#[tactic(auto, using(reading::proofs::ReadLaws::tests_told))]
fn tests(set: SetUp, rec: Record, frame: &[u8], store: &[u8], out: &[u8]) -> Result<Frame, Refusal>
    ensures { result ≡ tested_over source most set rec store.now out.now frame.now }
{
    if !set.fits() {
        return Err(Refusal::OfFrame(frame::Refusal::SetUpRange));
    }
    if !Store::fits(store.len()) {
        return Err(Refusal::StoreLength);
    }
    if !Output::fits(out.len()) {
        return Err(Refusal::OutputLength);
    }
    if !follows(rec, store) {
        return Err(Refusal::BrokenRecord);
    }
    Ok(opening::open(set, frame)?)
}

// Reads a frame, the record by value: tests 1 to 12, the first cause found; then steps 1 to 5. The parameters stand apart, here and in the entry,
// since the paper has the record taken by value here and lent there, and store and output lent.
pub fn read_core(set: SetUp, rec: Record, frame: &[u8], store: &mut [u8], out: &mut [u8]) -> Outcome
    ensures { Read set rec store.old out.old frame.now result.answer result.after store.new out.new }
{
    match tests(set, rec, frame, store, out) {
        Err(refusal) => Outcome {
            answer: Err(refusal),
            after: rec,
        },
        Ok(x) => accept(rec, x, frame, store, out),
    }
}
