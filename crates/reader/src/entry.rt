ghost use Rattle.reading.specs.Reading.{Read};

use crate::by_value::read_core;
use channel::Record;
use frame::SetUp;
use reading::{Outcome, Refusal, Report};

// The thin entry: the record of the eight channels is lent, and changed in place.
pub fn read(
    set: SetUp,
    rec: &mut Record,
    frame: &[u8],
    store: &mut [u8],
    out: &mut [u8],
) -> Result<Report, Refusal>
    ensures { Read set rec.old store.old out.old frame.now result rec.new store.new out.new }
{
    let o = read_core(set, *rec, frame, store, out);
    *rec = o.after;
    o.answer
}

// For a program's loop: the record goes in by value and comes back, through the thin entry.
pub fn read_kept(set: SetUp, rec: Record, frame: &[u8], store: &mut [u8], out: &mut [u8]) -> Outcome
    ensures { Read set rec store.old out.old frame.now result.answer result.after store.new out.new }
{
    let mut kept = rec;
    let answer = read(set, &mut kept, frame, store, out);
    Outcome {
        answer,
        after: kept,
    }
}
