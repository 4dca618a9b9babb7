// What a frame leaves: the desk, and what is told of the frame. The crate `keeping` has the code.
ghost use Rattle.std.specs.Prelude.{◌≡◌};
ghost use Rattle.channel.specs.State.{fresh_record};
ghost use Rattle.desk.specs.Counting.{no_totals};

use crate::counting::Totals;
use channel::Record;
use reading::{Refusal, Report};

// What is kept from frame to frame, besides the store.
#[derive(Clone, Copy)]
pub struct Desk {
    pub rec: Record,
    pub totals: Totals,
}

impl Desk {
    pub fn fresh() -> Desk
        ensures { (result.rec ≡ fresh_record) × (result.totals ≡ no_totals) }
    {
        Desk {
            rec: Record::fresh(),
            totals: Totals::none(),
        }
    }
}

// The reader's answer, the desk from now on, and how many octets of the output are packets to be saved.
#[derive(Clone, Copy)]
pub struct Taken {
    pub answer: Result<Report, Refusal>,
    pub next: Desk,
    pub octets: usize,
}
