// A frame that passed all tests: steps 1 to 5, the answer and the record after it.
#![tactic(auto)]

ghost use Rattle.std.specs.Prelude.{◌≡◌};
ghost use Rattle.packet.specs.Size.{most, source};
ghost use Rattle.reading.specs.Inside.{ReadBy, Ready};
ghost use Rattle.reading.specs.Reading.{kind_of};

use channel::{Channel, Record, Store};
use frame::{Frame, Header};
use judging::gap_for;
use packet::Packet;
use reading::{Kind, Outcome, Report};
use steps::steps;

#[tactic(auto, unfolding(reading::specs::Reading::kind_of))]
fn kind_of(h: Header) -> Kind
    ensures { result ≡ kind_of h }
{
    if h.synchronisation {
        Kind::Private
    } else if h.pointer == Header::IDLE {
        Kind::Idle
    } else {
        Kind::Packets
    }
}

// Steps 1 to 5 of a frame that passed all tests.
#[tactic(auto, unfolding(channel::specs::Store::part_place))]
pub fn accept(rec: Record, x: Frame, frame: &[u8], store: &mut [u8], out: &mut [u8]) -> Outcome
    requires { Ready source most rec x frame.now store.old out.old }
    ensures { ReadBy source most x rec store.old out.old frame.now result.answer result.after store.new out.new }
{
    let h = x.header;
    let v = h.channel;
    let channel = rec.channels[v];
    let gap = gap_for(channel, h);
    let at = Store::place(v);
    let course = steps(
        &frame[x.place..x.place + x.size],
        h,
        channel,
        gap,
        Packet::MAX,
        &mut store[at..at + Store::PART],
        out,
    );
    let mut after = rec;
    after.channels[v] = Channel {
        heard: true,
        last: h.count,
        state: course.state,
    };
    Outcome {
        // Field by field: they come from the frame, the tally and the course.
        answer: Ok(Report {
            kind: kind_of(h),
            header: h,
            word: x.word,
            gap,
            delivered: course.tally.delivered,
            idle: course.tally.idle,
            broken: course.broken,
            disagreement: course.disagreement,
            foreign: course.foreign,
            oversize: course.oversize,
        }),
        after,
    }
}
