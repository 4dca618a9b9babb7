// The lines that the program prints on standard output, and its messages on standard error. What cannot be written is lost.
#![tactic(auto)]

mod messages;
mod words;

use desk::Sums;
pub use messages::{Reason, blame, complain};
use printing::say;
use reading::{Refusal, Report};
use words::{Word, kind, why};

// The line of an accepted frame.
pub fn accepted(rt: &impl Print, number: u64, r: Report) {
    let h = r.header;
    say(
        rt,
        format_args!(
            "frame={number} channel={} master={} count={} pointer={}{}{} gap={} \
             delivered={} idle={} broken={} disagreement={} foreign={} oversize={}\n",
            h.channel,
            h.master.0,
            h.count.0,
            h.pointer,
            Word::of(h, r.word),
            kind(r.kind),
            r.gap,
            r.delivered,
            r.idle,
            r.broken,
            r.disagreement,
            r.foreign,
            r.oversize
        ),
    );
}

// The line of a refused one, of so many octets.
pub fn refused(rt: &impl Print, number: u64, octets: usize, refusal: Refusal) {
    say(
        rt,
        format_args!(
            "frame={number} octets={octets} refused={} why=\"{}\"{}",
            refusal.number(),
            why(refusal),
            "\n"
        ),
    );
}

// The start of a channel's line at the end.
pub fn channel(rt: &impl Print, v: usize, s: Sums) {
    say(
        rt,
        format_args!(
            "channel={v} frames={} gaps={} missing={} \
             delivered={} idle={} broken={} disagreement={} foreign={} oversize={}",
            s.frames,
            s.gaps,
            s.missing,
            s.delivered,
            s.idle,
            s.broken,
            s.disagreement,
            s.foreign,
            s.oversize
        ),
    );
}
