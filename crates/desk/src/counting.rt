// What is counted, channel by channel. A count that reaches the largest number stays there.
ghost use Rattle.std.specs.Prelude.{◌≡◌, ◌+◌, min};
ghost use Rattle.desk.specs.Counting.{most, counted_of, gap_count, no_totals, totals_with, totals_refused, totals_after};

use reading::{Refusal, Report};

#[derive(Clone, Copy, Default)]
pub struct Sums {
    pub frames: u64,
    // Frames that a gap stood before, and the frames that were missing in all of them.
    pub gaps: u64,
    pub missing: u64,
    pub delivered: u64,
    pub idle: u64,
    pub broken: u64,
    pub disagreement: u64,
    pub foreign: u64,
    pub oversize: u64,
}

// The eight channels, in order.
#[derive(Clone, Copy, Default)]
pub struct Totals {
    pub channels: [Sums; 8],
    // Frames handed over, and those of them that were refused.
    pub frames: u64,
    pub refused: u64,
}

impl Totals {
    #[tactic(auto, unfolding(crate::specs::Counting::no_totals))]
    pub fn none() -> Totals
        ensures { result ≡ no_totals }
    {
        Totals::default()
    }
}

// The library's, by the name that decision 34 and files have of it.
pub fn more(a: u64, n: u64) -> u64
    ensures { result ≡ min (a + n) most }
{
    a.saturating_add(n)
}

// 1 for a gap, 0 for none.
fn gaps(gap: u8) -> u64
    ensures { result ≡ gap_count gap }
{
    u64::from(gap != 0)
}

// One more accepted frame.
#[tactic(auto, unfolding(crate::specs::Counting::counted_of))]
fn counted(s: Sums, r: Report) -> Sums
    ensures { result ≡ counted_of s r }
{
    Sums {
        frames: more(s.frames, 1),
        gaps: more(s.gaps, gaps(r.gap)),
        missing: more(s.missing, u64::from(r.gap)),
        delivered: more(s.delivered, r.delivered as u64),
        idle: more(s.idle, r.idle as u64),
        broken: more(s.broken, r.broken as u64),
        disagreement: more(s.disagreement, r.disagreement as u64),
        foreign: more(s.foreign, r.foreign as u64),
        oversize: more(s.oversize, r.oversize as u64),
    }
}

// An accepted frame counts on its own channel, which is one of the eight.
#[tactic(auto, unfolding(crate::specs::Counting::totals_with))]
fn with_frame(t: Totals, r: Report) -> Totals
    ensures { result ≡ totals_with t r }
{
    let v = r.header.channel;
    let mut next = Totals {
        frames: more(t.frames, 1),
        ..t
    };
    // By index: a proof knows no element of a slice after its `get_mut`.
    if v < 8 {
        next.channels[v] = counted(t.channels[v], r);
    }
    next
}

#[tactic(auto, unfolding(crate::specs::Counting::totals_refused))]
fn with_refusal(t: Totals) -> Totals
    ensures { result ≡ totals_refused t }
{
    Totals {
        frames: more(t.frames, 1),
        refused: more(t.refused, 1),
        ..t
    }
}

#[tactic(auto, unfolding(crate::specs::Counting::totals_after))]
pub fn after(t: Totals, answer: Result<Report, Refusal>) -> Totals
    ensures { result ≡ totals_after t answer }
{
    match answer {
        Err(_) => with_refusal(t),
        Ok(r) => with_frame(t, r),
    }
}
