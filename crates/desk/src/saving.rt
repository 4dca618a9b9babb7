// Which octets of the output are a frame's packets.
ghost use Rattle.std.specs.Prelude.{◌≡◌, ◌≤◌, length};
ghost use Rattle.desk.specs.Saving.{span_of, octets_of};

use chain::front;
use reading::{Refusal, Report};

// How far a channel's file got: octets written, and whether a write failed. No Result: the octets before a failure are printed beside it.
#[derive(Clone, Copy, Default)]
pub struct Saved {
    pub octets: u64,
    pub failed: bool,
}

// How many octets the first `count` packets take that stand end to end in the output.
fn span(output: &[u8], count: usize) -> usize
    ensures { (result ≡ span_of count output.now) × (result ≤ length output.now) }
{
    let mut at = 0;
    for _ in 0..count {
        at += front(&output[at..]).unwrap_or(0);
    }
    at
}

// How many octets the packets take that the answer tells of.
#[tactic(auto, unfolding(crate::specs::Saving::octets_of))]
pub fn octets_of(answer: Result<Report, Refusal>, output: &[u8]) -> usize
    ensures { (result ≡ octets_of answer output.now) × (result ≤ length output.now) }
{
    match answer {
        Err(_) => 0,
        Ok(r) => span(output, r.delivered),
    }
}
