ghost use Rattle.std.specs.Prelude.{◌≡◌, ◌+◌, ◌-◌, ◌≤◌, ◌<◌, length, drop};
ghost use Rattle.octets.specs.Laid.{laid};
ghost use Rattle.packet.specs.Size.{source};
ghost use Rattle.walk.specs.Walk.{seen_of, tallied, handed, walk_of, handed_all, ended_with};

use packet::{Packet, Size};

// Why a walk ended: at another version, exactly at a packet's end, in the midst of a packet of which k octets are there, or in one
// that is too long and of which r octets are still to come.
#[derive(Clone, Copy)]
pub enum End {
    Foreign,
    Exact,
    Cut(usize),
    Oversize(usize),
}

// What was done with whole packets so far, and how many octets of the output they fill.
#[derive(Clone, Copy, Default)]
pub struct Tally {
    pub delivered: usize,
    pub idle: usize,
    pub filled: usize,
}

#[derive(Clone, Copy)]
pub struct Ended {
    pub tally: Tally,
    pub end: End,
}

// What stands at the front: a whole packet of so many octets, or the walk's end.
#[tactic(auto, using(crate::proofs::GatherLaws::too_long, crate::proofs::GatherLaws::not_too_long), unfolding(crate::specs::Walk::seen_of, crate::specs::Walk::front))]
fn look(seen: &[u8], limit: usize) -> Result<usize, End>
    requires { length seen.now ≤ limit }
    ensures { result ≡ seen_of source limit seen.now }
{
    let n = seen.len();
    match Packet::size(seen) {
        Size::Foreign => Err(End::Foreign),
        Size::Wait => {
            if n == 0 {
                Err(End::Exact)
            } else {
                Err(End::Cut(n))
            }
        }
        Size::Total(total) => {
            if !Packet::fits_within(total, limit) {
                Err(End::Oversize(total - n))
            } else if total <= n {
                Ok(total)
            } else {
                Err(End::Cut(n))
            }
        }
    }
}

// Delivers a whole packet, or counts it if it is idle.
#[tactic(auto, using(octets::proofs::Runs::laid_nil), unfolding(crate::specs::Walk::tallied, crate::specs::Walk::handed))]
fn hand_out(packet: &[u8], out: &mut [u8], t: Tally) -> Tally
    requires { (2 ≤ length packet.now) × (t.filled + length packet.now ≤ length out.old) × (t.delivered + t.idle < length out.old) }
    ensures tally { result ≡ tallied source t packet.now }
    ensures output { out.new ≡ laid out.old t.filled (handed source packet.now) }
{
    if Packet::idle(packet) {
        return Tally {
            idle: t.idle + 1,
            ..t
        };
    }
    let at = t.filled;
    octets::copy(out, at, packet);
    Tally {
        delivered: t.delivered + 1,
        filled: t.filled + packet.len(),
        ..t
    }
}

// Step 5, from place `from` of the data field on: a loop that yields its end state by break, the paper's form.
pub fn walk(field: &[u8], from: usize, limit: usize, out: &mut [u8], start: Tally) -> Ended
    requires { (from ≤ length field.now) × (length field.now ≤ limit) × (start.filled + (length field.now - from) ≤ length out.old) × (start.delivered + start.idle + (length field.now - from) ≤ length out.old) }
    ensures answer { result ≡ ended_with source start (walk_of source limit (drop from field.now)) }
    ensures output { out.new ≡ laid out.old start.filled (handed_all source (walk_of source limit (drop from field.now)).whole) }
{
    let mut t = start;
    let mut at = from;
    let end = loop {
        match look(&field[at..], limit) {
            Err(e) => break e,
            Ok(n) => {
                let next = at + n;
                t = hand_out(&field[at..next], out, t);
                at = next;
            }
        }
    };
    Ended { tally: t, end }
}
