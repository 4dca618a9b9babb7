// The walk over a data field, from where a packet starts in it or from a packet under way, and what is held of a packet that it cuts.
#![tactic(auto)]

ghost use Rattle.std.specs.Prelude.{◌≡◌, true, ◌++◌, ◌+◌, ◌-◌, ◌≤◌, ◌<◌, length, take, drop};
ghost use Rattle.octets.specs.Laid.{laid};
ghost use Rattle.packet.specs.Size.{format_most, least, size_of, source};
ghost use Rattle.channel.specs.Rules.{state_follows};
ghost use Rattle.frame.specs.SetUp.{most_field, most_length};
ghost use Rattle.walk.specs.Inside.{CutFits, Ready, course_by, held_by};
ghost use Rattle.walk.specs.Steps.{Did, hunted};
ghost use Rattle.walk.specs.Walk.{ended, handed, no_tally, tallied, walk_of};

use channel::State;
use frame::Header;
use judging::{none_yet, plain};
use packet::{Packet, Size};
use walk::{Course, End, Ended, Tally, walk};

// A frame's data field, with the pointer that its header has and the limit of a delivered packet: what is only read. The channel's part of
// the store and the output are lent each by itself, as the paper has them, so that what the three must be (`Ready`) is asked in a clause and is no invariant here.
#[derive(Clone, Copy)]
pub struct Field<'a> {
    pub octets: &'a [u8],
    pub pointer: usize,
    pub limit: usize,
}

// Holds the field's last k octets. A number and no slice, here and below: the paper's "gathering k octets".
fn hold(field: &[u8], k: usize, part: &mut [u8])
    requires { (k ≤ length field.now) × (k ≤ length part.old) }
    ensures { part.new ≡ laid part.old 0 (drop (length field.now - k) field.now) }
{
    let from = field.len() - k;
    octets::copy(part, 0, &field[from..]);
}

// What the end of a walk over the field means for the channel; a cut packet's octets are held.
#[tactic(auto, using(octets::proofs::Runs::laid_nil), unfolding(walk::specs::Inside::CutFits, walk::specs::Inside::course_by, walk::specs::Inside::held_by))]
pub fn settle(field: &[u8], e: Ended, part: &mut [u8]) -> Course
    requires { CutFits e.end field.now part.old }
    ensures reports { result ≡ course_by e.tally e.end }
    ensures holds { part.new ≡ laid part.old 0 (held_by e.end field.now) }
{
    let tally = e.tally;
    match e.end {
        End::Foreign => plain(tally, State::Hunting, 1, 0),
        End::Exact => plain(tally, State::Gathering(0), 0, 0),
        End::Oversize(r) => plain(tally, State::Skipping(r), 0, 1),
        End::Cut(k) => {
            hold(field, k, part);
            plain(tally, State::Gathering(k), 0, 0)
        }
    }
}

// Step 4.
pub fn hunt(field: Field, part: &mut [u8], out: &mut [u8]) -> Course
    requires ready { Ready field.limit part.old field.octets.now field.pointer out.old }
    ensures { Did source (hunted source field.entry.limit field.entry.octets.now field.entry.pointer) result part.old part.new out.old out.new }
{
    if field.pointer == Header::NONE {
        return plain(none_yet(), State::Hunting, 0, 0);
    }
    let e = walk(field.octets, field.pointer, field.limit, out, none_yet());
    settle(field.octets, e, part)
}

// Delivers, or counts if it is idle, a packet of `total` octets that began with the held ones and ends in the field.
fn finish(held: &[u8], field: &[u8], total: usize, out: &mut [u8]) -> Tally
    requires { (least ≤ total) × (length held.now ≤ total) × (total ≤ length held.now + length field.now) × (total ≤ length out.old) }
    ensures tally { result ≡ tallied source no_tally (take total (held.now ++ field.now)) }
    ensures output { out.new ≡ laid out.old 0 (handed source (take total (held.now ++ field.now))) }
{
    if Packet::idle_across(held, field) {
        return Tally {
            idle: 1,
            ..none_yet()
        };
    }
    let k = held.len();
    let rest = total - k;
    octets::copy(out, 0, held);
    octets::copy(out, k, &field[..rest]);
    Tally {
        delivered: 1,
        filled: total,
        ..none_yet()
    }
}

// Holds the whole field behind the k octets that are held already.
#[tactic(auto, using(walk::proofs::GatherLaws::laid_more), unfolding(walk::specs::Inside::course_by))]
fn hold_more(field: &[u8], k: usize, part: &mut [u8]) -> Course
    requires { k + length field.now ≤ length part.old }
    ensures reports { result ≡ course_by no_tally (End.Cut (k + length field.now)) }
    ensures holds { part.new ≡ laid part.old 0 (take k part.old ++ field.now) }
{
    octets::copy(part, k, field);
    plain(none_yet(), State::Gathering(k + field.len()), 0, 0)
}

// Step 5 from a packet under way, of which k octets are held and which is told to have `size`.
pub fn gather(field: Field, k: usize, size: Size, part: &mut [u8], out: &mut [u8]) -> Course
    requires room { (length part.old ≡ field.limit) × (most_length ≤ field.limit) × (field.limit ≤ format_most) × (1 ≤ length field.octets.now) × (length field.octets.now ≤ most_field) × (field.limit + most_length ≤ length out.old) }
    requires held { (state_follows source field.limit part.old (State.Gathering k) ≡ true) × (size ≡ size_of (take k part.old ++ field.octets.now)) }
    ensures { Did source (ended (walk_of source field.entry.limit (take k part.old ++ field.entry.octets.now))) result part.old part.new out.old out.new }
{
    let there = k + field.octets.len();
    match size {
        Size::Foreign => plain(none_yet(), State::Hunting, 1, 0),
        Size::Wait => hold_more(field.octets, k, part),
        Size::Total(total) => {
            if !Packet::fits_within(total, field.limit) {
                return plain(none_yet(), State::Skipping(total - there), 0, 1);
            }
            if there < total {
                return hold_more(field.octets, k, part);
            }
            let t = finish(&part[..k], field.octets, total, out);
            let e = walk(field.octets, total - k, field.limit, out, t);
            settle(field.octets, e, part)
        }
    }
}
