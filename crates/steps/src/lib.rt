// Steps 2 to 5: what an accepted frame does to its channel.
#![tactic(auto)]

ghost use Rattle.std.specs.Prelude.{◌≡◌, true, false, ◌-◌, ◌<◌};
ghost use Rattle.packet.specs.Size.{source};
ghost use Rattle.channel.specs.Rules.{channel_follows, state_follows};
ghost use Rattle.walk.specs.Inside.{Fit, Ready};
ghost use Rattle.walk.specs.Steps.{Did, carries_none, gap_for, resumed, steps_of};

use channel::{Channel, State};
use frame::Header;
use gathering::{Field, gather, hunt, settle};
use judging::{agreeing, break_off, called_at, carries_none, disagreement, none_yet, plain};
use packet::Packet;
use walk::{Course, walk};

fn resume_gathering(field: Field, k: usize, part: &mut [u8], out: &mut [u8]) -> Course
    requires ready { Ready field.limit part.old field.octets.now field.pointer out.old }
    requires follows { state_follows source field.limit part.old (State.Gathering k) ≡ true }
    ensures { Did source (resumed source field.entry.limit part.old field.entry.octets.now field.entry.pointer (State.Gathering k)) result part.old part.new out.old out.new }
{
    let size = Packet::size_across(&part[..k], field.octets);
    if agreeing(field.octets.len(), k, size, field.pointer) {
        return gather(field, k, size, part, out);
    }
    disagreement(State::Gathering(k), hunt(field, part, out))
}

fn resume_skipping(field: Field, r: usize, part: &mut [u8], out: &mut [u8]) -> Course
    requires ready { Ready field.limit part.old field.octets.now field.pointer out.old }
    ensures { Did source (resumed source field.entry.limit part.old field.entry.octets.now field.entry.pointer (State.Skipping r)) result part.old part.new out.old out.new }
{
    let d = field.octets.len();
    if field.pointer != called_at(d, r) {
        return disagreement(State::Skipping(r), hunt(field, part, out));
    }
    if d < r {
        return plain(none_yet(), State::Skipping(r - d), 0, 0);
    }
    let e = walk(field.octets, r, field.limit, out, none_yet());
    settle(field.octets, e, part)
}

// Steps 3 to 5, by the channel's state.
fn resume(field: Field, state: State, part: &mut [u8], out: &mut [u8]) -> Course
    requires ready { Ready field.limit part.old field.octets.now field.pointer out.old }
    requires follows { state_follows source field.limit part.old state ≡ true }
    ensures { Did source (resumed source field.entry.limit part.old field.entry.octets.now field.entry.pointer state) result part.old part.new out.old out.new }
{
    match state {
        State::Hunting => hunt(field, part, out),
        State::Gathering(k) => resume_gathering(field, k, part, out),
        State::Skipping(r) => resume_skipping(field, r, part, out),
    }
}

// Step 2 of a frame with packets, after a gap: a packet under way is broken off, and the channel hunts.
fn after_gap(
    field: Field,
    h: Header,
    channel: Channel,
    gap: u8,
    part: &mut [u8],
    out: &mut [u8],
) -> Course
    requires ready { Ready field.limit part.old field.octets.now field.pointer out.old }
    requires gap { (field.pointer ≡ h.pointer) × (carries_none h ≡ false) × (gap ≡ gap_for channel h) × (gap ≡ 0 → ⊥) }
    ensures { Did source (steps_of source field.entry.limit part.old field.entry.octets.now h channel) result part.old part.new out.old out.new }
{
    break_off(channel.state, hunt(field, part, out))
}

// Steps 2 to 5 of a frame with this gap.
pub fn steps(
    field: &[u8],
    h: Header,
    channel: Channel,
    gap: u8,
    limit: usize,
    part: &mut [u8],
    out: &mut [u8],
) -> Course
    requires fit { h.synchronisation ≡ false → Fit limit part.old field.now h.pointer out.old }
    requires follows { (channel_follows source limit part.old channel ≡ true) × (gap ≡ gap_for channel h) }
    ensures { Did source (steps_of source limit part.old field.now h channel) result part.old part.new out.old out.new }
{
    let state = channel.state;
    if carries_none(h) {
        return break_off(state, plain(none_yet(), State::Hunting, 0, 0));
    }
    let field = Field {
        octets: field,
        pointer: h.pointer,
        limit,
    };
    if gap != 0 {
        return after_gap(field, h, channel, gap, part, out);
    }
    resume(field, state, part, out)
}
