// What a frame means for its channel before any octet of it is looked at: its gap, the pointer that is called for, what counts as broken and
// what as a disagreement.
#![tactic(auto)]

ghost use Rattle.std.specs.Prelude.{◌≡◌, true, ◌-◌, ◌<◌};
ghost use Rattle.walk.specs.Inside.{broken_course, disagreed_course};
ghost use Rattle.walk.specs.Steps.{agrees, broken_by, called_at, carries_none, gap_for};
ghost use Rattle.walk.specs.Walk.{no_tally};

use channel::{Channel, State};
use frame::Header;
use packet::Size;
use walk::{Course, Tally};

// The default, by the name that OneAnswer has of it.
pub fn none_yet() -> Tally
    ensures { result ≡ no_tally }
{
    Tally::default()
}

pub fn plain(tally: Tally, state: State, foreign: usize, oversize: usize) -> Course
    ensures { result ≡ record { tally = tally; state = state; broken = 0; disagreement = 0; foreign = foreign; oversize = oversize } }
{
    Course {
        tally,
        state,
        foreign,
        oversize,
        ..Course::default()
    }
}

// The pointer that a packet calls for which ends at place `end` of a field of d octets.
#[tactic(auto, unfolding(walk::specs::Steps::called_at))]
pub fn called_at(d: usize, end: usize) -> usize
    ensures { result ≡ called_at d end }
{
    if end < d { end } else { Header::NONE }
}

// Step 3, of k octets held and a packet that is told to have `size`: the pointer is the one called for.
#[tactic(auto, unfolding(walk::specs::Steps::agrees, walk::specs::Steps::agrees_by, walk::specs::Steps::called_at))]
pub fn agreeing(d: usize, k: usize, size: Size, pointer: usize) -> bool
    ensures { result ≡ agrees d k size pointer }
{
    if k == 0 {
        return pointer == called_at(d, 0);
    }
    match size {
        Size::Wait => pointer == Header::NONE,
        Size::Foreign => true,
        Size::Total(total) => pointer == called_at(d, total.saturating_sub(k)),
    }
}

// The packet under way in this state counts as broken.
pub fn broken_by(state: State) -> usize
    ensures { result ≡ broken_by state }
{
    usize::from(channel::busy_state(state))
}

pub fn break_off(state: State, c: Course) -> Course
    ensures { result ≡ broken_course state c }
{
    Course {
        broken: broken_by(state),
        ..c
    }
}

pub fn disagreement(state: State, found: Course) -> Course
    ensures { result ≡ disagreed_course state found }
{
    Course {
        broken: broken_by(state),
        disagreement: 1,
        ..found
    }
}

// An idle or a private frame.
#[tactic(auto, unfolding(walk::specs::Steps::carries_none))]
pub fn carries_none(h: Header) -> bool
    ensures { result ≡ carries_none h }
{
    h.synchronisation || h.pointer == Header::IDLE
}

// Step 1: the gap.
#[tactic(auto, unfolding(walk::specs::Steps::gap_for))]
pub fn gap_for(channel: Channel, h: Header) -> u8
    ensures { result ≡ gap_for channel h }
{
    if channel.heard {
        h.count.gap(channel.last)
    } else {
        0
    }
}
