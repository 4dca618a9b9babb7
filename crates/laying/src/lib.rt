// Laying a data field: what was left over, the run from the offset, the filler; and its pointer.
#![tactic(auto)]

ghost use Rattle.std.specs.Prelude.{◌≡◌, ◌+◌, ◌-◌, ◌≤◌, ◌<◌, min, length};
ghost use Rattle.octets.specs.Laid.{laid};
ghost use Rattle.packet.specs.Size.{least};
ghost use Rattle.frame.specs.SetUp.{most_field};
ghost use Rattle.writing.specs.Writing.{most_run};
ghost use Rattle.writing.specs.Laying.{filler_of, field_of, idle_packet, left_after, left_over_after, left_part, most_left, pointer_of, run_part};

use packet::Packet;
use writing::Laid;

// The shortest idle packet, and the octet that idle data is made of.
const SHORT_IDLE: [u8; 7] = [0x07, 0xFF, 0xC0, 0x00, 0x00, 0x00, 0x55];

const FILL: u8 = 0x55;

// A left-over is a number with `left_over ≤ most_left` in three contracts: `lay` and `pointer` are public, with fields of OneAnswer, and a type of its own would ask more of their callers.
// The last octets of an idle packet that was begun in an earlier frame, as many as fit; answers how many were placed.
fn lay_left_over(field: &mut [u8], left_over: usize) -> usize
    requires { left_over ≤ most_left }
    ensures placed { result ≡ min left_over (length field.old) }
    ensures field { field.new ≡ laid field.old 0 (left_part (length field.old) left_over) }
{
    let n = left_over.min(field.len());
    let from = Packet::MIN - left_over;
    octets::copy(field, 0, &SHORT_IDLE[from..from + n]);
    n
}

// An idle packet of exactly n octets, from place `at` on.
fn lay_idle_packet(field: &mut [u8], at: usize, n: usize)
    requires { (least ≤ n) × (n ≤ most_field) × (at + n ≤ length field.old) }
    ensures { field.new ≡ laid field.old at (idle_packet n) }
{
    numbers::put::<4>(field, at, 0x07FF_C000);
    numbers::put::<2>(field, at + 4, n - Packet::LENGTH_BIAS);
    octets::fill(field, at + Packet::HEADER, n - Packet::HEADER, FILL);
}

// Fills the room from place `at` to the field's end; answers the new left-over.
fn lay_filler(field: &mut [u8], at: usize) -> usize
    requires { (at ≤ length field.old) × (length field.old ≤ most_field) }
    ensures left { result ≡ left_after at (length field.old - at) }
    ensures field { field.new ≡ laid field.old at (filler_of at (length field.old - at)) }
{
    let room = field.len() - at;
    if at == 0 {
        octets::fill(field, 0, room, FILL);
        return 0;
    }
    if Packet::MIN <= room {
        lay_idle_packet(field, at, room);
        return 0;
    }
    if room == 0 {
        return 0;
    }
    octets::copy(field, at, &SHORT_IDLE[..room]);
    Packet::MIN - room
}

// Lays one data field: first what was left over, then the run from the offset, then the filler.
pub fn lay(field: &mut [u8], run: &[u8], offset: usize, left_over: usize) -> Laid
    requires { (left_over ≤ most_left) × (offset ≤ length run.now) × (length field.old ≤ most_field) }
    ensures goes { (result.offset ≡ offset + length (run_part (length field.old) run.now offset left_over)) × (result.left_over ≡ left_over_after (length field.old) run.now offset left_over) }
    ensures field { field.new ≡ field_of (length field.old) run.now offset left_over }
{
    let placed = lay_left_over(field, left_over);
    let n = (run.len() - offset).min(field.len() - placed);
    let next = offset + n;
    octets::copy(field, placed, &run[offset..next]);
    let end = placed + n;
    let begun = lay_filler(field, end);
    Laid {
        offset: next,
        left_over: left_over - placed + begun,
    }
}

// The pointer of such a field of d octets, from the distance to the first packet boundary at or after the offset.
pub fn pointer(d: usize, to_start: usize, left_over: usize, nothing: bool) -> usize
    requires { (left_over ≤ most_left) × (to_start ≤ most_run) }
    ensures { result ≡ pointer_of d to_start left_over nothing }
{
    if nothing {
        return frame::Header::IDLE;
    }
    let start = left_over + to_start;
    if start < d {
        start
    } else {
        frame::Header::NONE
    }
}
