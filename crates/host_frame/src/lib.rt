// The frame part, which is sold by itself: opening a frame, closing one, and the check. The parameters are those of the C interface.
#![tactic(auto)]

ghost use Rattle.std.specs.Prelude.{◌≡◌, Ok};
ghost use Rattle.crc.specs.Register.{syndrome_of};
ghost use Rattle.frame.specs.Answers.{values_of};
ghost use Rattle.host_frame.specs.Answer.{FrameFits, OpenFits};
ghost use Rattle.host.specs.Answer.{given_count, given_master, given_word, set_up_of};
ghost use Rattle.host_frame.specs.Calls.{CloseCall, OpenCall};

use frame::{ChannelCount, CloseRefusal, Frame, MasterCount, Refusal};
use host::{control_word, flag_word, lay, refused_values, set_up};

// Number 0, the header values in the order of read's answer, the control word, place and octets of the data field. Written out, as read's are:
// the ten header values stand behind one word here and behind two there, and arrays are not joined plainly.
#[tactic(auto, unfolding(frame::specs::Answers::values_of))]
fn frame_values(x: Frame) -> [u32; 14]
    requires { FrameFits x }
    ensures { result ≡ values_of (Ok x) }
{
    let h = x.header;
    [
        0,
        h.spacecraft,
        h.channel as u32,
        flag_word(h.flagged),
        u32::from(h.master.0),
        u32::from(h.count.0),
        flag_word(h.secondary),
        flag_word(h.synchronisation),
        flag_word(h.order),
        u32::from(h.segment),
        h.pointer as u32,
        x.word,
        x.place as u32,
        x.size as u32,
    ]
}

#[tactic(auto, unfolding(frame::specs::Answers::values_of))]
fn open_values(opened: Result<Frame, Refusal>) -> [u32; 14]
    requires { OpenFits opened }
    ensures { result ≡ values_of opened }
{
    match opened {
        Err(refusal) => refused_values(refusal.number()),
        Ok(x) => frame_values(x),
    }
}

// Opens a frame: its header values, its control word, and where its data field lies.
pub fn scowdeck_open(
    length: u32,
    spacecraft: u32,
    error_control: u32,
    frame: &[u8],
    answer: &mut [u32],
) -> u32
    ensures { OpenCall (set_up_of length spacecraft error_control) frame.now answer.old result answer.new }
{
    let set = set_up(length, spacecraft, error_control);
    let opened = opening::open(set, frame);
    let values = open_values(opened);
    lay(answer, &values);
    values[0]
}

// Closes a frame around the data field, which lies in its place in the output already. Of the pointer its low 11 bits are written.
#[tactic(auto, unfolding(frame::specs::Answers::close_value_of))]
pub fn scowdeck_close(
    length: u32,
    spacecraft: u32,
    error_control: u32,
    channel: u32,
    master_count: u8,
    channel_count: u8,
    has_word: u32,
    word: u32,
    pointer: u32,
    output: &mut [u8],
) -> u32
    ensures { CloseCall (set_up_of length spacecraft error_control) channel (given_master master_count) (given_count channel_count) (given_word has_word word) pointer output.old result output.new }
{
    let set = set_up(length, spacecraft, error_control);
    let master = MasterCount(master_count);
    let count = ChannelCount(channel_count);
    let control = control_word(has_word, word);
    let closed = closing::close(
        set,
        channel as usize,
        master,
        count,
        control,
        pointer as usize,
        output,
    );
    closed.err().map_or(0, CloseRefusal::number)
}

// The 16-bit syndrome of a run of octets.
pub fn scowdeck_syndrome(octets: &[u8]) -> u32
    ensures { result ≡ syndrome_of octets.now }
{
    u32::from(crc::syndrome(octets))
}
