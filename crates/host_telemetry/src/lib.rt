// Telemetry: reading a frame into a saved record, writing one, and what a saved record is busy with. The parameters are those of the C interface.
#![tactic(auto)]

ghost use Rattle.host_answers.specs.Answer.{given_place};
ghost use Rattle.host.specs.Answer.{given_word, set_up_of};
ghost use Rattle.octets.specs.Octets.{Octets};
ghost use Rattle.host_telemetry.specs.Calls.{BusyCall, ReadCall, WriteCall};

use frame::{ChannelCount, MasterCount};
use host::{control_word, lay, set_up};
use host_answers::{answer_read, answer_write};
use host_words::{see, unpack};
use writing::Place;

// What the type says of a slice, kept as a fact about the slice as it was lent.
fn are_octets(s: &[u8])
    ensures { Octets s.now }
{}

// Reads a frame into the saved record, its store and the output.
pub fn scowdeck_read(
    length: u32,
    spacecraft: u32,
    error_control: u32,
    words: &mut [u32],
    store: &mut [u8],
    output: &mut [u8],
    frame: &[u8],
    answer: &mut [u32],
) -> u32
    ensures { ReadCall (set_up_of length spacecraft error_control) words.old store.old output.old frame.now answer.old result words.new store.new output.new answer.new }
{
    let set = set_up(length, spacecraft, error_control);
    let rec = unpack(&words[..]);
    are_octets(&store[..]);
    let o = reader::read_core(set, rec, frame, store, output);
    answer_read(o, words, answer)
}

// Writes one frame into the output.
pub fn scowdeck_write(
    length: u32,
    spacecraft: u32,
    error_control: u32,
    channel: u32,
    master_count: u8,
    channel_count: u8,
    has_word: u32,
    word: u32,
    run: &[u8],
    offset: u32,
    left_over: u32,
    output: &mut [u8],
    answer: &mut [u32],
) -> u32
    ensures { WriteCall (set_up_of length spacecraft error_control) channel (given_place master_count channel_count offset left_over) (given_word has_word word) run.now output.old answer.old result output.new answer.new }
{
    let set = set_up(length, spacecraft, error_control);
    let place = Place {
        offset: offset as usize,
        left_over: left_over as usize,
        master: MasterCount(master_count),
        count: ChannelCount(channel_count),
    };
    let control = control_word(has_word, word);
    let w = writer::write(set, channel as usize, place, control, run, output);
    answer_write(w, answer)
}

// The busy mask of a saved record, from its states alone.
pub fn scowdeck_busy(words: &[u32], answer: &mut [u32]) -> u32
    ensures { BusyCall words.now answer.old result answer.new }
{
    let rec = see(words);
    let mask = u32::from(rec.busy());
    let values = [mask, rec.busy_count(), rec.lowest_busy()];
    lay(answer, &values);
    mask
}
