// Closing a frame: header, control word and check around a data field that lies in its place already.
#![tactic(auto)]

ghost use Rattle.std.specs.Prelude.{◌≡◌, true, ◌+◌, ◌≤◌, ◌<◌, length, OnOk};
ghost use Rattle.octets.specs.Laid.{laid};
ghost use Rattle.frame.specs.Closing.{word_octets, header_octets, close_of, close_size, output_of};
ghost use Rattle.frame.specs.Inside.{checked_output};
ghost use Rattle.frame.specs.SetUp.{fits_of};

use frame::{ChannelCount, CloseRefusal, ControlWord, Header, MasterCount, SetUp, data_size};

#[tactic(auto, using(octets::proofs::Runs::laid_nil), unfolding(frame::specs::Closing::word_octets, octets::specs::Numbers::octets_of))]
fn write_word(word: Option<ControlWord>, output: &mut [u8], at: usize)
    requires { at + length (word_octets word) ≤ length output.old }
    ensures { output.new ≡ laid output.old at (word_octets word) }
{
    if let Some(word) = word {
        numbers::put::<4>(output, at, word.0 as usize);
    }
}

// Tests 1, 20 and 25.
#[tactic(auto, using(frame::proofs::ClosingSteps::outside, frame::proofs::ClosingSteps::above, frame::proofs::ClosingSteps::other_length, frame::proofs::ClosingSteps::no_cause))]
fn tests(set: SetUp, channel: usize, output: &[u8]) -> Result<(), CloseRefusal>
    ensures answer { result ≡ close_of set channel output.now }
    ensures passed { OnOk result ((fits_of set ≡ true) × (channel < 8) × (length output.now ≡ set.length)) }
{
    if !set.fits() {
        return Err(CloseRefusal::SetUpRange);
    }
    if Header::CHANNELS <= channel {
        return Err(CloseRefusal::ChannelAbove);
    }
    if output.len() != set.length {
        return Err(CloseRefusal::OutputLength);
    }
    Ok(())
}

fn write_header(
    set: SetUp,
    channel: usize,
    master: MasterCount,
    count: ChannelCount,
    flagged: bool,
    pointer: usize,
    output: &mut [u8],
)
    requires { (fits_of set ≡ true) × (channel < 8) × (6 ≤ length output.old) }
    ensures { output.new ≡ laid output.old 0 (header_octets set channel master count flagged pointer) }
{
    let spacecraft = set.spacecraft as usize;
    numbers::put::<2>(
        output,
        0,
        spacecraft * 16 + channel * 2 + usize::from(flagged),
    );
    numbers::put::<2>(output, 2, master.0 as usize * 256 + count.0 as usize);
    numbers::put::<2>(
        output,
        4,
        Header::SEGMENT_ID as usize * 2048 + pointer % 2048,
    );
}

// The check over all octets before it, if it is set up.
fn write_check(set: SetUp, output: &mut [u8])
    requires { 2 ≤ length output.old }
    ensures { output.new ≡ checked_output set output.old }
{
    if set.error_control {
        let at = output.len() - SetUp::CHECK;
        let field = crc::syndrome(&output[..at]);
        numbers::put::<2>(output, at, field as usize);
    }
}

// D, the length of the data field that `close` expects: of a frame with no secondary header.
pub fn data_size_for(set: SetUp, word: Option<ControlWord>) -> usize
    ensures { result ≡ close_size set word }
{
    data_size(set, 0, word.is_some())
}

// Writes the frame around the data field, which lies in its place in the output already. Of a pointer above 2047 it writes the low 11 bits:
// 1, 20 and 25 are its only causes, in that order. The parameters are a frame's header values, each by itself, as C gives them.
pub fn close(
    set: SetUp,
    channel: usize,
    master: MasterCount,
    count: ChannelCount,
    word: Option<ControlWord>,
    pointer: usize,
    output: &mut [u8],
) -> Result<(), CloseRefusal>
    ensures answer { result ≡ close_of set channel output.old }
    ensures output { output.new ≡ output_of set channel master count word pointer output.old }
{
    tests(set, channel, output)?;
    write_header(set, channel, master, count, word.is_some(), pointer, output);
    let end = Header::SIZE + data_size_for(set, word);
    write_word(word, output, end);
    write_check(set, output);
    Ok(())
}
