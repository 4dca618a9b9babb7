// The frame part for C: the functions of `host_frame`, under their own names in an archive, with the same clauses.
#![tactic(auto)]

ghost use Rattle.std.specs.Prelude.{◌≡◌};
ghost use Rattle.crc.specs.Register.{syndrome_of};
ghost use Rattle.host.specs.Answer.{given_count, given_master, given_word, set_up_of};
ghost use Rattle.host_frame.specs.Calls.{CloseCall, OpenCall};

#[unsafe(no_mangle)]
pub extern "C" fn scowdeck_open(
    length: u32,
    spacecraft: u32,
    error_control: u32,
    frame: &[u8],
    answer: &mut [u32],
) -> u32
    ensures { OpenCall (set_up_of length spacecraft error_control) frame.now answer.old result answer.new }
{
    host_frame::scowdeck_open(length, spacecraft, error_control, frame, answer)
}

#[unsafe(no_mangle)]
pub extern "C" fn scowdeck_close(
    length: u32,
    spacecraft: u32,
    error_control: u32,
    channel: u32,
    master_count: u8,
    channel_count: u8,
    has_word: u32,
    word: u32,
    pointer: u32,
    output: &mut [u8],
) -> u32
    ensures { CloseCall (set_up_of length spacecraft error_control) channel (given_master master_count) (given_count channel_count) (given_word has_word word) pointer output.old result output.new }
{
    host_frame::scowdeck_close(
        length,
        spacecraft,
        error_control,
        channel,
        master_count,
        channel_count,
        has_word,
        word,
        pointer,
        output,
    )
}

#[unsafe(no_mangle)]
pub extern "C" fn scowdeck_syndrome(octets: &[u8]) -> u32
    ensures { result ≡ syndrome_of octets.now }
{
    host_frame::scowdeck_syndrome(octets)
}
