// Telemetry for C: the functions of `host_telemetry`, under their own names in an archive, with the same clauses.
#![tactic(auto)]

ghost use Rattle.host_answers.specs.Answer.{given_place};
ghost use Rattle.host.specs.Answer.{given_word, set_up_of};
ghost use Rattle.host_telemetry.specs.Calls.{BusyCall, ReadCall, WriteCall};

#[unsafe(no_mangle)]
pub extern "C" fn scowdeck_read(
    length: u32,
    spacecraft: u32,
    error_control: u32,
    words: &mut [u32],
    store: &mut [u8],
    output: &mut [u8],
    frame: &[u8],
    answer: &mut [u32],
) -> u32
    ensures { ReadCall (set_up_of length spacecraft error_control) words.old store.old output.old frame.now answer.old result words.new store.new output.new answer.new }
{
    host_telemetry::scowdeck_read(
        length,
        spacecraft,
        error_control,
        words,
        store,
        output,
        frame,
        answer,
    )
}

#[unsafe(no_mangle)]
pub extern "C" fn scowdeck_write(
    length: u32,
    spacecraft: u32,
    error_control: u32,
    channel: u32,
    master_count: u8,
    channel_count: u8,
    has_word: u32,
    word: u32,
    run: &[u8],
    offset: u32,
    left_over: u32,
    output: &mut [u8],
    answer: &mut [u32],
) -> u32
    ensures { WriteCall (set_up_of length spacecraft error_control) channel (given_place master_count channel_count offset left_over) (given_word has_word word) run.now output.old answer.old result output.new answer.new }
{
    host_telemetry::scowdeck_write(
        length,
        spacecraft,
        error_control,
        channel,
        master_count,
        channel_count,
        has_word,
        word,
        run,
        offset,
        left_over,
        output,
        answer,
    )
}

#[unsafe(no_mangle)]
pub extern "C" fn scowdeck_busy(words: &[u32], answer: &mut [u32]) -> u32
    ensures { BusyCall words.now answer.old result answer.new }
{
    host_telemetry::scowdeck_busy(words, answer)
}
