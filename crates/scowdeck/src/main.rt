// Reads frames laid end to end in a file, prints a line a frame and a summary a channel, and writes the packets of each channel
// to a file of its own. Every frame goes through the reader's thin entry, with record and store kept from frame to frame.
#![tactic(auto)]

mod help;
mod recording;
mod starting;
mod summary;
mod words;

use lines::complain;
use words::{is_given, word_at};

// Five words behind the program's name.
fn five_words(rt: &HostRuntime) -> bool {
    is_given(rt, 5) && !is_given(rt, 6)
}

fn asked_for_help(rt: &HostRuntime) -> bool {
    let mut room = [0u8; 8];
    word_at(rt, 1, &mut room).is_ok_and(|word| word == b"--help".as_slice())
}

fn main(rt: HostRuntime) {
    if five_words(&rt) {
        starting::start(&rt);
    } else if asked_for_help(&rt) {
        help::help(&rt);
    } else {
        complain(
            &rt.stderr(),
            "five words are wanted: FILE LENGTH SPACECRAFT CHECK OUT; scowdeck --help says more",
        );
    }
}
