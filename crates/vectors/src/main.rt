// Runs a script of cases from standard input through what the boundary does not show, and prints a line for each: the command and what
// came of it as key=value, numbers in decimal, octets in hex. A line that is empty or starts with # is printed as it is.
//
//   chain OCTETS             whether they are a chain of whole packets
//   distance OFFSET OCTETS   from an offset into a chain to the next boundary
//   gap COUNT LAST           frames missing between the two counts
//   header OCTETS            the values of a packet header
//   size OCTETS              what the first octets of a packet tell
//   walk FROM LIMIT OCTETS   from packet to packet
//
// A command is told by its first letter. The script is the repository's own: a line that is no case is found by tests/model.py, which
// ends with an error, and not here.
#![tactic(auto)]

mod commands;
mod given;
mod hex;
mod packets;
mod walks;
mod words;

use commands::{Command, read};
use given::Given;
use input::read_full;

fn perform(rt: &impl Print, command: Command, octets: &[u8]) {
    match command {
        Command::Chain => packets::chain(rt, octets),
        Command::Distance(offset) => packets::distance(rt, offset, octets),
        Command::Gap(count, last) => packets::gap(rt, count, last),
        Command::Header => packets::header(rt, octets),
        Command::Size => packets::size(rt, octets),
        Command::Walk(from, limit) => walks::walk(rt, from, limit, octets),
    }
}

fn interpret(rt: &impl Print, line: &[u8], given: &mut Given) {
    match line {
        [] => {}
        [b'#', ..] => {
            let _ = rt.write_all(line);
        }
        [letter, rest @ ..] => {
            let (command, words) = read(*letter, rest);
            given.take(words);
            perform(rt, command, given.octets());
        }
    }
}

// Line by line; the last needs no end. What cannot be written is lost.
fn run_script(rt: &impl Print, script: &[u8]) {
    let mut given = Given::new();
    for line in script.split_inclusive(|b| *b == b'\n') {
        interpret(rt, line.strip_suffix(b"\n").unwrap_or(line), &mut given);
        let _ = rt.write_all(b"\n");
    }
}

fn main(rt: HostRuntime) {
    let mut script = [0; 16384];
    let n = read_full(&mut rt.stdin(), &mut script);
    run_script(&rt, &script[..n]);
}
