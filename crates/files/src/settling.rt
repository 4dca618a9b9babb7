// A channel's file at the end: all of it handed to the system, and read back.
use crate::opening::open;
use desk::Saved;
use input::read_full;
use lines::blame;
use printing::{Hex, say};
use std::fs::OpenFile;
use std::io;
use std::io::Read;
use std::rt::Files;

// Files of fewer octets than this are looked at whole.
const ROOM: usize = 65536;

// What could not be done, and why.
#[derive(Clone, Copy)]
struct Failure {
    what: &'static str,
    why: io::Error,
}

// The octets read back, against what was written.
fn compared(rt: &impl Print, octets: &[u8], s: Saved) -> bool {
    if ROOM <= octets.len() {
        say(rt, " check=none");
        return !s.failed;
    }
    let check = Hex::<4>(u32::from(crc::syndrome(octets)));
    say(rt, format_args!(" check={check}"));
    !s.failed && octets.len() as u64 == s.octets
}

// A function of its own: among the `?` of `settled` the room would be made twice.
fn read_back(rt: &impl Print, file: &mut impl Read, s: Saved) -> bool {
    let mut room = [0u8; ROOM];
    let n = read_full(file, &mut room);
    compared(rt, &room[..n], s)
}

// Reads the channel's file back: whether all of the channel's packets are in it. std tells of no error of a close, so what such an
// error would tell is asked for before: whether what was written can be stored.
fn settled<R: Files + Print>(
    rt: &R,
    file: &R::File,
    path: &[u8],
    s: Saved,
) -> Result<bool, Failure> {
    file.sync_data().map_err(|why| Failure {
        what: "cannot close ",
        why,
    })?;
    let mut back = open(rt, path).map_err(|why| Failure {
        what: "cannot read back ",
        why,
    })?;
    Ok(read_back(rt, &mut back, s))
}

// Ends the channel's line but for the last word of it, which is what this answers.
pub fn finished<R: Files + Print>(
    rt: &R,
    err: &impl Print,
    file: &R::File,
    path: &[u8],
    s: Saved,
) -> bool {
    say(rt, format_args!(" octets={}", s.octets));
    match settled(rt, file, path, s) {
        Ok(saved) => saved,
        Err(failure) => {
            blame(err, failure.what, path, failure.why);
            false
        }
    }
}
