// The files of the eight channels: OUT.0 to OUT.7. None is ever overwritten.
#![tactic(auto)]

mod opening;
mod out;
mod settling;

ghost use Rattle.std.specs.Prelude.{◌≤◌, ◌<◌};

use desk::{Saved, more};
use lines::{Reason, blame};
pub use opening::open;
use opening::{make_new, remove};
pub use out::{OUT_MAX, Out, PATH_MAX};
use printing::say;
pub use settling::finished;
use std::io::Write;
use std::rt::Files;

// Takes away the files of the channels below v, which are empty.
fn unmake_below(rt: &impl Files, out: &Out, v: usize)
    requires { v ≤ 8 }
{
    for w in (0..v).rev() {
        let _ = remove(rt, out.name(w).as_slice());
    }
}

// The file of channel v; where it cannot be made, those below it go too. None and no error: what went wrong is said before they go.
fn make_next<R: Files>(rt: &R, err: &impl Print, out: &Out, v: usize) -> Option<R::File>
    requires { v < 8 }
{
    let name = out.name(v);
    match make_new(rt, name.as_slice()) {
        Ok(file) => Some(file),
        Err(why) => {
            blame(err, "cannot make ", name.as_slice(), why);
            unmake_below(rt, out, v);
            None
        }
    }
}

// Makes all eight, or none, and says why.
// Eight calls and not array::try_from_fn: that one asks that eight files fit in memory, which nothing says of an R::File.
pub fn make_all<R: Files>(rt: &R, err: &impl Print, out: &Out) -> Option<[R::File; 8]> {
    let mut next = |v: usize|
        requires { v < 8 }
    { make_next(rt, err, out, v) };
    Some([
        next(0)?,
        next(1)?,
        next(2)?,
        next(3)?,
        next(4)?,
        next(5)?,
        next(6)?,
        next(7)?,
    ])
}

// Writes packets to the channel's file, unless a write to it failed before.
pub fn save(err: &impl Print, file: &mut impl Write, v: usize, s: Saved, packets: &[u8]) -> Saved {
    if s.failed {
        return s;
    }
    match file.write_all(packets) {
        Ok(()) => Saved {
            octets: more(s.octets, packets.len() as u64),
            ..s
        },
        Err(why) => {
            say(
                err,
                format_args!(
                    "scowdeck: the packets of channel {v} cannot be written, and no more of them will be{}{}{}",
                    ": ",
                    Reason(why),
                    "\n"
                ),
            );
            Saved { failed: true, ..s }
        }
    }
}
