// The words that the program is started with. They are read into rooms of the program's own: it never stops for lack of memory.
ghost use Rattle.std.specs.Prelude.{◌≤◌, length, IfOk};

use std::env::FillError;
use std::rt::Env;

// Word i, put at the start of the room.
pub fn word_at<'a>(rt: &impl Env, i: usize, room: &'a mut [u8]) -> Result<&'a [u8], FillError>
    ensures { IfOk result (λ word. length word.now ≤ length room.old) }
{
    let n = rt.arg(i, room)?;
    Ok(&room[..n])
}

// Whether there is a word i, which may be longer than any room.
pub fn is_given(rt: &impl Env, i: usize) -> bool {
    let mut room = [0u8; 1];
    !matches!(rt.arg(i, &mut room), Err(FillError::NotPresent))
}

// What `parse` makes of word i, if there is one of 16 octets at most.
pub fn parsed_at<T, F: FnOnce(&[u8]) -> Option<T>>(rt: &impl Env, i: usize, parse: F) -> Option<T>
    requires { F.IsAlwaysCallable parse }
{
    let mut room = [0u8; 16];
    parse(word_at(rt, i, &mut room).ok()?)
}

pub fn yes_or_no(word: &[u8]) -> Option<bool> {
    match word {
        b"yes" => Some(true),
        b"no" => Some(false),
        _ => None,
    }
}
