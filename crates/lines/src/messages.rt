// Messages on standard error, a handle of its own and no Eprint, so that octets that are no text can go there.
use printing::say;
use std::fmt::InlineText;
use std::{fmt, io};

// What the system says of a call that failed. The error's number, which std writes behind its words, is left out.
#[derive(Drop)]
pub struct Reason(pub io::Error);

impl fmt::Display for Reason {
    fn fmt<W: fmt::Write>(&self, f: &mut fmt::Formatter<W>) -> fmt::Result {
        let text = InlineText::<256>::of(self.0);
        let all = text.as_str();
        let words = all
            .rsplit_once(" (os error ")
            .map_or(all, |(words, _)| words);
        f.write_str(words)
    }
}

// A whole message.
pub fn complain(err: &impl Print, what: impl fmt::Display + Drop) {
    say(err, format_args!("scowdeck: {what}\n"));
}

// A message of the file at a path, which is octets and may be no text.
pub fn blame(err: &impl Print, before: &str, path: &[u8], why: io::Error) {
    say(err, format_args!("scowdeck: {before}"));
    let _ = err.write_all(path);
    say(err, format_args!(": {}\n", Reason(why)));
}
