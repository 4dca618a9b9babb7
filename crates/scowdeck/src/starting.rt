// From the words of the command line to an open recording and eight files.
use crate::recording::Run;
use crate::summary::summary;
use crate::words::{parsed_at, word_at, yes_or_no};
use desk::spelt;
use files::{Out, PATH_MAX, make_all, open};
use frame::SetUp;
use lines::{Reason, blame, complain};
use std::env::FillError;
use std::{fmt, io};

// What is wrong with the words of the command line.
#[derive(Clone, Copy)]
enum WordsError {
    Length,
    Spacecraft,
    Check,
    SetUp,
    // FILE or OUT is none that a path has room for.
    Path(&'static str, FillError),
    OutEmpty,
    OutTooLong,
}

impl fmt::Display for WordsError {
    fn fmt<W: fmt::Write>(&self, f: &mut fmt::Formatter<W>) -> fmt::Result {
        match self {
            WordsError::Length => f.write_str("LENGTH is a number, 13 to 2048"),
            WordsError::Spacecraft => f.write_str("SPACECRAFT is a number, 0 to 1023"),
            WordsError::Check => f.write_str("CHECK is yes or no"),
            WordsError::SetUp => f.write_str(
                "refused=1: LENGTH is not 13 to 2048, or SPACECRAFT is above 1023",
            ),
            WordsError::Path(name, why) => write!(f, "{name}: {}", Reason(path_error(*why))),
            WordsError::OutEmpty => f.write_str("OUT is empty"),
            WordsError::OutTooLong => f.write_str("OUT is too long"),
        }
    }
}

// What the system calls a word that is too long for a path, and one that is missing.
const ENAMETOOLONG: i32 = 36;

const EINVAL: i32 = 22;

fn path_error(why: FillError) -> io::Error {
    io::Error::from_raw_os_error(match why {
        FillError::TooLong => ENAMETOOLONG,
        FillError::NotPresent => EINVAL,
    })
}

// Why no frame is read: the words, or the recording that FILE names, whose path may be no text.
#[derive(Clone, Copy)]
enum StartError<'a> {
    Words(WordsError),
    Open(&'a [u8], io::Error),
}

impl From<WordsError> for StartError<'_> {
    fn from(why: WordsError) -> Self {
        StartError::Words(why)
    }
}

// The set-up that the words LENGTH, SPACECRAFT and CHECK give. A spacecraft number that is too large for a u32 stays too large.
fn set_up(rt: &HostRuntime) -> Result<SetUp, WordsError> {
    // A closure and not `spelt` itself, which stands in a private module of its crate.
    let length = parsed_at(rt, 2, |word| spelt(word)).ok_or(WordsError::Length)?;
    let spacecraft = parsed_at(rt, 3, |word| spelt(word)).ok_or(WordsError::Spacecraft)?;
    let error_control = parsed_at(rt, 4, yes_or_no).ok_or(WordsError::Check)?;
    let set = SetUp {
        length,
        spacecraft: u32::try_from(spacecraft).unwrap_or(u32::MAX),
        error_control,
    };
    if set.fits() {
        Ok(set)
    } else {
        Err(WordsError::SetUp)
    }
}

fn out(rt: &HostRuntime) -> Result<Out, WordsError> {
    let mut room = [0u8; PATH_MAX];
    let word = word_at(rt, 5, &mut room).map_err(|why| WordsError::Path("OUT", why))?;
    if word.is_empty() {
        return Err(WordsError::OutEmpty);
    }
    Out::of(word).ok_or(WordsError::OutTooLong)
}

// Reads the recording, with the room for its path.
fn run<'a>(rt: &HostRuntime, room: &'a mut [u8; PATH_MAX]) -> Result<(), StartError<'a>> {
    let set = set_up(rt)?;
    let path = word_at(rt, 1, room).map_err(|why| WordsError::Path("FILE", why))?;
    let mut file = open(rt, path).map_err(|why| StartError::Open(path, why))?;
    let out = out(rt)?;
    if let Some(files) = make_all(rt, &rt.stderr(), &out) {
        let mut run = Run::new(set, files);
        run.read_all(rt, &mut file, path);
        summary(rt, &run, &out);
    }
    Ok(())
}

pub fn start(rt: &HostRuntime) {
    let mut room = [0u8; PATH_MAX];
    match run(rt, &mut room) {
        Ok(()) => {}
        Err(StartError::Words(why)) => complain(&rt.stderr(), why),
        Err(StartError::Open(path, why)) => blame(&rt.stderr(), "cannot open ", path, why),
    }
}
