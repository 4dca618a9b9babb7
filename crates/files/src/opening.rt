// Files by their path. A path is octets here, and std takes those that are UTF-8.
use std::fs::OpenOptions;
use std::io::ErrorKind;
use std::rt::Files;
use std::{fs, io};

fn as_text(path: &[u8]) -> io::Result<&str> {
    str::from_utf8(path).map_err(|_| io::Error::from(ErrorKind::InvalidFilename))
}

// For reading.
pub fn open<R: Files>(rt: &R, path: &[u8]) -> io::Result<R::File> {
    fs::open(rt, as_text(path)?)
}

// For writing, where nothing stood before.
pub fn make_new<R: Files>(rt: &R, path: &[u8]) -> io::Result<R::File> {
    let text = as_text(path)?;
    OpenOptions::new()
        .write(true)
        .create_new(true)
        .open(rt, text)
}

pub fn remove(rt: &impl Files, path: &[u8]) -> io::Result<()> {
    fs::remove_file(rt, as_text(path)?)
}
