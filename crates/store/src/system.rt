// The system's calls on files, each by the bytes of a path. std's paths are text: one that is not UTF-8 gets the number that a file system
// gives that takes no such name.
use crate::reason::EILSEQ;
use std::fs;
use std::fs::OpenOptions;
use std::io::{Error, Seek, SeekFrom};
use std::rt::{Files, HostRuntime, Process};

// The process has a number, which no other has at the same time.
pub trait Numbered {
    fn process(&self) -> Process;
}

impl Numbered for HostRuntime {
    fn process(&self) -> Process {
        HostRuntime::process(self)
    }
}

pub fn named(path: &[u8]) -> std::io::Result<&str> {
    match std::str::from_utf8(path) {
        Ok(name) => Ok(name),
        Err(_) => Err(Error::from_raw_os_error(EILSEQ)),
    }
}

pub fn open_read<R: Files>(rt: &R, path: &[u8]) -> std::io::Result<R::File> {
    let name = named(path)?;
    OpenOptions::new().read(true).open(rt, name)
}

// For reading and writing; the bytes stay.
pub fn open_update<R: Files>(rt: &R, path: &[u8]) -> std::io::Result<R::File> {
    let name = named(path)?;
    OpenOptions::new().read(true).write(true).open(rt, name)
}

// A new file, for writing: no other may have the name.
pub fn create<R: Files>(rt: &R, path: &[u8]) -> std::io::Result<R::File> {
    let name = named(path)?;
    OpenOptions::new()
        .write(true)
        .create_new(true)
        .open(rt, name)
}

pub fn rename(rt: &impl Files, from: &[u8], to: &[u8]) -> std::io::Result<()> {
    let old = named(from)?;
    let new = named(to)?;
    fs::rename(rt, old, new)
}

pub fn unlink(rt: &impl Files, path: &[u8]) -> std::io::Result<()> {
    let name = named(path)?;
    fs::remove_file(rt, name)
}

// Goes to a place of a file: the place, or -1.
pub fn go<F: Seek>(file: &mut F, to: SeekFrom) -> i64 {
    match file.seek(to) {
        Ok(at) => at.cast_signed(),
        Err(_) => -1,
    }
}
