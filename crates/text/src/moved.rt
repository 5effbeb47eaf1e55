// Reading and writing: what a signal interrupts is tried again. A proved loop has to end, and nothing says that signals do: so each
// has so many turns as no run uses up.
ghost use Rattle.std.specs.Prelude.{◌≤◌, length};
ghost use Rattle.std.specs.Io.{ReadsAtMost};

use std::fs::OpenOptions;
use std::io::{Error, ErrorKind, Read, Write};
use std::rt::{Files, HostRuntime, Stderr};

// The way out for words beside the answers, which are bytes and need not be text.
pub trait Aside {
    fn stderr(&self) -> Stderr;
}

impl Aside for HostRuntime {
    fn stderr(&self) -> Stderr {
        HostRuntime::stderr(self)
    }
}

// Reads once: how many bytes, and none at the end.
pub fn read_again<R: Read>(from: &mut R, buf: &mut [u8]) -> std::io::Result<usize>
    ensures { ReadsAtMost result buf.new }
{
    for _ in 0..u64::MAX {
        match from.read(buf) {
            Err(e) if e.kind() == ErrorKind::Interrupted => {}
            got => return got,
        }
    }
    Err(Error::from(ErrorKind::Interrupted))
}

// Writes all of the bytes, or says why they were not taken.
pub fn write_whole<W: Write>(to: &mut W, bytes: &[u8]) -> std::io::Result<()> {
    let mut done = 0;
    for _ in 0..u64::MAX {
        if bytes.len() <= done {
            return Ok(());
        }
        match to.write(&bytes[done..]) {
            Ok(0) => return Err(Error::from(ErrorKind::WriteZero)),
            Ok(n) => done += n,
            Err(e) if e.kind() == ErrorKind::Interrupted => {}
            Err(e) => return Err(e),
        }
    }
    Err(Error::from(ErrorKind::Interrupted))
}

// A number in decimal; nobody is left to tell where it cannot be written.
pub fn write_number<W: Write>(to: &mut W, n: u64) {
    let mut digits = [0u8; 20];
    let k = io::decimal(n, &mut digits);
    let _ = write_whole(to, &digits[..k]);
}

// The descriptor that the launcher reads a status from. Of an open one std gives three alone, so this one is opened again by its name.
const STATUS: &str = "/proc/self/fd/3";

// The status goes to descriptor 3 where the launcher asks for it: a program ends with 0.
pub fn put_status(rt: &impl Files, status: u8) {
    if let Ok(mut to) = OpenOptions::new().write(true).open(rt, STATUS) {
        write_number(&mut to, u64::from(status));
    }
}
