// Files read and written whole. Only the system knows what they hold: what is proved here is that nothing else is touched.
ghost use Rattle.std.specs.Prelude.{◌≡◌};
ghost use Rattle.store.specs.Store.{Kept, of_length};

use crate::names::folder_length;
use crate::reason::number_of;
use crate::system::open_read;
use layout::STATE;
use std::fs::OpenFile;
use std::io::{ErrorKind, Read, Write};
use std::rt::Files;
use text::{read_again, write_whole};

// A file longer than a state is seen to be.
const ROOM: usize = STATE + 1;

// What a file held.
#[derive(Clone, Copy)]
pub enum Loaded {
    // There is no such file: the state is as it was.
    Missing,
    // The state is the file's.
    Whole,
    // The file has another length: the state is as it was.
    Wrong,
    // The file cannot be opened or read, with the system's number for the reason: the state is as it was.
    Unread(i32),
}

#[derive(Clone, Copy)]
pub enum Filled {
    Bytes(usize),
    // With the system's number for the reason.
    Failed(i32),
}

// Reads to the end of the file, or until buf is full.
pub fn read_whole<F: Read>(file: &mut F, buf: &mut [u8]) -> Filled {
    let mut end = 0;
    while end < buf.len() {
        match read_again(file, &mut buf[end..]) {
            Ok(0) => return Filled::Bytes(end),
            Ok(n) => end += n,
            Err(e) => return Filled::Failed(number_of(&e)),
        }
    }
    Filled::Bytes(end)
}

// A file of so many bytes is a state's, or has another length.
#[tactic(auto, using(std::proofs::lemmas::Bool::Decides::nat_tests))]
fn taken(n: usize, room: &[u8; ROOM], state: &mut [u8; STATE]) -> Loaded
    ensures { (result ≡ of_length n) × Kept result state.old state.new }
{
    if n == STATE {
        state.copy_from_slice(&room[..STATE]);
        return Loaded::Whole;
    }
    Loaded::Wrong
}

// Opens the file, reads it and closes it.
pub fn filled_from(rt: &impl Files, path: &[u8], room: &mut [u8]) -> std::io::Result<Filled> {
    let mut file = open_read(rt, path)?;
    Ok(read_whole(&mut file, room))
}

// The room has one byte more than a state, so that a longer file is told from a whole one.
pub fn load(rt: &impl Files, path: &[u8], state: &mut [u8; STATE]) -> Loaded
    ensures { Kept result state.old state.new }
{
    let mut room = [0u8; ROOM];
    match filled_from(rt, path, &mut room) {
        Ok(Filled::Bytes(n)) => taken(n, &room, state),
        Ok(Filled::Failed(why)) => Loaded::Unread(why),
        Err(e) if e.kind() == ErrorKind::NotFound => Loaded::Missing,
        Err(e) => Loaded::Unread(number_of(&e)),
    }
}

pub fn equal(a: &[u8; STATE], b: &[u8; STATE]) -> bool {
    *a == *b
}

// Whether the file holds the state still. No file counts as a box that is issued, all zero.
pub fn same(rt: &impl Files, path: &[u8], state: &[u8; STATE]) -> bool {
    let mut held = [0u8; STATE];
    match load(rt, path, &mut held) {
        Loaded::Missing | Loaded::Whole => equal(&held, state),
        Loaded::Wrong | Loaded::Unread(_) => false,
    }
}

// Done, or the system's number for what failed.
pub fn status_of(done: std::io::Result<()>) -> Result<(), i32> {
    match done {
        Ok(()) => Ok(()),
        Err(e) => Err(number_of(&e)),
    }
}

fn written<F: Write + OpenFile>(file: &mut F, bytes: &[u8]) -> std::io::Result<()> {
    write_whole(file, bytes)?;
    file.sync_all()
}

// Writes the bytes to the open file and brings them to its device. Then the file is closed; what the system says of that alone is not told,
// since the bytes are there.
pub fn write_synced<F: Write + OpenFile + Drop>(file: F, bytes: &[u8]) -> Result<(), i32> {
    let mut to = file;
    status_of(written(&mut to, bytes))
}

fn sync_named(rt: &impl Files, folder: &[u8]) -> std::io::Result<()> {
    open_read(rt, folder)?.sync_all()
}

// Brings the names in the path's folder to its device.
pub fn sync_folder(rt: &impl Files, path: &[u8]) -> Result<(), i32> {
    let n = folder_length(path);
    if n == 0 {
        return status_of(sync_named(rt, b"."));
    }
    status_of(sync_named(rt, &path[..n]))
}
