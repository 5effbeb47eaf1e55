// What the system says of a file.
#![tactic(auto)]

use std::fs;
use std::os::unix::fs::MetadataExt;
use std::rt::Files;

// The part of a mode that says what kind a file is of, and the kinds that it can say.
pub const KIND: u32 = 0o170000;

pub const FILE: u32 = 0o100000;

pub const FOLDER: u32 = 0o040000;

pub const PIPE: u32 = 0o010000;

pub const SOCKET: u32 = 0o140000;

// found: whether the system knows it. Where it does not, the numbers say nothing.
#[derive(Clone, Copy)]
pub struct Seen {
    pub found: bool,
    pub mode: u32,
    pub owner: u32,
    pub group: u32,
}

pub fn unseen() -> Seen {
    Seen {
        found: false,
        mode: 0,
        owner: 0,
        group: 0,
    }
}

pub fn seen_of(rt: &impl Files, path: &str) -> Seen {
    match fs::metadata(rt, path) {
        Ok(told) => Seen {
            found: true,
            mode: told.mode(),
            owner: told.uid(),
            group: told.gid(),
        },
        Err(_) => unseen(),
    }
}
