// A box that is named, looked at before it is opened.
use crate::UNUSABLE;
use layout::STATE;
use std::rt::Files;
use store::{Loaded, put_reason};
use text::{ANSWER, put, send};

// What a file is that is none.
fn kind_of(mode: u32) -> &'static [u8] {
    match mode & look::KIND {
        look::FOLDER => b"it is a folder",
        look::PIPE => b"it is a pipe",
        look::SOCKET => b"it is a socket",
        _ => b"it is a device",
    }
}

// `error the box cannot be read: WHY`
pub fn say_unread(rt: &impl Print, out: &mut [u8; ANSWER], why: i32) -> u8 {
    let a = put(out, 0, b"error the box cannot be read: ");
    let b = put_reason(out, a, why);
    let n = put(out, b, b"\n");
    send(rt, out, n);
    UNUSABLE
}

pub fn say(rt: &impl Print, out: &mut [u8; ANSWER], words: &[u8]) {
    let n = put(out, 0, words);
    send(rt, out, n);
}

pub fn say_missing(rt: &impl Print, out: &mut [u8; ANSWER]) -> u8 {
    say(rt, out, b"error there is no such box\n");
    UNUSABLE
}

pub fn say_wrong(rt: &impl Print, out: &mut [u8; ANSWER]) -> u8 {
    say(
        rt,
        out,
        b"error the file has another length than a box: it is none\n",
    );
    UNUSABLE
}

// What is at a path: a state, nothing, or a file of another length.
#[derive(Clone, Copy)]
pub enum Found {
    State,
    Missing,
    Wrong,
}

// Where something is at the path that cannot be served, that is said, and the status is handed back. Nothing but a file is ever opened.
pub fn find<R: Files + Print>(
    rt: &R,
    path: &[u8],
    state: &mut [u8; STATE],
    out: &mut [u8; ANSWER],
) -> Result<Found, u8> {
    let seen = store::seen(rt, path);
    if seen.found && seen.mode & look::KIND != look::FILE {
        let a = put(out, 0, b"error the box cannot be read: ");
        let b = put(out, a, kind_of(seen.mode));
        let n = put(out, b, b"\n");
        send(rt, out, n);
        return Err(UNUSABLE);
    }
    match store::load(rt, path, state) {
        Loaded::Missing => Ok(Found::Missing),
        Loaded::Whole => Ok(Found::State),
        Loaded::Wrong => Ok(Found::Wrong),
        Loaded::Unread(why) => Err(say_unread(rt, out, why)),
    }
}
