// The system's number for a reason, in words where it is a common one.
use std::io::Error;
use text::{ANSWER, put, put_named};

// Linux's numbers: std's kinds of errors tell some of them not apart.
const ENOENT: i32 = 2;

const EIO: i32 = 5;

const EACCES: i32 = 13;

pub const EEXIST: i32 = 17;

const ENOTDIR: i32 = 20;

const EISDIR: i32 = 21;

pub const EINVAL: i32 = 22;

const EFBIG: i32 = 27;

const ENOSPC: i32 = 28;

const EROFS: i32 = 30;

pub const ENAMETOOLONG: i32 = 36;

pub const EILSEQ: i32 = 84;

// The system's number for an error. Of the others that std makes none comes of a call that the system took.
pub fn number_of(e: &Error) -> i32 {
    e.raw_os_error().unwrap_or(EINVAL)
}

pub fn number(why: i32) -> u64 {
    u64::try_from(why).unwrap_or(0)
}

pub fn put_reason(out: &mut [u8; ANSWER], at: usize, why: i32) -> usize {
    match why {
        EACCES => put(out, at, b"no permission"),
        ENOENT => put(out, at, b"its folder is missing"),
        EISDIR => put(out, at, b"it is a folder"),
        ENOTDIR => put(out, at, b"a part of its name is no folder"),
        ENAMETOOLONG => put(out, at, b"its name is too long"),
        // The reasons that a disk gives.
        ENOSPC => put(out, at, b"the disk is full"),
        EFBIG => put(out, at, b"the file would be larger than the system allows"),
        EROFS => put(out, at, b"the disk is read-only"),
        EIO => put(out, at, b"the device fails"),
        EILSEQ => put(out, at, b"its name is not UTF-8"),
        _ => put_named(out, at, b"error number ", number(why)),
    }
}
