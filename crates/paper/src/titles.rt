// A bidder's or a product's number with its name, as the page has it.
use crate::form::escape;
use names::{NAMES, Whose};
use std::rt::Files;
use store::Filled;
use text::{ANSWER, put, put_named};

// The names beside a box; where there is no such file nobody has one.
pub fn read_names(rt: &impl Files, path: &[u8], names: &mut [u8; NAMES]) {
    let mut room = io::large_buffer();
    let mut told = io::large_buffer();
    if let Filled::Bytes(n) = store::load_names(rt, path, &mut room) {
        if let Some(bytes) = room.get(..n) {
            names::take_file(bytes, 32, 8, names, &mut told);
        }
    }
}

// ` NAME`, where there is one.
fn put_title(out: &mut [u8; ANSWER], at: usize, names: &[u8; NAMES], whose: Whose) -> usize {
    let n = names::length_of(names, whose);
    if n == 0 {
        return at;
    }
    let mut to = put(out, at, b" ");
    for i in 0..n {
        to = escape(out, to, names::byte_of(names, whose, i));
    }
    to
}

// `0 Alpha`
pub fn put_bidder(out: &mut [u8; ANSWER], at: usize, names: &[u8; NAMES], b: usize) -> usize {
    let to = put_named(out, at, b"", b as u64);
    put_title(out, to, names, Whose::Bidder(b))
}

pub fn put_product(out: &mut [u8; ANSWER], at: usize, names: &[u8; NAMES], p: usize) -> usize {
    let to = put_named(out, at, b"", p as u64);
    put_title(out, to, names, Whose::Product(p))
}
