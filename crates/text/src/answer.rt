// Answers: an answer is gathered whole in a lent array and written at its end. What does not fit is left out whole, so nothing that
// is called from outside has a `requires`.
ghost use Rattle.std.specs.Prelude.{◌≡◌, ◌+◌, ◌≤◌, length};
ghost use Rattle.std.proofs.Math.Seq.{paste};
ghost use Rattle.text.specs.Put.{put_at};

use crate::moved::{Aside, write_whole};

// More than any answer has.
pub const ANSWER: usize = 65536;

// Copies all of src into dst from index at on, and gives the index after it.
fn copy_in(src: &[u8], dst: &mut [u8], at: usize) -> usize
    requires { at + length src.now ≤ length dst.old }
    ensures { (result ≡ at + length src.now) × (dst.new ≡ paste dst.old at src.now (length src.now)) }
{
    let to = at + src.len();
    dst[at..to].copy_from_slice(src);
    to
}

// Puts a text at a place, and gives the place after it; where there is no room, the place.
#[tactic(auto, using(std::proofs::lemmas::Bool::Decides::nat_tests))]
pub fn put(out: &mut [u8; ANSWER], at: usize, w: &[u8]) -> usize
    ensures { (result ≡ (put_at out.old at w.now).next) × (out.new ≡ (put_at out.old at w.now).bytes) }
{
    if ANSWER < at {
        return at;
    }
    if ANSWER - at < w.len() {
        return at;
    }
    copy_in(w, out, at)
}

// A text, and a number in decimal after it.
pub fn put_named(out: &mut [u8; ANSWER], at: usize, what: &[u8], n: u64) -> usize {
    let a = put(out, at, what);
    let mut digits = [0u8; 20];
    let k = io::decimal(n, &mut digits);
    put(out, a, &digits[..k])
}

// Bytes as two hexadecimal digits each, in lower case.
pub fn put_hex(out: &mut [u8; ANSWER], at: usize, bytes: &[u8]) -> usize {
    let mut to = at;
    for byte in bytes {
        let mut digits = [0u8; 16];
        let k = io::hex(u64::from(*byte), 2, &mut digits);
        to = put(out, to, &digits[..k]);
    }
    to
}

// Writes the first n bytes that were gathered: whether all were taken.
pub fn send(rt: &impl Print, out: &[u8; ANSWER], n: usize) -> bool {
    match out.get(..n) {
        Some(part) => write_whole(&mut std::io::writer(rt), part).is_ok(),
        None => false,
    }
}

// A line for the person at the desk, beside the answers; nobody is left to tell where it cannot be written.
pub fn warn(rt: &impl Aside, w: &[u8]) {
    let _ = write_whole(&mut rt.stderr(), w);
}

// `, column N`, and the line's end. Columns are counted from 1.
fn put_column(out: &mut [u8; ANSWER], to: usize, at: usize) -> usize {
    let a = put_named(out, to, b", column ", (at as u64).wrapping_add(1));
    put(out, a, b"\n")
}

// The answer to a line that is no command: what is wrong with it, and in which column.
pub fn wrong(out: &mut [u8; ANSWER], what: &[u8], at: usize) -> usize {
    let a = put(out, 0, b"error ");
    let b = put(out, a, what);
    put_column(out, b, at)
}

// The same, with a number in what is wrong.
pub fn wrong_number(
    out: &mut [u8; ANSWER],
    before: &[u8],
    n: u64,
    after: &[u8],
    at: usize,
) -> usize {
    let a = put(out, 0, b"error ");
    let b = put_named(out, a, before, n);
    let c = put(out, b, after);
    put_column(out, c, at)
}
