// The bytes of a line that are read so far.
ghost use Rattle.std.specs.Prelude.{◌≡◌, ◌+◌, ◌<◌, ◌≤◌, length, take};
ghost use Rattle.text.specs.Lines.{line_end, between, joined_in, back, kept_of, kept_at};

use crate::lines::{join, line_end};

#[derive(Clone, Copy)]
pub struct Input {
    // How many bytes of the next line stand at the start of the buffer.
    pub end: usize,
    // Whether the line is too long, and they stand for what was read of it.
    pub skipping: bool,
    pub done: bool,
}

impl Input {
    pub fn begun() -> Input {
        Input {
            end: 0,
            skipping: false,
            done: false,
        }
    }

    pub fn ended() -> Input {
        Input {
            end: 0,
            skipping: false,
            done: true,
        }
    }
}

// The place of the next line end, or `full` where there is none.
pub fn next_end(buf: &[u8], start: usize, full: usize) -> usize
    requires { (start ≤ full) × (full ≤ length buf.now) }
    ensures { ((start ≤ result) × (result ≤ full)) × (result ≡ start + line_end (between buf.now start full)) }
{
    start + line_end(&buf[start..full])
}

// Makes spaces of each backslash and the line end right after it, from one place to another.
pub fn join_lines(buf: &mut [u8], from: usize, to: usize)
    requires { (from ≤ to) × (to ≤ length buf.old) }
    ensures { (length buf.new ≡ length buf.old) × (buf.new ≡ joined_in buf.old from to) }
{
    join(&mut buf[from..to]);
}

// The byte so many before a place, and 0 where there is none.
fn byte_back(buf: &[u8], full: usize, i: usize) -> u8
    requires { (0 < i) × (full ≤ length buf.now) }
    ensures { result ≡ back buf.now full i }
{
    if i <= full {
        return buf[full - i];
    }
    0
}

// How many bytes tell where a line ends that is too long, by its last two.
#[tactic(auto, using(std::proofs::lemmas::Bool::Decides::nat_tests))]
fn kept_count(second: u8, first: u8) -> usize
    ensures { result ≡ length (kept_of second first) }
{
    if first == b'\\' {
        return 2;
    }
    if (second == b'\\') & (first == b'\r') {
        return 3;
    }
    1
}

// A line that is too long goes on after the first `full` bytes: of these only what tells where it ends is kept.
pub fn skip_on(buf: &mut [u8], full: usize) -> Input
    requires { full ≤ length buf.old }
    ensures { 3 ≤ length buf.old → take result.end buf.new ≡ kept_at buf.old full }
{
    let first = byte_back(buf, full, 1);
    let second = byte_back(buf, full, 2);
    let end = kept_count(second, first);
    if 3 <= buf.len() {
        buf[0] = b'x';
        buf[1] = b'\\';
        buf[2] = b'\r';
    }
    Input {
        end,
        skipping: true,
        done: false,
    }
}

// What is left after the whole lines, moved to the start of the buffer. A line that is too long and has not ended yet goes on.
pub fn keep_rest(buf: &mut [u8], start: usize, full: usize, skipping: bool) -> Input
    requires { (start ≤ full) × (full ≤ length buf.old) }
{
    if start == 0 {
        if skipping {
            return skip_on(buf, full);
        }
    }
    buf.copy_within(start..full, 0);
    Input {
        end: full - start,
        skipping: false,
        done: false,
    }
}
