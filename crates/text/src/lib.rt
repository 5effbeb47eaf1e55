// The desk's text. A line that is typed is read by words: a byte up to 32 is a space, any other byte is part of a word.
#![tactic(auto)]

mod answer;
mod hex;
mod input;
mod lines;
mod moved;
mod number;

ghost use Rattle.std.specs.Prelude.{◌≡◌, ◌-◌, ◌≤◌, length};
ghost use Rattle.text.specs.Words.{goes_on, run_end, span_at};

pub use answer::{ANSWER, put, put_hex, put_named, send, warn, wrong, wrong_number};
pub use hex::{Hex, take_hex};
pub use input::{Input, join_lines, keep_rest, next_end, skip_on};
pub use lines::control_at;
pub use moved::{Aside, put_status, read_again, write_number, write_whole};
pub use number::{Read, Take, read_number, take_number};

// A place in a line.
#[derive(Clone, Copy)]
pub struct Cursor {
    pub at: usize,
}

// A word: its first place, and the one past its last. Both are the line's length where there is none.
#[derive(Clone, Copy)]
pub struct Span {
    pub from: usize,
    pub to: usize,
}

// What a run is of.
#[derive(Clone, Copy)]
pub enum Run {
    Spaces,
    Letters,
    Digits,
}

// Whether a byte belongs to a run. Digits are hexadecimal.
pub fn goes_on(b: u8, run: Run) -> bool
    ensures { result ≡ goes_on b run }
{
    match run {
        Run::Spaces => b <= 32,
        Run::Letters => 32 < b,
        Run::Digits => hex::nibble(b) < 16,
    }
}

// The first place from `at` on at which the run stops, or the line's length.
pub fn run_end(s: &[u8], run: Run, at: usize) -> usize
    requires { at ≤ length s.now }
    ensures { (result ≡ run_end s.now run at (length s.now - at)) × ((at ≤ result) × (result ≤ length s.now)) }
{
    for i in at..s.len() {
        if !goes_on(s[i], run) {
            return i;
        }
    }
    s.len()
}

// The next word from a cursor on; one past the end of the line counts as its end.
pub fn word(s: &[u8], c: Cursor) -> Span
    ensures { (result ≡ span_at s.now c.at) × ((result.from ≤ result.to) × (result.to ≤ length s.now)) }
{
    let at = c.at;
    if s.len() < at {
        return Span {
            from: s.len(),
            to: s.len(),
        };
    }
    let a = run_end(s, Run::Spaces, at);
    let e = run_end(s, Run::Letters, a);
    Span { from: a, to: e }
}
