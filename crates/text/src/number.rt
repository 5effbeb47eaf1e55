// A decimal number of 32 bits.
ghost use Rattle.std.specs.Prelude.{◌≡◌, ◌<◌};
ghost use Rattle.text.specs.Number.{digit_after, read_word, take_at};

use crate::{Cursor, word};

// What some digits make.
#[derive(Clone, Copy)]
pub enum Read {
    Value(u32),
    Large,
    Other,
}

// What is found at a cursor. The number where a word is wrong is its first place.
#[derive(Clone, Copy)]
pub enum Take {
    Number(u32, Cursor),
    TooLarge(usize),
    NotANumber(usize),
    End,
}

// One byte more.
#[tactic(auto, using(std::proofs::lemmas::Bool::Decides::nat_tests))]
pub fn digit_after(n: Read, b: u8) -> Read
    ensures { result ≡ digit_after n b }
{
    if b < 48 {
        return Read::Other;
    }
    if 57 < b {
        return Read::Other;
    }
    match n {
        Read::Value(v) => {
            let w = u64::from(v) * 10 + u64::from(b - 48);
            if w <= 4294967295 {
                Read::Value(w as u32)
            } else {
                Read::Large
            }
        }
        Read::Large => Read::Large,
        Read::Other => Read::Other,
    }
}

// The whole of a word as a number.
pub fn read_number(w: &[u8]) -> Read
    ensures { result ≡ read_word w.now }
{
    let mut n = Read::Value(0);
    for b in w {
        n = digit_after(n, *b);
    }
    n
}

// The next word as a number.
pub fn take_number(s: &[u8], c: Cursor) -> Take
    ensures { result ≡ take_at s.now c.at }
{
    let p = word(s, c);
    let a = p.from;
    let e = p.to;
    if a == e {
        return Take::End;
    }
    match read_number(&s[a..e]) {
        Read::Value(v) => Take::Number(v, Cursor { at: e }),
        Read::Large => Take::TooLarge(a),
        Read::Other => Take::NotANumber(a),
    }
}
