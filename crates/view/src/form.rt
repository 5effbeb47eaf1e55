// Lines by their form, which stands whole in the code.
use text::{ANSWER, put, put_named};

// A number of a bidder or a product has its name after it where one is given. The name is put where the answer is written; here one byte
// before the number says whose it is. No text has these bytes.
pub const BIDDER: u8 = 1;

pub const PRODUCT: u8 = 2;

// Where the next number goes: a number, a bidder's, a product's.
fn is_mark(b: u8) -> bool {
    matches!(b, b'#' | b'&' | b'%')
}

// A number after the byte that its mark stands for.
fn put_marked(out: &mut [u8; ANSWER], at: usize, mark: u8, n: u64) -> usize {
    match mark {
        b'&' => put_named(out, at, &[BIDDER], n),
        b'%' => put_named(out, at, &[PRODUCT], n),
        _ => put_named(out, at, b"", n),
    }
}

// Puts a form, with the next number in decimal in place of each `#`, a bidder's in place of `&`, a product's in place of `%`.
pub fn put_form(out: &mut [u8; ANSWER], at: usize, form: &[u8], numbers: &[u64]) -> usize {
    let mut to = at;
    let mut rest = form;
    for n in numbers {
        let Some(k) = rest.iter().position(|b| is_mark(*b)) else {
            break;
        };
        let a = put(out, to, &rest[..k]);
        to = put_marked(out, a, rest[k], *n);
        rest = &rest[k + 1..];
    }
    put(out, to, rest)
}

// Puts line n of a text, counted from 0, without its end; 0 where there is none.
pub fn put_line(out: &mut [u8; ANSWER], lines: &[u8], n: usize) -> usize {
    match lines.split(|b| *b == b'\n').nth(n) {
        Some(line) => put(out, 0, line),
        None => 0,
    }
}
