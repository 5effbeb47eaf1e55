// Numbers of a command.
ghost use Rattle.std.specs.Prelude.{◌≡◌, ◌≤◌};
ghost use Rattle.rules.specs.Count.{list_of};
ghost use Rattle.asked.specs.Asked.{byte_of, pair_of, drawn_at};
ghost use Rattle.asked.specs.Typed.{limit_of, typed_after, typed_at};

use std::array;
use text::{ANSWER, Cursor, Take, take_number, word, wrong, wrong_number};

// As many as the array has places for.
pub fn limit(most: usize) -> u8
    ensures { (result ≡ limit_of most) × (result ≤ 40) }
{
    most.min(40) as u8
}

// Numbers up to the first word that is none, put after the `n` that are there; with those `most` of them at most. How many stand there
// then, and the place after them; or where one stands that is too large.
pub fn take_numbers(
    line: &[u8],
    c: Cursor,
    n: u8,
    most: usize,
    numbers: &mut [u32; 40],
) -> Result<(u8, Cursor), usize>
    ensures { (result ≡ (typed_after line.now c n most numbers.old).found) × (numbers.new ≡ (typed_after line.now c n most numbers.old).numbers) }
{
    let top = limit(most);
    let mut at = c;
    for k in n..top {
        match take_number(line, at) {
            Take::Number(v, next) => {
                numbers[k as usize] = v;
                at = next;
            }
            Take::TooLarge(p) => return Err(p),
            Take::NotANumber(p) => return Ok((k, Cursor { at: p })),
            Take::End => return Ok((k, at)),
        }
    }
    Ok((n.max(top), at))
}

pub fn too_large(at: usize, out: &mut [u8; ANSWER]) -> usize {
    wrong(out, b"a number above 4294967295", at)
}

// A number, and the place after it; or the length of the error that is in the answer.
#[derive(Clone, Copy)]
pub enum One {
    Number(u32, Cursor),
    Said(usize),
}

pub fn one_number(line: &[u8], c: Cursor, out: &mut [u8; ANSWER]) -> One {
    match take_number(line, c) {
        Take::Number(n, next) => One::Number(n, next),
        Take::TooLarge(p) => One::Said(too_large(p, out)),
        Take::NotANumber(p) => One::Said(wrong(out, b"not a number", p)),
        Take::End => One::Said(wrong(out, b"a number is missing", line.len())),
    }
}

// 0 where nothing is left of a line; otherwise the length of the error, which says `what` of it.
fn left(line: &[u8], c: Cursor, what: &[u8], out: &mut [u8; ANSWER]) -> usize {
    let w = word(line, c);
    if w.from == w.to {
        return 0;
    }
    wrong(out, what, w.from)
}

pub fn ends(line: &[u8], c: Cursor, out: &mut [u8; ANSWER]) -> usize {
    left(line, c, b"nothing more belongs here", out)
}

// How many were found; or the length of the error that is in the answer.
#[derive(Clone, Copy)]
pub enum Numbers {
    Found(usize),
    Said(usize),
}

pub fn unless(said: usize, n: usize) -> Numbers {
    if said == 0 {
        return Numbers::Found(n);
    }
    Numbers::Said(said)
}

// 0 where nothing is left of a line after n numbers, `most` of them at most; otherwise the length of the error.
pub fn rest(line: &[u8], c: Cursor, n: usize, most: usize, out: &mut [u8; ANSWER]) -> usize {
    if most <= n {
        return ends(line, c, out);
    }
    left(line, c, b"not a number", out)
}

// The numbers up to the end of a line, `most` of them at most.
pub fn all_numbers(
    line: &[u8],
    c: Cursor,
    most: usize,
    numbers: &mut [u32; 40],
    out: &mut [u8; ANSWER],
) -> Numbers
    ensures { numbers.new ≡ (typed_at line.now c most numbers.old).numbers }
{
    match take_numbers(line, c, 0, most, numbers) {
        Ok((found, next)) => {
            let n = found as usize;
            unless(rest(line, next, n, most, out), n)
        }
        Err(p) => Numbers::Said(too_large(p, out)),
    }
}

// Other than the `most` numbers that `products` products have, which `has` begins to say: at the first that is too many, or where
// one is missing.
pub fn other_count(
    line: &[u8],
    c: Cursor,
    most: usize,
    has: &[u8],
    products: usize,
    out: &mut [u8; ANSWER],
) -> usize {
    let mut numbers = [0u32; 40];
    let at = match take_numbers(line, c, 0, most, &mut numbers) {
        Ok((_, next)) => word(line, next).from,
        Err(p) => p,
    };
    wrong_number(out, has, products as u64, b" products", at)
}

// A number in the bits of a setting, a card's field or a draw. One that they do not hold becomes the largest that they hold,
// which is too large for the console too.
pub fn one_byte(n: u32) -> u8
    ensures { result ≡ byte_of n }
{
    u8::try_from(n).unwrap_or(u8::MAX)
}

pub fn two_bytes(n: u32) -> u16
    ensures { result ≡ pair_of n }
{
    u16::try_from(n).unwrap_or(u16::MAX)
}

// A draw order.
pub fn draw_of(numbers: [u32; 40]) -> [u8; 40]
    ensures { result ≡ list_of (drawn_at numbers) 40 }
{
    array::from_fn(|i| one_byte(numbers[i]))
}
