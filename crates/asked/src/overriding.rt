// `calculate D0 D1 .. override PRODUCT POINTS .. order P0 P1 ..`
ghost use Rattle.std.specs.Prelude.{◌≡◌, replicate};
ghost use Rattle.rules.specs.Round.{not_chosen};
ghost use Rattle.asked.specs.Typed.{typed_at};
ghost use Rattle.asked.specs.Overrides.{points_at, overrides_from};

use crate::numbers::{Numbers, all_numbers, rest, take_numbers, too_large, two_bytes, unless};
use check::same;
use rules::BasisPoints;
use text::{ANSWER, Cursor, Take, take_number, word, wrong};

// What stands where a decrement belongs.
#[derive(Clone, Copy)]
pub enum Points {
    Given(u16, Cursor),
    NotANumber(usize),
    End,
}

// A decrement of any number of digits; one that 16 bits do not hold becomes the largest that they hold, as two_bytes has it.
fn take_points(line: &[u8], c: Cursor) -> Points
    ensures { result ≡ points_at line.now c }
{
    match take_number(line, c) {
        Take::Number(n, next) => Points::Given(two_bytes(n), next),
        Take::TooLarge(_) => {
            let w = word(line, c);
            Points::Given(65535, Cursor { at: w.to })
        }
        Take::NotANumber(p) => Points::NotANumber(p),
        Take::End => Points::End,
    }
}

fn missing(at: usize, out: &mut [u8; ANSWER]) -> usize {
    wrong(
        out,
        b"an override is a product and its basis points; a number is missing",
        at,
    )
}

fn no_product(at: usize, out: &mut [u8; ANSWER]) -> usize {
    wrong(out, b"products are numbered 0 to 7", at)
}

// The draw's length, the overrides and the length of the order, 0 where none is given, and 0 where all is well; otherwise the length of the
// error that is in the answer.
#[derive(Clone, Copy)]
pub struct Drawn {
    pub said: usize,
    pub count: usize,
    pub overrides: [Option<BasisPoints>; 8],
    pub ordered: usize,
}

fn none_chosen() -> [Option<BasisPoints>; 8]
    ensures { result ≡ replicate 8 not_chosen }
{
    [None; 8]
}

// ---- The order of the products

// The next word begins an order.
fn is_order(line: &[u8], c: Cursor) -> bool {
    let w = word(line, c);
    same(&line[w.from..w.to], b"order")
}

// The products up to the end of a line, one at least, as a draw's bidders are taken; the word before them stands at `key`.
fn order(
    line: &[u8],
    c: Cursor,
    key: usize,
    products: &mut [u32; 40],
    out: &mut [u8; ANSWER],
) -> Numbers
    ensures { products.new ≡ (typed_at line.now c 40 products.old).numbers }
{
    match all_numbers(line, c, 40, products, out) {
        Numbers::Found(0) => Numbers::Said(wrong(
            out,
            b"an order has every product once; a number is missing",
            key,
        )),
        numbers => numbers,
    }
}

// What stands after a draw of so many numbers and its overrides: nothing, or an order.
fn at_end(
    line: &[u8],
    c: Cursor,
    count: usize,
    products: &mut [u32; 40],
    out: &mut [u8; ANSWER],
) -> Numbers {
    if is_order(line, c) {
        let w = word(line, c);
        return order(line, Cursor { at: w.to }, w.from, products, out);
    }
    unless(rest(line, c, count, 40, out), 0)
}

// All of a line, where what comes before its end is not wrong already.
fn ended(
    line: &[u8],
    c: Cursor,
    said: usize,
    count: usize,
    overrides: [Option<BasisPoints>; 8],
    products: &mut [u32; 40],
    out: &mut [u8; ANSWER],
) -> Drawn
    ensures { result.overrides ≡ overrides }
{
    let end = if said == 0 {
        at_end(line, c, count, products, out)
    } else {
        Numbers::Said(said)
    };
    let (said, ordered) = match end {
        Numbers::Found(ordered) => (0, ordered),
        Numbers::Said(said) => (said, 0),
    };
    Drawn {
        said,
        count,
        overrides,
        ordered,
    }
}

// ---- The overrides

// Another word than a number, after the override at `at`: where it begins an order, a number is missing before it.
fn no_number(line: &[u8], q: usize, at: usize, out: &mut [u8; ANSWER]) -> usize {
    if is_order(line, Cursor { at: q }) {
        return missing(at, out);
    }
    wrong(out, b"not a number", q)
}

// The same where n pairs are whole: after one of them an order may begin.
fn no_pair(line: &[u8], q: usize, n: usize, key: usize, out: &mut [u8; ANSWER]) -> usize {
    if (0 < n) & is_order(line, Cursor { at: q }) {
        return 0;
    }
    no_number(line, q, key, out)
}

// The overrides and the place after them, and 0 where they were given; otherwise the length of the error.
#[derive(Clone, Copy)]
pub struct Pairs {
    said: usize,
    overrides: [Option<BasisPoints>; 8],
    next: Cursor,
}

// The pairs up to an order or the end of a line, one at least; the word before them stands at `key`. The first word that is wrong is said.
// A ninth pair has the product of another.
fn overrides(line: &[u8], c: Cursor, key: usize, out: &mut [u8; ANSWER]) -> Pairs
    ensures { result.overrides ≡ overrides_from line.now c 9 (replicate 8 not_chosen) }
{
    let mut overrides = none_chosen();
    let mut said: usize = 0;
    let mut at = c;
    for n in 0..9 {
        match take_number(line, at) {
            Take::Number(p, next) => {
                let first = word(line, at).from;
                if 7 < p {
                    said = no_product(first, out);
                    break;
                }
                let k = p as usize;
                let earlier = overrides[k];
                if earlier.is_some() {
                    said = wrong(out, b"a product has one override", first);
                    break;
                }
                match take_points(line, next) {
                    Points::Given(points, after) => {
                        overrides[k] = Some(BasisPoints(points));
                        at = after;
                    }
                    Points::NotANumber(q) => {
                        said = no_number(line, q, first, out);
                        break;
                    }
                    Points::End => {
                        said = missing(first, out);
                        break;
                    }
                }
            }
            Take::TooLarge(q) => {
                said = no_product(q, out);
                break;
            }
            Take::NotANumber(q) => {
                said = no_pair(line, q, n, key, out);
                break;
            }
            Take::End => {
                if n == 0 {
                    said = missing(key, out);
                }
                break;
            }
        }
    }
    Pairs {
        said,
        overrides,
        next: at,
    }
}

// The overrides after a draw of so many numbers, and what stands after them.
fn overridden(
    line: &[u8],
    c: Cursor,
    key: usize,
    count: usize,
    products: &mut [u32; 40],
    out: &mut [u8; ANSWER],
) -> Drawn
    ensures { result.overrides ≡ overrides_from line.now c 9 (replicate 8 not_chosen) }
{
    let pairs = overrides(line, c, key, out);
    let overrides = pairs.overrides;
    let next = pairs.next;
    ended(line, next, pairs.said, count, overrides, products, out)
}

// What stands after a draw of so many numbers: overrides, or none of them.
fn after_draw(
    line: &[u8],
    c: Cursor,
    count: usize,
    products: &mut [u32; 40],
    out: &mut [u8; ANSWER],
) -> Drawn {
    let w = word(line, c);
    if same(&line[w.from..w.to], b"override") {
        return overridden(line, Cursor { at: w.to }, w.from, count, products, out);
    }
    ended(line, c, 0, count, none_chosen(), products, out)
}

// A draw, 40 numbers at most, and after it the overrides and the order of the products.
pub fn draw(
    line: &[u8],
    c: Cursor,
    numbers: &mut [u32; 40],
    products: &mut [u32; 40],
    out: &mut [u8; ANSWER],
) -> Drawn
    ensures { numbers.new ≡ (typed_at line.now c 40 numbers.old).numbers }
{
    match take_numbers(line, c, 0, 40, numbers) {
        Ok((n, next)) => after_draw(line, next, n as usize, products, out),
        Err(p) => Drawn {
            said: too_large(p, out),
            count: 0,
            overrides: none_chosen(),
            ordered: 0,
        },
    }
}
