// Names of bidders and products, which stand beside their numbers in every answer. No call knows them.
#![tactic(auto)]

ghost use Rattle.std.specs.Prelude.{◌+◌, ◌≤◌, length};

mod given;

pub use given::{Naming, asked_for, take, take_file};
use text::{ANSWER, put, put_named};
use view::{BIDDER, PRODUCT};

// The longest name, in bytes.
pub const LONGEST: usize = 24;

// A place has the length of its name, and the name.
const PLACE: usize = 32;

const BIDDERS: usize = 32;

const PRODUCTS: usize = 8;

// The places of the bidders, then those of the products.
pub const NAMES: usize = (BIDDERS + PRODUCTS) * PLACE;

pub fn none() -> [u8; NAMES] {
    [0u8; NAMES]
}

// Whose name it is.
#[derive(Clone, Copy)]
pub enum Whose {
    Bidder(usize),
    Product(usize),
}

// Where the place begins; the first for a number that has none.
fn place_of(whose: Whose) -> usize
    ensures { result ≤ 1248 }
{
    match whose {
        Whose::Bidder(b) if b < BIDDERS => b * PLACE,
        Whose::Product(p) if p < PRODUCTS => (BIDDERS + p) * PLACE,
        _ => 0,
    }
}

// The name at a place, empty where there is none.
fn name_at(names: &[u8; NAMES], at: usize) -> &[u8]
    requires { at ≤ 1248 }
    ensures { length result.now ≤ 24 }
{
    let n = names[at] as usize;
    let end = if n <= LONGEST { at + 1 + n } else { at + 1 };
    &names[at + 1..end]
}

// How long a name is, 0 where there is none, and its bytes one by one.
pub fn length_of(names: &[u8; NAMES], whose: Whose) -> usize
    ensures { result ≤ 24 }
{
    name_at(names, place_of(whose)).len()
}

pub fn byte_of(names: &[u8; NAMES], whose: Whose, i: usize) -> u8 {
    if i < LONGEST {
        return names[place_of(whose) + 1 + i];
    }
    0
}

// ` (NAME)`, where there is one.
fn put_beside(out: &mut [u8; ANSWER], to: usize, names: &[u8; NAMES], whose: Whose) -> usize {
    let name = name_at(names, place_of(whose));
    if name.is_empty() {
        return to;
    }
    let a = put(out, to, b" (");
    let b = put(out, a, name);
    put(out, b, b")")
}

// ---- A name given

// Gives a name of at most LONGEST bytes; an empty one takes the name away.
pub fn give(names: &mut [u8; NAMES], whose: Whose, name: &[u8]) {
    let at = place_of(whose);
    let n = name.len().min(LONGEST);
    names[at] = if name.len() <= LONGEST { n as u8 } else { 0 };
    names[at + 1..at + 1 + n].copy_from_slice(&name[..n]);
    names[at + 1 + n..at + 1 + LONGEST].fill(0);
}

// Which of some places in a row has this name.
fn found(names: &[u8; NAMES], first: usize, count: usize, name: &[u8]) -> Option<usize>
    requires { first + count ≤ 40 }
{
    if name.is_empty() {
        return None;
    }
    (0..count).position(|i| name_at(names, (first + i) * PLACE) == name)
}

// The first bidder of that name, or BIDDERS where none has it.
pub fn bidder_of(names: &[u8; NAMES], name: &[u8]) -> usize {
    found(names, 0, BIDDERS, name).unwrap_or(BIDDERS)
}

pub fn product_of(names: &[u8; NAMES], name: &[u8]) -> usize {
    found(names, BIDDERS, PRODUCTS, name).unwrap_or(PRODUCTS)
}

// ---- Names beside the numbers of an answer

// Whether a byte says that the number of a bidder or a product follows.
fn is_mark(b: u8) -> bool {
    (b == BIDDER) | (b == PRODUCT)
}

fn value(digit: u8) -> usize
    ensures { result ≤ 15 }
{
    (digit % 16) as usize
}

// A number of one or two digits; one of more has no name.
fn number_in(digits: &[u8]) -> Option<usize> {
    match digits {
        [a] => Some(value(*a)),
        [a, b] => Some(value(*a) * 10 + value(*b)),
        _ => None,
    }
}

fn whose_of(mark: u8, digits: &[u8]) -> Option<Whose> {
    match number_in(digits)? {
        n if (mark == BIDDER) & (n < BIDDERS) => Some(Whose::Bidder(n)),
        n if (mark == PRODUCT) & (n < PRODUCTS) => Some(Whose::Product(n)),
        _ => None,
    }
}

fn digits_end(bytes: &[u8]) -> usize
    ensures { result ≤ length bytes.now }
{
    bytes
        .iter()
        .position(|b| !b.is_ascii_digit())
        .unwrap_or(bytes.len())
}

fn put_all(shown: &mut [u8; ANSWER], bytes: &[u8], names: &[u8; NAMES]) -> usize {
    let mut to = 0;
    let mut rest = bytes;
    while let Some(at) = rest.iter().position(|b| is_mark(*b)) {
        to = put(shown, to, &rest[..at]);
        let mark = rest[at];
        let after = &rest[at + 1..];
        let (digits, left) = after.split_at(digits_end(after));
        to = put(shown, to, digits);
        if let Some(whose) = whose_of(mark, digits) {
            to = put_beside(shown, to, names, whose);
        }
        rest = left;
    }
    put(shown, to, rest)
}

// The bytes of an answer from one place to another, with each name that is given beside its number: the length of that.
pub fn put_names(
    shown: &mut [u8; ANSWER],
    out: &[u8; ANSWER],
    start: usize,
    n: usize,
    names: &[u8; NAMES],
) -> usize {
    match out.get(start..n) {
        Some(bytes) => put_all(shown, bytes, names),
        None => 0,
    }
}

// ---- All names, a line each

// What a line of a name begins with.
fn put_kind(out: &mut [u8; ANSWER], to: usize, i: usize) -> usize {
    if i < BIDDERS {
        return put_named(out, to, b"bidder ", i as u64);
    }
    put_named(out, to, b"product ", (i - BIDDERS) as u64)
}

// A line for each name, with these words before its number, between number and name, and after the name.
fn put_lines(
    out: &mut [u8; ANSWER],
    start: usize,
    names: &[u8; NAMES],
    before: &[u8],
    between: &[u8],
    after: &[u8],
) -> usize {
    let mut to = start;
    for i in 0..BIDDERS + PRODUCTS {
        let name = name_at(names, i * PLACE);
        if !name.is_empty() {
            let a = put(out, to, before);
            let b = put_kind(out, a, i);
            let c = put(out, b, between);
            let d = put(out, c, name);
            to = put(out, d, after);
        }
    }
    to
}

// `bidder 0 Alpha`: the lines of the file beside the box.
pub fn put_file(out: &mut [u8; ANSWER], names: &[u8; NAMES]) -> usize {
    put_lines(out, 0, names, b"", b" ", b"\n")
}

pub fn count(names: &[u8; NAMES]) -> u64 {
    (0..BIDDERS + PRODUCTS)
        .filter(|i| !name_at(names, *i * PLACE).is_empty())
        .count() as u64
}

// `ok N`, and each name beside its number.
pub fn show(out: &mut [u8; ANSWER], names: &[u8; NAMES]) -> usize {
    let a = put_named(out, 0, b"ok ", count(names));
    let b = put(out, a, b"\n");
    put_lines(out, b, names, b"  ", b" (", b")\n")
}
