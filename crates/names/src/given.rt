// A name given in words: `bidder 0 Alpha`, `product 2 ACE`, as a command and as a line of the file beside the box.
ghost use Rattle.std.specs.Prelude.{◌≤◌, length};

use crate::{BIDDERS, LONGEST, NAMES, PRODUCTS, Whose, found, give};
use asked::{One, one_number};
use text::{ANSWER, Cursor, control_at, word, wrong, wrong_number};

// The place after the last byte that is no space.
fn trimmed(line: &[u8]) -> usize
    ensures { result ≤ length line.now }
{
    line.iter().rposition(|b| 32 < *b).map_or(0, |k| k + 1)
}

// Whose name a line gives, the place of the number, and where the name stands; `said` is the length of the error where something is wrong,
// otherwise 0.
#[derive(Clone, Copy)]
pub struct Naming {
    pub said: usize,
    pub bidder: bool,
    pub number: u32,
    pub at: usize,
    pub from: usize,
    pub to: usize,
}

fn wrongly(said: usize) -> Naming {
    Naming {
        said,
        bidder: false,
        number: 0,
        at: 0,
        from: 0,
        to: 0,
    }
}

// What is wrong with a name that begins at a place, as the length of the error.
fn fit(name: &[u8], at: usize, out: &mut [u8; ANSWER]) -> Result<(), usize> {
    if LONGEST < name.len() {
        return Err(wrong_number(out, b"a name has at most ", LONGEST as u64, b" bytes", at));
    }
    // A bracket would end the name where it is shown.
    if name.iter().any(|b| (*b == b'(') | (*b == b')')) {
        return Err(wrong(out, b"a name has no brackets", at));
    }
    Ok(())
}

// `B NAME` or `P NAME`. The name is the rest of the line.
fn after_kind(
    line: &[u8],
    c: Cursor,
    bidder: bool,
    out: &mut [u8; ANSWER],
) -> Result<Naming, usize> {
    let at = word(line, c).from;
    let (number, next) = match one_number(line, c, out) {
        One::Number(n, next) => (n, next),
        One::Said(n) => return Err(n),
    };
    let from = word(line, next).from;
    let to = trimmed(line);
    if to <= from {
        return Err(wrong(out, b"a name is missing", line.len()));
    }
    let said = match fit(&line[from..to], from, out) {
        Ok(()) => 0,
        Err(said) => said,
    };
    Ok(Naming {
        said,
        bidder,
        number,
        at,
        from,
        to,
    })
}

// `bidder B NAME` or `product P NAME`.
pub fn asked_for(line: &[u8], c: Cursor, out: &mut [u8; ANSWER]) -> Naming {
    let span = word(line, c);
    let next = Cursor { at: span.to };
    let given = match &line[span.from..span.to] {
        b"bidder" => after_kind(line, next, true, out),
        b"product" => after_kind(line, next, false, out),
        _ => Err(wrong(out, b"name is for a bidder or a product", span.from)),
    };
    match given {
        Ok(naming) => naming,
        Err(said) => wrongly(said),
    }
}

// ---- The name given

fn take_name(
    names: &mut [u8; NAMES],
    bidders: usize,
    products: usize,
    name: &[u8],
    given: Naming,
    out: &mut [u8; ANSWER],
) -> usize {
    let n = given.number as usize;
    let (whose, count, numbers, one, other) = if given.bidder {
        let other = found(names, 0, BIDDERS, name);
        (
            Whose::Bidder(n),
            bidders,
            "bidders are 0 to ",
            "bidder ",
            other,
        )
    } else {
        let other = found(names, BIDDERS, PRODUCTS, name);
        (
            Whose::Product(n),
            products,
            "products are 0 to ",
            "product ",
            other,
        )
    };
    if count <= n {
        let last = (count as u64).wrapping_sub(1);
        return wrong_number(out, numbers.as_bytes(), last, b"", given.at);
    }
    match other {
        Some(k) if k != n => {
            wrong_number(out, one.as_bytes(), k as u64, b" has this name", given.from)
        }
        _ => {
            give(names, whose, name);
            0
        }
    }
}

// Gives a name that a line says, in an auction of so many bidders and products: 0, or the length of the error in the answer. `-` takes the
// name away.
pub fn take(
    line: &[u8],
    given: Naming,
    bidders: usize,
    products: usize,
    names: &mut [u8; NAMES],
    out: &mut [u8; ANSWER],
) -> usize {
    match line.get(given.from..given.to) {
        None => 0,
        Some([b'-']) => take_name(names, bidders, products, b"", given, out),
        Some(name) => take_name(names, bidders, products, name, given, out),
    }
}

// ---- The file beside the box

// Whether a line of the file gives a name, or is empty.
fn is_taken(
    line: &[u8],
    bidders: usize,
    products: usize,
    names: &mut [u8; NAMES],
    out: &mut [u8; ANSWER],
) -> bool {
    if trimmed(line) == 0 {
        return true;
    }
    if control_at(line) < line.len() {
        return false;
    }
    let name = asked_for(line, Cursor { at: 0 }, out);
    if name.said != 0 {
        return false;
    }
    take(line, name, bidders, products, names, out) == 0
}

// Gives every name that the file has: 0, or the number of the first line that gives none and is passed over.
pub fn take_file(
    bytes: &[u8],
    bidders: usize,
    products: usize,
    names: &mut [u8; NAMES],
    out: &mut [u8; ANSWER],
) -> u64 {
    let mut first = 0;
    for (i, line) in bytes.split(|b| *b == b'\n').enumerate() {
        if !is_taken(line, bidders, products, names, out) && first == 0 {
            first = (i as u64).wrapping_add(1);
        }
    }
    first
}
