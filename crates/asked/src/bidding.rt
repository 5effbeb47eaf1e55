// The words of a bid, and a card's bytes.
ghost use Rattle.std.specs.Prelude.{◌≡◌, ◌≤◌};
ghost use Rattle.asked.specs.Groups.{number_at, first_lot, exit_after, lots_at, leaving_at, group_at, most_of, groups_at};

use crate::lots::{Fault, Wrong, lots_in};
use crate::numbers::{Numbers, ends, one_byte, too_large, two_bytes, unless};
use rules::{Line, Lot, Lots, Tranches};
use text::{ANSWER, Cursor, Hex, Take, take_hex, take_number, word, wrong, wrong_number};

// ---- The words of one product

// A number, and the place after it.
fn number_at(line: &[u8], c: Cursor) -> Result<(u32, Cursor), Wrong>
    ensures { result ≡ number_at line.now c }
{
    match take_number(line, c) {
        Take::Number(n, next) => Ok((n, next)),
        Take::TooLarge(p) => Err(Wrong(Fault::Large, p)),
        Take::NotANumber(p) => Err(Wrong(Fault::NotANumber, p)),
        Take::End => Err(Wrong(Fault::Short, line.len())),
    }
}

fn first_lot(n: u32, exit: u32) -> Lots
    ensures { result ≡ first_lot n exit }
{
    Lots {
        one: Lot {
            count: Tranches(two_bytes(n)),
            exit,
        },
        two: Lot::none(),
        three: Lot::none(),
        four: Lot::none(),
    }
}

// The exit price of one lot of n.
fn exit_after(line: &[u8], c: Cursor, n: u32) -> Result<(Lots, Cursor), Wrong>
    ensures { result ≡ exit_after line.now c n }
{
    let (exit, next) = number_at(line, c)?;
    Ok((first_lot(n, exit), next))
}

fn lots_at(line: &[u8], c: Cursor) -> Result<(Lots, Cursor), Wrong>
    ensures { result ≡ lots_at line.now c }
{
    let w = word(line, c);
    let l = lots_in(line, w.from, w.to)?;
    Ok((l, Cursor { at: w.to }))
}

// What is withdrawn, and the place after it. LOTS, or W X: a number where lots belong is the count of one lot, and its exit price stands
// after it.
fn leaving_at(line: &[u8], c: Cursor) -> Result<(Lots, Cursor), Wrong>
    ensures { result ≡ leaving_at line.now c }
{
    match take_number(line, c) {
        Take::Number(n, next) => exit_after(line, next, n),
        Take::TooLarge(p) => Err(Wrong(Fault::Large, p)),
        Take::NotANumber(_) => lots_at(line, c),
        Take::End => Err(Wrong(Fault::Short, line.len())),
    }
}

// A product's line, and the place after its words. T LOTS P, or T W X P: tranches, what is withdrawn, priority.
fn group_at(line: &[u8], c: Cursor) -> Result<(Line, Cursor), Wrong>
    ensures { result ≡ group_at line.now c }
{
    let (t, second) = number_at(line, c)?;
    let (withdrawn, third) = leaving_at(line, second)?;
    let (k, next) = number_at(line, third)?;
    let l = Line {
        tranches: Tranches(two_bytes(t)),
        withdrawn,
        priority: one_byte(k),
    };
    Ok((l, next))
}

// ---- The words of all products

fn put_fault(f: Fault, at: usize, out: &mut [u8; ANSWER]) -> usize {
    match f {
        Fault::Short => wrong(
            out,
            b"a product has tranches, lots and priority; one is missing",
            at,
        ),
        Fault::NotANumber => wrong(out, b"not a number", at),
        Fault::Large => too_large(at, out),
        Fault::NoLots => wrong(out, b"lots are COUNT@PRICE joined by commas, or -", at),
        Fault::NoLot => wrong(out, b"a lot is missing", at),
        Fault::NoNumber => wrong(
            out,
            b"a lot has a count and a price; a number is missing",
            at,
        ),
        Fault::SecondAt => wrong(out, b"a lot has one @", at),
        Fault::FifthLot => wrong(out, b"a product has at most four lots", at),
    }
}

// How many products a bid has and the line of each, with the place after the words of the last; `said` is 0, or the length of the error
// that is in the answer.
#[derive(Clone, Copy)]
pub struct Bid {
    pub said: usize,
    pub count: usize,
    pub next: Cursor,
    pub lines: [Line; 8],
}

fn most_of(most: usize) -> usize
    ensures { (result ≡ most_of most) × (result ≤ 8) }
{
    most.min(8)
}

// The words of `most` products at most. Lines that were not given are empty, as the array was made.
fn take_groups(line: &[u8], c: Cursor, most: usize, out: &mut [u8; ANSWER]) -> Bid
    ensures { (result.count ≡ (groups_at line.now c most).count) × (result.lines ≡ (groups_at line.now c most).lines) }
{
    let mut lines = [Line::none(); 8];
    let top = most_of(most);
    let mut at = c;
    for n in 0..top {
        let w = word(line, at);
        if w.from == w.to {
            return Bid {
                said: 0,
                count: n,
                next: at,
                lines,
            };
        }
        match group_at(line, at) {
            Ok((l, next)) => {
                lines[n] = l;
                at = next;
            }
            Err(Wrong(f, p)) => {
                return Bid {
                    said: put_fault(f, p, out),
                    count: n,
                    next: at,
                    lines,
                };
            }
        }
    }
    Bid {
        said: 0,
        count: top,
        next: at,
        lines,
    }
}

// The words of products up to the end of a line, 8 products at most.
pub fn groups(line: &[u8], c: Cursor, out: &mut [u8; ANSWER]) -> Bid
    ensures { (result.count ≡ (groups_at line.now c 8).count) × (result.lines ≡ (groups_at line.now c 8).lines) }
{
    let mut g = take_groups(line, c, 8, out);
    if g.said == 0 {
        g.said = ends(line, g.next, out);
    }
    g
}

// The words are those of more or fewer products than the auction has: at the first that is too many, or where one is missing.
pub fn other_groups(line: &[u8], c: Cursor, products: usize, out: &mut [u8; ANSWER]) -> usize {
    let g = take_groups(line, c, products, out);
    let at = word(line, g.next).from;
    wrong_number(
        out,
        b"a bid in this auction has tranches, lots and priority for each of ",
        products as u64,
        b" products",
        at,
    )
}

// A card up to the end of a line: how many bytes it has.
pub fn card(line: &[u8], c: Cursor, bytes: &mut [u8; 1024], out: &mut [u8; ANSWER]) -> Numbers {
    let said = match take_hex(line, c, bytes) {
        Hex::Bytes(n, next) => return unless(ends(line, next, out), n),
        Hex::Uneven(p) => wrong(out, b"an odd number of hexadecimal digits", p),
        Hex::Long(p) => wrong(out, b"a card of more than 1024 bytes", p),
        Hex::Strange(p) => wrong(out, b"not a hexadecimal digit", p),
        Hex::End => wrong(out, b"a card in hexadecimal digits is missing", line.len()),
    };
    Numbers::Said(said)
}
