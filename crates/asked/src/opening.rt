// `open UNIT STATEWIDE product T C P .. bidder E .. row PCT DEC ..`
ghost use Rattle.std.specs.Prelude.{◌≡◌, ◌<◌};
ghost use Rattle.rules.specs.Count.{list_of};
ghost use Rattle.asked.specs.Asked.{bidder_asked, product_at, row_at, settings_asked};

use crate::numbers::{One, ends, one_number, take_numbers, too_large, two_bytes};
use check::same;
use rules::{BasisPoints, Price, Product, Row, Settings, Tranches, Unit};
use std::array;
use text::{ANSWER, Cursor, Take, take_number, word, wrong};

// The settings, and 0 where they were given; otherwise the length of the error that is in the answer.
#[derive(Clone, Copy)]
pub struct Opening {
    pub said: usize,
    pub settings: Settings,
}

// ---- From numbers to settings

// How much was typed, and of which unit.
#[derive(Clone, Copy)]
pub struct Sizes {
    pub unit: Unit,
    pub statewide: u32,
    pub products: u8,
    pub bidders: u8,
    pub rows: u8,
}

fn bidders_of(numbers: [u32; 40]) -> [Tranches; 32]
    ensures { result ≡ list_of (bidder_asked numbers) 32 }
{
    array::from_fn(|i| Tranches(two_bytes(numbers[i])))
}

fn products_of(priced: u8, numbers: [u32; 40]) -> [Product; 8]
    ensures { result ≡ list_of (product_at priced numbers) 8 }
{
    array::from_fn(|i| {
        let k = i * 3;
        Product {
            target: Tranches(two_bytes(numbers[k])),
            cap: Tranches(two_bytes(numbers[k + 1])),
            start: Price::of(priced, numbers[k + 2]),
        }
    })
}

fn rows_of(numbers: [u32; 40]) -> [Row; 8]
    ensures { result ≡ list_of (row_at numbers) 8 }
{
    array::from_fn(|i| {
        let k = i * 2;
        Row {
            percent: two_bytes(numbers[k]),
            decrement: BasisPoints(two_bytes(numbers[k + 1])),
        }
    })
}

// Three numbers a product: target, cap, starting price; one a bidder: eligibility; two a row: percentage, decrement. Those that were
// not given are 0, as the arrays were made.
fn settings_of(sizes: Sizes, products: [u32; 40], bidders: [u32; 40], rows: [u32; 40]) -> Settings
    ensures { result ≡ settings_asked sizes products bidders rows }
{
    let unit = sizes.unit;
    let priced = unit.number();
    let product = products_of(priced, products);
    let eligibility = bidders_of(bidders);
    let row = rows_of(rows);
    let statewide = Tranches(two_bytes(sizes.statewide));
    Settings {
        unit,
        products: sizes.products,
        bidders: sizes.bidders,
        rows: sizes.rows,
        statewide,
        product,
        eligibility,
        row,
    }
}

// ---- From text to numbers

// Whether a byte begins a word that was meant as a number.
fn numeral(b: u8) -> bool {
    matches!(b, b'0'..=b'9' | b'.' | b',' | b'-' | b'+' | b'$')
}

// Whether the next word is no number, though meant as one.
fn meant(line: &[u8], c: Cursor) -> bool {
    let w = word(line, c);
    let a = w.from;
    let e = w.to;
    if a == e {
        return false;
    }
    match take_number(line, c) {
        Take::NotANumber(_) => numeral(line[a]),
        _ => false,
    }
}

// `what` is wrong with the next word, unless that was meant as a number: the length of the error.
fn refused(line: &[u8], c: Cursor, what: &[u8], out: &mut [u8; ANSWER]) -> usize {
    let at = word(line, c).from;
    if meant(line, c) {
        return wrong(out, b"not a number here", at);
    }
    wrong(out, what, at)
}

// A key word and groups of `each` numbers after it, one at least and `most` numbers at most; the key word may stand before further
// groups too. `instead` is said where another word stands, `missing` where a group is not whole. How many groups stand there, and the
// place after them; or the length of the error.
fn listed(
    line: &[u8],
    c: Cursor,
    key: &[u8],
    instead: &[u8],
    each: u8,
    most: u8,
    missing: &[u8],
    numbers: &mut [u32; 40],
    out: &mut [u8; ANSWER],
) -> Result<(u8, Cursor), usize>
    requires { 0 < each }
{
    let mut at = c;
    let mut n = 0u8;
    while n < most {
        let w = word(line, at);
        let a = w.from;
        let e = w.to;
        if !same(&line[a..e], key) {
            break;
        }
        match take_numbers(line, Cursor { at: e }, n, most as usize, numbers) {
            Ok((k, next)) => {
                if n < k && k % each == 0 {
                    n = k;
                    at = next;
                    continue;
                }
                return Err(refused(line, next, missing, out));
            }
            Err(p) => return Err(too_large(p, out)),
        }
    }
    if n == 0 {
        return Err(refused(line, at, instead, out));
    }
    Ok((n / each, at))
}

fn products(
    line: &[u8],
    c: Cursor,
    numbers: &mut [u32; 40],
    out: &mut [u8; ANSWER],
) -> Result<(u8, Cursor), usize> {
    let instead = b"the word product belongs here";
    let missing = b"a product has a target, a cap and a starting price; a number is missing";
    listed(line, c, b"product", instead, 3, 24, missing, numbers, out)
}

fn bidders(
    line: &[u8],
    c: Cursor,
    numbers: &mut [u32; 40],
    out: &mut [u8; ANSWER],
) -> Result<(u8, Cursor), usize> {
    let instead = b"the word bidder belongs here, after 1 to 8 products";
    let missing = b"a bidder has an initial eligibility; a number is missing";
    listed(line, c, b"bidder", instead, 1, 32, missing, numbers, out)
}

fn rows(
    line: &[u8],
    c: Cursor,
    numbers: &mut [u32; 40],
    out: &mut [u8; ANSWER],
) -> Result<(u8, Cursor), usize> {
    let instead = b"the word row belongs here, after 1 to 32 bidders";
    let missing = b"a row has a percentage and a decrement; a number is missing";
    listed(line, c, b"row", instead, 2, 16, missing, numbers, out)
}

// What `open` is given where something is wrong.
fn nothing(said: usize) -> Opening {
    let sizes = Sizes {
        unit: Unit::Kwh,
        statewide: 0,
        products: 0,
        bidders: 0,
        rows: 0,
    };
    let zero = [0u32; 40];
    let settings = settings_of(sizes, zero, zero, zero);
    Opening { said, settings }
}

// The groups, after the unit and the statewide cap; or the length of the error.
fn after_cap(
    line: &[u8],
    c: Cursor,
    unit: Unit,
    statewide: u32,
    out: &mut [u8; ANSWER],
) -> Result<Settings, usize> {
    let mut p = [0u32; 40];
    let mut b = [0u32; 40];
    let mut r = [0u32; 40];
    let (products, next) = products(line, c, &mut p, out)?;
    let (bidders, next) = bidders(line, next, &mut b, out)?;
    let (rows, next) = rows(line, next, &mut r, out)?;
    let said = ends(line, next, out);
    if said != 0 {
        return Err(said);
    }
    let sizes = Sizes {
        unit,
        statewide,
        products,
        bidders,
        rows,
    };
    Ok(settings_of(sizes, p, b, r))
}

fn after_unit(
    line: &[u8],
    c: Cursor,
    unit: Unit,
    out: &mut [u8; ANSWER],
) -> Result<Settings, usize> {
    match one_number(line, c, out) {
        One::Number(statewide, next) => after_cap(line, next, unit, statewide, out),
        One::Said(said) => Err(said),
    }
}

fn after_word(line: &[u8], c: Cursor, out: &mut [u8; ANSWER]) -> Result<Settings, usize> {
    let w = word(line, c);
    let unit = &line[w.from..w.to];
    let next = Cursor { at: w.to };
    if same(unit, b"kwh") {
        return after_unit(line, next, Unit::Kwh, out);
    }
    if same(unit, b"mwday") {
        return after_unit(line, next, Unit::MwDay, out);
    }
    Err(wrong(out, b"the unit is kwh or mwday", w.from))
}

// The settings of `open`, after its word.
pub fn settings(line: &[u8], c: Cursor, out: &mut [u8; ANSWER]) -> Opening {
    match after_word(line, c, out) {
        Ok(settings) => Opening { said: 0, settings },
        Err(said) => nothing(said),
    }
}
