// What an opening, a calculation, a cutback or an undo left, in words.
ghost use Rattle.std.specs.Prelude.{◌<◌};

use crate::lots::{put_comma, put_parts, put_told};
use crate::price::{put_amount, put_points, put_price_end, put_unit};
use crate::put_form;
use layout::STATE;
use rules::{BasisPoints, Lots, Phase};
use std::array;
use text::{ANSWER, put, put_named};

// ---- Who has filed

// `0, 3, 4`: the bidders that have not filed. The place after them.
pub fn put_missing(out: &mut [u8; ANSWER], at: usize, s: &[u8; STATE]) -> usize {
    let mut to = at;
    for b in 0..book::bidders(s).min(32) {
        if !book::has_filed(s, b) {
            let a = put_comma(out, to, at, b", ");
            to = put_form(out, a, b"&", &[b as u64]);
        }
    }
    to
}

// `still to file: 0, 3`, or that none is.
pub fn put_waiting(out: &mut [u8; ANSWER], at: usize, s: &[u8; STATE]) -> usize {
    let a = put(out, at, b"still to file: ");
    let b = put_missing(out, a, s);
    if a == b {
        return put(out, at, b"every bidder has filed");
    }
    b
}

// ---- What the auction has come to

// `round R is open`, or how it ended.
pub fn put_now(out: &mut [u8; ANSWER], at: usize, s: &[u8; STATE]) -> usize {
    match Phase::of(book::phase(s)) {
        Phase::Issued => put(out, at, b"the box is issued: every byte is zero"),
        Phase::Open => {
            let numbers = [book::round(s) as u64];
            put_form(out, at, b"round # is open", &numbers)
        }
        Phase::Closed => put(out, at, b"the auction is closed"),
        Phase::Stopped => put(out, at, b"the auction is stopped"),
    }
}

pub fn is_open(s: &[u8; STATE]) -> bool {
    matches!(Phase::of(book::phase(s)), Phase::Open)
}

fn put_line_now(out: &mut [u8; ANSWER], at: usize, s: &[u8; STATE]) -> usize {
    let a = put(out, at, b"  ");
    let b = put_now(out, a, s);
    put(out, b, b"\n")
}

// After an undo, and of a box that is found: in an open round who is still to file.
pub fn put_back(out: &mut [u8; ANSWER], at: usize, s: &[u8; STATE]) -> usize {
    if !is_open(s) {
        return put_line_now(out, at, s);
    }
    let a = put(out, at, b"  ");
    let b = put_now(out, a, s);
    let c = put(out, b, b", ");
    let d = put_waiting(out, c, s);
    put(out, d, b"\n")
}

// ---- An opening

fn put_setting(out: &mut [u8; ANSWER], at: usize, s: &[u8; STATE], p: usize) -> usize
    requires { p < 8 }
{
    let target = book::target(s, p);
    let cap = book::cap(s, p);
    let start = book::start(s, p);
    let numbers = [p as u64, target.0 as u64, cap.0 as u64];
    let a = put_form(
        out,
        at,
        b"  product %: target #, cap #, starting price ",
        &numbers,
    );
    let b = put_amount(out, a, book::unit(s), start.amount());
    put(out, b, b"\n")
}

fn put_settings(out: &mut [u8; ANSWER], at: usize, s: &[u8; STATE]) -> usize {
    let mut to = at;
    for p in 0..book::products(s).min(8) {
        to = put_setting(out, to, s, p);
    }
    to
}

fn put_eligibilities(out: &mut [u8; ANSWER], at: usize, s: &[u8; STATE]) -> usize {
    let mut to = at;
    for b in 0..book::bidders(s).min(32) {
        let numbers = [b as u64, book::initial(s, b).0 as u64];
        to = put_form(out, to, b"  bidder &: eligibility #\n", &numbers);
    }
    to
}

fn put_row(out: &mut [u8; ANSWER], at: usize, s: &[u8; STATE], i: usize) -> usize
    requires { i < 8 }
{
    let row = book::row(s, i);
    let numbers = [i as u64, row.percent as u64];
    let a = put_form(
        out,
        at,
        b"  row #: from # percent above target the price falls by ",
        &numbers,
    );
    let b = put_points(out, a, row.decrement.0);
    put(out, b, b" percent\n")
}

fn put_rows(out: &mut [u8; ANSWER], at: usize, s: &[u8; STATE]) -> usize {
    let mut to = at;
    for i in 0..book::rows(s).min(8) {
        to = put_row(out, to, s, i);
    }
    to
}

// What was taken of the settings.
pub fn put_opened(out: &mut [u8; ANSWER], at: usize, s: &[u8; STATE]) -> usize {
    let a = put(out, at, b"  ");
    let b = put_now(out, a, s);
    let c = put(out, b, b"; prices in ");
    let d = put_unit(out, c, book::unit(s));
    let e = put_named(out, d, b"; statewide cap ", book::statewide(s).0 as u64);
    let f = put(out, e, b"\n");
    let g = put_settings(out, f, s);
    let h = put_eligibilities(out, g, s);
    put_rows(out, h, s)
}

// ---- A calculation, a cutback

// `, excess E` or `, short E`
fn put_excess(out: &mut [u8; ANSWER], at: usize, held: u32, target: u32) -> usize {
    if held < target {
        return put_named(out, at, b", short ", (target - held) as u64);
    }
    put_named(out, at, b", excess ", (held - target) as u64)
}

// How a product stands, at the price that it had; where bids are open the price that it has now.
fn put_standing(out: &mut [u8; ANSWER], at: usize, s: &[u8; STATE], p: usize, price: u32) -> usize
    requires { p < 8 }
{
    let held = story::held_of(s, p);
    let target = book::target(s, p).0;
    let numbers = [p as u64, held as u64, target as u64];
    let a = put_form(out, at, b"  product %: held #, target #", &numbers);
    let b = put_excess(out, a, held, target as u32);
    let mut to = put(out, b, b", price ");
    let unit = book::unit(s);
    if is_open(s) {
        let c = put_named(out, to, b"", price as u64);
        let d = put(out, c, b", next ");
        to = put_amount(out, d, unit, book::price(s, p).amount());
    } else {
        to = put_amount(out, to, unit, price);
    }
    put_price_end(out, to, book::mark(s, p) != 0)
}

fn put_standings(out: &mut [u8; ANSWER], at: usize, s: &[u8; STATE], prices: [u32; 8]) -> usize {
    let mut to = at;
    for p in 0..book::products(s).min(8) {
        to = put_standing(out, to, s, p, prices[p]);
    }
    to
}

// `  bidder B on product P: N`, with the text after it; nothing where it is 0.
fn put_move(out: &mut [u8; ANSWER], at: usize, b: usize, p: usize, n: u32, text: &[u8]) -> usize {
    if n == 0 {
        return at;
    }
    let numbers = [b as u64, p as u64, n as u64];
    let a = put_form(out, at, b"  bidder & on product %: #", &numbers);
    put(out, a, text)
}

// The same, with a price at its end.
fn put_move_at(
    out: &mut [u8; ANSWER],
    at: usize,
    b: usize,
    p: usize,
    n: u32,
    text: &[u8],
    unit: u8,
    price: u32,
) -> usize {
    if n == 0 {
        return at;
    }
    let a = put_move(out, at, b, p, n, text);
    let c = put_amount(out, a, unit, price);
    put(out, c, b"\n")
}

// The same of lots, each at its price, and whether it is the whole of the lot or a part.
fn put_lots_moved(
    out: &mut [u8; ANSWER],
    at: usize,
    b: usize,
    p: usize,
    unit: u8,
    moved: Lots,
    of: Lots,
    text: &[u8],
) -> usize {
    if moved.total() == 0 {
        return at;
    }
    let numbers = [b as u64, p as u64];
    let a = put_form(out, at, b"  bidder & on product %: ", &numbers);
    // An answer has such a line for every bidder and product: the price stands in words where it is one.
    let c = if moved.first() == moved.last() {
        put_told(out, a, unit, moved, of, text)
    } else {
        put_parts(out, a, moved, of, text)
    };
    put(out, c, b"\n")
}

// "the price q before its latest fall" is that of the state after the round; what is deemed bid is so at the round's own price.
fn put_moves(
    out: &mut [u8; ANSWER],
    at: usize,
    before: &[u8; STATE],
    after: &[u8; STATE],
    b: usize,
    p: usize,
) -> usize
    requires { (b < 32) × (p < 8) }
{
    let m = story::moves_of(before, after, b, p);
    let unit = book::unit(before);
    let going = book::price(before, p).amount();
    let last = book::before(after, p).amount();
    let withdrawn = m.withdrawn;
    let retained = m.retained;
    let stood = m.stood;
    let gone = m.gone;
    let mut to = put_lots_moved(out, at, b, p, unit, retained, withdrawn, b" retained at ");
    to = put_move_at(out, to, b, p, m.denied, b" denied, held at ", unit, last);
    to = put_move(out, to, b, p, m.cancelled, b" of the increase cancelled\n");
    to = put_move_at(out, to, b, p, m.deemed, b" deemed bid at ", unit, going);
    to = put_move(out, to, b, p, m.freed, b" denied outbid, free again\n");
    put_lots_moved(
        out,
        to,
        b,
        p,
        unit,
        gone,
        stood,
        b" retained outbid, gone, at ",
    )
}

fn put_all_moves(
    out: &mut [u8; ANSWER],
    at: usize,
    before: &[u8; STATE],
    after: &[u8; STATE],
) -> usize {
    let products = book::products(before).min(8);
    let mut to = at;
    for b in 0..book::bidders(before).min(32) {
        for p in 0..products {
            to = put_moves(out, to, before, after, b, p);
        }
    }
    to
}

// `  total excess supply E`
fn put_total(out: &mut [u8; ANSWER], at: usize, s: &[u8; STATE]) -> usize {
    let numbers = [story::excess_of(s) as u64];
    put_form(out, at, b"  total excess supply #\n", &numbers)
}

// Document 02, request 11: "after a calculation that leaves the auction open with no product above target and D denied switches standing,
// some price falls, or the auction closes or stops, within D + 1 further calculations".
fn put_quiet(out: &mut [u8; ANSWER], at: usize, s: &[u8; STATE]) -> usize {
    if !is_open(s) {
        return at;
    }
    if story::some_above(s) {
        return at;
    }
    let a = put(
        out,
        at,
        b"  no price falls: no product is above target and ",
    );
    let denied = story::denied_of(s) as u64;
    if denied == 0 {
        return put(
            out,
            a,
            b"no denied switch stands; with the next calculation a price falls or the auction ends\n",
        );
    }
    if denied == 1 {
        return put(
            out,
            a,
            b"1 denied switch stands; within 2 more calculations a price falls or the auction ends\n",
        );
    }
    let numbers = [denied, denied + 1];
    put_form(
        out,
        a,
        b"# denied switches stand; within # more calculations a price falls or the auction ends\n",
        &numbers,
    )
}

// Why an override that was given is not used.
fn put_idle(out: &mut [u8; ANSWER], at: usize, s: &[u8; STATE], p: usize) -> usize {
    let numbers = [p as u64];
    let a = put_form(
        out,
        at,
        b"  the override of product % does nothing: ",
        &numbers,
    );
    if book::products(s) <= p {
        return put(out, a, b"there is no such product\n");
    }
    if is_open(s) {
        return put(out, a, b"it is not above target\n");
    }
    put(out, a, b"no price falls\n")
}

// The overrides that the state after the round has no mark of.
fn put_all_idle(
    out: &mut [u8; ANSWER],
    at: usize,
    s: &[u8; STATE],
    overrides: [Option<BasisPoints>; 8],
) -> usize {
    let mut to = at;
    for p in 0..8 {
        if overrides[p].is_some() & (book::mark(s, p) == 0) {
            to = put_idle(out, to, s, p);
        }
    }
    to
}

// A calculation, by the state before it, the overrides that it was given and the state that it left.
pub fn put_calculated(
    out: &mut [u8; ANSWER],
    at: usize,
    before: &[u8; STATE],
    overrides: [Option<BasisPoints>; 8],
    after: &[u8; STATE],
) -> usize {
    let numbers = [book::round(before) as u64];
    let a = put_form(out, at, b"  round # calculated; default bids: ", &numbers);
    let b = put_missing(out, a, before);
    let c = if a == b { put(out, a, b"none") } else { b };
    let d = put(out, c, b"\n");
    // What the round went by.
    let prices = array::from_fn(|p| book::price(before, p).amount());
    let e = put_standings(out, d, after, prices);
    let f = put_all_idle(out, e, after, overrides);
    let g = put_all_moves(out, f, before, after);
    let h = put_total(out, g, after);
    let i = put_quiet(out, h, after);
    put_line_now(out, i, after)
}

fn put_freed(
    out: &mut [u8; ANSWER],
    at: usize,
    before: &[u8; STATE],
    after: &[u8; STATE],
    b: usize,
    p: usize,
) -> usize
    requires { (b < 32) × (p < 8) }
{
    let k = b * 8 + p;
    let had = book::record(before, k).going.0;
    let has = book::record(after, k).going.0;
    if had <= has {
        return at;
    }
    put_move(
        out,
        at,
        b,
        p,
        (had - has) as u32,
        b" above the cap, free again\n",
    )
}

fn put_all_freed(
    out: &mut [u8; ANSWER],
    at: usize,
    before: &[u8; STATE],
    after: &[u8; STATE],
) -> usize {
    let mut to = at;
    for b in 0..32 {
        for p in 0..8 {
            to = put_freed(out, to, before, after, b, p);
        }
    }
    to
}

// A cutback, by the state before it and the state that it left.
pub fn put_cut(
    out: &mut [u8; ANSWER],
    at: usize,
    before: &[u8; STATE],
    after: &[u8; STATE],
) -> usize {
    let a = put_all_freed(out, at, before, after);
    // "Round 2 prices are worked out afresh from" the starting price of each product.
    let prices = array::from_fn(|p| book::start(after, p).amount());
    let b = put_standings(out, a, after, prices);
    let c = put_total(out, b, after);
    put_line_now(out, c, after)
}
