// The draw order, the overrides and the order of the products: 14, 19 and 23.
use crate::{last_of, of_phase, put_outside};
use layout::STATE;
use rules::BasisPoints;
use table::{is_drawn, is_known, times_drawn};
use text::{ANSWER, put};
use view::put_form;

// A part of the remark, of which the first begins it: one of those that an order is of, by its form, `bidder &` or `product %`, and what
// is said of it.
fn put_part(
    out: &mut [u8; ANSWER],
    at: usize,
    begun: bool,
    form: &[u8],
    n: u64,
    said: &[u8],
) -> usize {
    let a = put(out, at, if begun { b", " } else { b": " });
    let b = put_form(out, a, form, &[n]);
    put(out, b, said)
}

// The first entry that is none of them.
fn put_unknown(
    out: &mut [u8; ANSWER],
    at: usize,
    order: &[u8],
    count: usize,
    form: &[u8],
) -> usize {
    match order.iter().find(|x| !is_known(**x, count)) {
        Some(x) => put_part(out, at, false, form, *x as u64, b" is unknown"),
        None => at,
    }
}

// The first that stands more than once.
fn put_twice(
    out: &mut [u8; ANSWER],
    at: usize,
    order: &[u8],
    count: usize,
    form: &[u8],
    begun: bool,
) -> usize {
    match (0..count.min(32)).find(|b| 1 < times_drawn(order, *b)) {
        Some(b) => {
            let a = put_part(out, at, begun, form, b as u64, b" stands ");
            put_form(out, a, b"# times", &[times_drawn(order, b) as u64])
        }
        None => at,
    }
}

// The first that is missing.
fn put_missing(
    out: &mut [u8; ANSWER],
    at: usize,
    order: &[u8],
    count: usize,
    form: &[u8],
    begun: bool,
) -> usize {
    match (0..count.min(32)).find(|b| !is_drawn(order, order.len(), *b)) {
        Some(b) => put_part(out, at, begun, form, b as u64, b" is missing"),
        None => at,
    }
}

// What is wrong with an order of so many; the last form says which they are.
fn put_order(
    out: &mut [u8; ANSWER],
    at: usize,
    order: &[u8],
    count: usize,
    form: &[u8],
    all: &[u8],
) -> usize {
    let a = put_unknown(out, at, order, count, form);
    let b = put_twice(out, a, order, count, form, a != at);
    let c = put_missing(out, b, order, count, form, b != at);
    if c == at {
        return at;
    }
    put_form(out, c, all, &[last_of(count)])
}

fn put_draw(out: &mut [u8; ANSWER], at: usize, draw: &[u8], bidders: usize) -> usize {
    put_order(
        out,
        at,
        draw,
        bidders,
        b"bidder &",
        b"; the bidders are 0 to #",
    )
}

fn put_products(out: &mut [u8; ANSWER], at: usize, order: &[u8], products: usize) -> usize {
    put_order(
        out,
        at,
        order,
        products,
        b"product %",
        b"; the products are 0 to #",
    )
}

fn put_override(
    out: &mut [u8; ANSWER],
    at: usize,
    p: usize,
    given: Option<BasisPoints>,
) -> Option<usize> {
    match given {
        None => None,
        Some(by) => put_outside(
            out,
            at,
            b": product %, # basis points",
            &[p as u64, by.0 as u64],
            by.0 as u32,
            rules::override_limits(),
        ),
    }
}

// The first that is outside its limits.
fn put_overrides(
    out: &mut [u8; ANSWER],
    at: usize,
    overrides: [Option<BasisPoints>; 8],
) -> Option<usize> {
    (0..8).find_map(|p| put_override(out, at, p, overrides[p]))
}

pub fn of_round(
    out: &mut [u8; ANSWER],
    at: usize,
    n: u8,
    s: &[u8; STATE],
    draw: &[u8],
    overrides: [Option<BasisPoints>; 8],
    order: &[u8],
) -> usize {
    match n {
        14 => put_draw(out, at, draw, book::bidders(s)),
        19 => put_overrides(out, at, overrides).unwrap_or(at),
        23 => put_products(out, at, order, book::products(s)),
        _ => of_phase(out, at, n, s),
    }
}
