// Prices and what was held in every round of an auction with many rounds, a line each.
use crate::form::{fill, one, room};
use crate::series::{ROUNDS, SERIES, held_at, price_at};
use crate::titles::put_product;
use names::NAMES;
use text::{ANSWER, put};

fn put_heads(out: &mut [u8; ANSWER], at: usize, names: &[u8; NAMES], products: usize) -> usize {
    let mut to = at;
    for p in 0..products.min(8) {
        to = put(out, to, b"<th colspan=\"2\">");
        to = put_product(out, to, names, p);
        to = put(out, to, b"<br/>price, held</th>");
    }
    to
}

fn put_row(
    out: &mut [u8; ANSWER],
    at: usize,
    products: usize,
    r: usize,
    prices: &[u32; SERIES],
    helds: &[u16; SERIES],
) -> usize {
    let numbers = [r as u64, r as u64];
    let mut to = fill(out, at, b"<tr data-brief=\"#\"><th>#</th>", &numbers);
    for p in 0..products.min(8) {
        let pair = [price_at(prices, p, r) as u64, held_at(helds, p, r) as u64];
        to = fill(out, to, b"<td>#</td><td>#</td>", &pair);
    }
    put(out, to, b"</tr>\n")
}

pub fn put_brief(
    rt: &impl Print,
    out: &mut [u8; ANSWER],
    at: usize,
    names: &[u8; NAMES],
    products: usize,
    rounds: usize,
    prices: &[u32; SERIES],
    helds: &[u16; SERIES],
) -> usize {
    let mut to = one(
        out,
        at,
        b"<section id=\"brief\">\n<h2>All # rounds</h2>\n<p>The going price of each round, and what was held after it.</p>\n<table class=\"tiny\"><thead><tr><th>round</th>",
        rounds as u64,
    );
    to = put_heads(out, to, names, products);
    to = put(out, to, b"</tr></thead><tbody>\n");
    for r in 1..=rounds.min(ROUNDS - 1) {
        to = room(rt, out, to);
        to = put_row(out, to, products, r, prices, helds);
    }
    put(out, to, b"</tbody></table>\n</section>\n")
}
