// The end of the page: awards and final prices of an auction that is closed, and how any other stands.
ghost use Rattle.std.specs.Prelude.{◌<◌};

use crate::rounds::{all_filed, cell, put_unfiled};
use layout::STATE;
use names::NAMES;
use paper::{one, put_bidder, put_price, put_product, put_unit, room};
use rules::{Phase, Quote, Tranches};
use std::array;
use text::{ANSWER, put};

// ---- Closed

fn put_quote(out: &mut [u8; ANSWER], at: usize, quote: Quote) -> usize {
    let price = quote.price;
    one(
        out,
        at,
        b"<td data-what=\"price\">#</td>",
        price.amount() as u64,
    )
}

fn put_said(out: &mut [u8; ANSWER], at: usize, quote: Quote) -> usize {
    let price = quote.price;
    let a = put(out, at, b"<td data-what=\"said\">");
    let b = put_price(out, a, price.unit(), price.amount());
    put(out, b, b"</td>")
}

// A cell for each count, one for their sum, and the row's end.
fn put_counts(out: &mut [u8; ANSWER], at: usize, what: &[u8], counts: &[u32]) -> usize {
    let mut to = at;
    let mut sum: u32 = 0;
    for n in counts {
        to = cell(out, to, what, *n);
        sum = sum.wrapping_add(*n);
    }
    to = cell(out, to, b"sum", sum);
    put(out, to, b"</tr>\n")
}

// A bidder's awards, and their sum.
fn put_awards(
    out: &mut [u8; ANSWER],
    at: usize,
    names: &[u8; NAMES],
    all: &[Tranches; 256],
    b: usize,
    products: usize,
) -> usize
    requires { b < 32 }
{
    let counts: [u32; 8] = array::from_fn(|p| all[b * 8 + p].0 as u32);
    let mut to = one(out, at, b"<tr data-bidder=\"#\"><th>", b as u64);
    to = put_bidder(out, to, names, b);
    to = put(out, to, b"</th>");
    put_counts(out, to, b"award", &counts[..products.min(8)])
}

// What all bidders are awarded of a product.
fn awarded(all: &[Tranches; 256], p: usize) -> u32
    requires { p < 8 }
{
    (0..32).fold(0, |sum: u32, b| sum.wrapping_add(all[b * 8 + p].0 as u32))
}

// A count of each product, and their sum.
fn put_total(out: &mut [u8; ANSWER], at: usize, what: &[u8], counts: &[u32]) -> usize {
    let a = put(out, at, b"<tr class=\"total\"><th>");
    let b = put(out, a, what);
    let c = put(out, b, b"</th>");
    put_counts(out, c, what, counts)
}

fn put_result(
    rt: &impl Print,
    out: &mut [u8; ANSWER],
    at: usize,
    names: &[u8; NAMES],
    s: &[u8; STATE],
    all: &[Tranches; 256],
    prices: &[Quote; 8],
) -> usize {
    let products = book::products(s).min(8);
    let mut to = put(
        out,
        at,
        b"<section id=\"awards\">\n<h2>Awards and final prices</h2>\n<p>Awards in tranches. The price of a product is the highest at which one of its tranches is held, and all winners get it.</p>\n<table class=\"wide\"><thead><tr><th>bidder</th>",
    );
    for p in 0..products {
        to = put(out, to, b"<th>");
        to = put_product(out, to, names, p);
        to = put(out, to, b"</th>");
    }
    to = put(
        out,
        to,
        b"<th>in all</th></tr></thead><tbody>\n<tr class=\"price\"><th>final price</th>",
    );
    for quote in &prices[..products] {
        to = put_quote(out, to, *quote);
    }
    to = put(out, to, b"<td></td></tr>\n<tr class=\"price\"><th>");
    to = put_unit(out, to, book::unit(s));
    to = put(out, to, b"</th>");
    for quote in &prices[..products] {
        to = put_said(out, to, *quote);
    }
    to = put(out, to, b"<td></td></tr>\n");
    for b in 0..book::bidders(s).min(32) {
        to = room(rt, out, to);
        to = put_awards(out, to, names, all, b, products);
    }
    let awards: [u32; 8] = array::from_fn(|p| awarded(all, p));
    to = put_total(out, to, b"awarded", &awards[..products]);
    let targets: [u32; 8] = array::from_fn(|p| book::target(s, p).0 as u32);
    to = put_total(out, to, b"target", &targets[..products]);
    put(out, to, b"</tbody></table>\n</section>\n")
}

// ---- Open or stopped

fn put_open(out: &mut [u8; ANSWER], at: usize, names: &[u8; NAMES], s: &[u8; STATE]) -> usize {
    let mut to = one(
        out,
        at,
        b"<section id=\"open\">\n<h2>The auction is open</h2>\n<p>Round # is open; there is no result yet. ",
        book::round(s) as u64,
    );
    if all_filed(s) {
        return put(out, to, b"Every bidder has filed.</p>\n</section>\n");
    }
    to = put(out, to, b"Still to file:<span class=\"list\">");
    to = put_unfiled(out, to, names, s, b" <span data-waiting=\"#\">");
    put(out, to, b"</span>.</p>\n</section>\n")
}

fn put_stopped(out: &mut [u8; ANSWER], at: usize, s: &[u8; STATE]) -> usize {
    let mut to = one(
        out,
        at,
        b"<section id=\"stopped\">\n<h2>The auction is stopped</h2>\n<p>It was stopped in round #, and has no result: ",
        book::round(s) as u64,
    );
    if book::round(s) == 4095 {
        to = put(out, to, b"this was round 4095");
    } else {
        to = put(out, to, b"a product above its target is at price 1");
    }
    one(
        out,
        to,
        b". Total excess supply #.</p>\n</section>\n",
        story::excess_of(s) as u64,
    )
}

pub fn put_end(
    rt: &impl Print,
    out: &mut [u8; ANSWER],
    at: usize,
    names: &[u8; NAMES],
    s: &[u8; STATE],
) -> usize {
    let to = room(rt, out, at);
    match Phase::of(book::phase(s)) {
        Phase::Open => put_open(out, to, names, s),
        Phase::Stopped => put_stopped(out, to, s),
        Phase::Issued => to,
        Phase::Closed => {
            let given = console::result(s);
            match given.award {
                Ok(()) => put_result(rt, out, to, names, s, &given.tranches, &given.prices),
                Err(_) => to,
            }
        }
    }
}
