// The answers of `report`, `result` and `read`.
ghost use Rattle.std.specs.Prelude.{◌<◌};

use crate::bidding::put_read;
use crate::lots::{put_exits, put_lots};
use crate::price::{put_price, put_price_end, put_unit};
use crate::round::{is_open, put_now};
use crate::state::put_fields;
use crate::{put_form, put_phase};
use layout::STATE;
use rules::{
    Awarded, Bid, CardRead, GoingPrice, Line, Phase, Quote, Range, Record, Report, Reported,
    Tranches,
};
use text::{ANSWER, put};

// `ok PHASE excess LOW-HIGH free F`
fn put_standing(out: &mut [u8; ANSWER], phase: Phase, range: Range, free: Tranches) -> usize {
    let a = put_phase(out, phase);
    let numbers = [range.low as u64, range.high as u64, free.0 as u64];
    put_form(out, a, b" excess #-# free #\n", &numbers)
}

// The round that was calculated last: where bids are open, the one before.
fn last_round(s: &[u8; STATE]) -> u16 {
    let round = book::round(s);
    if is_open(s) {
        return round.saturating_sub(1);
    }
    round
}

// To whom, and what is not of one product.
fn put_heading(
    out: &mut [u8; ANSWER],
    at: usize,
    s: &[u8; STATE],
    b: usize,
    range: Range,
    free: Tranches,
) -> usize {
    let whom = [b as u64, last_round(s) as u64];
    let a = put_form(out, at, b"  to bidder & after round #: ", &whom);
    let c = put_now(out, a, s);
    let numbers = [range.low as u64, range.high as u64, free.0 as u64];
    let d = put_form(
        out,
        c,
        b"; total excess supply #-#; free eligibility #\n  prices in ",
        &numbers,
    );
    let e = put_unit(out, d, book::unit(s));
    put(out, e, b"\n")
}

// A record at its going price, and the prices as people say them.
fn put_holding(
    out: &mut [u8; ANSWER],
    at: usize,
    unit: u8,
    p: usize,
    going: GoingPrice,
    r: Record,
) -> usize {
    let price = going.price;
    let amount = price.amount();
    let numbers = [p as u64, amount as u64, r.going.0 as u64, r.denied.0 as u64];
    let retained = r.retained;
    let a = put_form(
        out,
        at,
        b"  product % price # going # denied # retained ",
        &numbers,
    );
    let b = put_lots(out, a, retained);
    let c = put_price_end(out, b, going.overridden);
    let d = put(out, c, b"    ");
    let mut to = put_price(out, d, unit, amount);
    if 0 < retained.total() {
        let e = put(out, to, b"; retained at ");
        to = put_exits(out, e, unit, retained);
    }
    put(out, to, b"\n")
}

// The bidder's own record of each product, with its going price.
fn put_holdings(
    out: &mut [u8; ANSWER],
    at: usize,
    unit: u8,
    prices: [GoingPrice; 8],
    records: [Record; 8],
    products: usize,
) -> usize {
    let mut to = at;
    for p in 0..products.min(8) {
        to = put_holding(out, to, unit, p, prices[p], records[p]);
    }
    to
}

// What a bidder has of all products.
#[derive(Clone, Copy, Default)]
struct Totals {
    going: u32,
    denied: u32,
    retained: u32,
}

impl Totals {
    fn with(self, r: Record) -> Totals {
        Totals {
            going: self.going.wrapping_add(r.going.0 as u32),
            denied: self.denied.wrapping_add(r.denied.0 as u32),
            retained: self.retained.wrapping_add(r.retained.total()),
        }
    }
}

// Past the products in use a record is 0.
fn totals_of(records: [Record; 8]) -> Totals {
    records
        .iter()
        .fold(Totals::default(), |totals, r| totals.with(*r))
}

fn put_totals(out: &mut [u8; ANSWER], at: usize, totals: Totals) -> usize {
    let kept = totals.denied as u64 + totals.retained as u64;
    let numbers = [
        totals.going as u64,
        totals.denied as u64,
        totals.retained as u64,
        totals.going as u64 + kept,
    ];
    put_form(
        out,
        at,
        b"  in all going # denied # retained #, held #\n",
        &numbers,
    )
}

// The lines of a report, without the first.
fn put_report(
    out: &mut [u8; ANSWER],
    at: usize,
    s: &[u8; STATE],
    b: usize,
    given: Reported,
    range: Range,
    free: Tranches,
) -> usize {
    let prices = given.prices;
    let records = given.records;
    let a = put_heading(out, at, s, b, range, free);
    let c = put_holdings(out, a, book::unit(s), prices, records, book::products(s));
    put_totals(out, c, totals_of(records))
}

// The report to bidder b: the whole answer, or, among the reports to all, its lines from a place on. Nothing where it is refused.
pub fn report(out: &mut [u8; ANSWER], s: &[u8; STATE], b: usize, given: Reported) -> usize {
    let report = given.report;
    match report {
        Ok(Report { free, phase, range }) => {
            let a = put_standing(out, phase, range, free);
            put_report(out, a, s, b, given, range, free)
        }
        Err(_) => 0,
    }
}

pub fn put_reported(
    out: &mut [u8; ANSWER],
    at: usize,
    s: &[u8; STATE],
    b: usize,
    given: Reported,
) -> usize {
    let report = given.report;
    match report {
        Ok(Report { free, range, .. }) => put_report(out, at, s, b, given, range, free),
        Err(_) => at,
    }
}

// ---- The result

fn put_final(out: &mut [u8; ANSWER], at: usize, s: &[u8; STATE], p: usize, quote: Quote) -> usize
    requires { p < 8 }
{
    let price = quote.price;
    let amount = price.amount();
    let numbers = [p as u64, amount as u64];
    let a = put_form(out, at, b"  product % price #\n    ", &numbers);
    let b = put_price(out, a, book::unit(s), amount);
    let target = book::target(s, p);
    let awarded = [story::held_of(s, p) as u64, target.0 as u64];
    put_form(out, b, b"; # of # awarded\n", &awarded)
}

// The final price of each product.
fn put_finals(out: &mut [u8; ANSWER], at: usize, s: &[u8; STATE], prices: [Quote; 8]) -> usize {
    let mut to = at;
    for p in 0..book::products(s).min(8) {
        to = put_final(out, to, s, p, prices[p]);
    }
    to
}

// `  bidder I A0 A1 ..`, and what it is in all; bidder b on product p stands at b * 8 + p.
fn put_bidder(
    out: &mut [u8; ANSWER],
    at: usize,
    all: [Tranches; 256],
    b: usize,
    products: usize,
) -> usize
    requires { b < 32 }
{
    let numbers = [b as u64];
    let mut to = put_form(out, at, b"  bidder &", &numbers);
    let mut sum = 0u64;
    for p in 0..products.min(8) {
        let x = all[b * 8 + p].0 as u64;
        to = put_form(out, to, b" #", &[x]);
        sum = sum.wrapping_add(x);
    }
    put_form(out, to, b"\n    in all #\n", &[sum])
}

fn put_awards(
    out: &mut [u8; ANSWER],
    at: usize,
    all: [Tranches; 256],
    bidders: usize,
    products: usize,
) -> usize {
    let mut to = at;
    for b in 0..bidders.min(32) {
        to = put_bidder(out, to, all, b, products);
    }
    to
}

// `  in all N of M awarded`, over all products.
fn put_awarded(out: &mut [u8; ANSWER], at: usize, s: &[u8; STATE]) -> usize {
    let mut awarded = 0u64;
    let mut targets = 0u64;
    for p in 0..book::products(s).min(8) {
        awarded = awarded.wrapping_add(story::held_of(s, p) as u64);
        targets = targets.wrapping_add(book::target(s, p).0 as u64);
    }
    put_form(out, at, b"  in all # of # awarded\n", &[awarded, targets])
}

// `ok`, the final prices, and the awards; nothing where it is refused.
pub fn result(out: &mut [u8; ANSWER], s: &[u8; STATE], given: Awarded) -> usize {
    let award = given.award;
    match award {
        Ok(()) => {
            let prices = given.prices;
            let tranches = given.tranches;
            let round = [book::round(s) as u64];
            let a = put_form(out, 0, b"ok\n  closed in round #; prices in ", &round);
            let b = put_unit(out, a, book::unit(s));
            let c = put(out, b, b"; awards in tranches\n");
            let d = put_finals(out, c, s, prices);
            let e = put_awards(out, d, tranches, book::bidders(s), book::products(s));
            put_awarded(out, e, s)
        }
        Err(_) => 0,
    }
}

// ---- A card read

// The lines of a bid, and the answer's end.
fn put_lines(out: &mut [u8; ANSWER], at: usize, lines: [Line; 8], products: usize) -> usize {
    let mut to = at;
    for p in 0..products.min(8) {
        to = put_fields(out, to, lines[p]);
    }
    put(out, to, b"\n")
}

// `ok B R`, then ` T LOTS P` for each product, and the same in words; nothing where it is refused.
pub fn bid(out: &mut [u8; ANSWER], got: CardRead, products: usize) -> usize {
    let card = got.card;
    match card {
        Ok(Bid { bidder, round }) => {
            let lines = got.lines;
            let numbers = [bidder as u64, round as u64];
            let a = put_form(out, 0, b"ok # #", &numbers);
            let b = put_lines(out, a, lines, products);
            put_read(out, b, bidder, round, lines, products)
        }
        Err(_) => 0,
    }
}
