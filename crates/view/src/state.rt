// `show`: the manager's view of a state that stands, read where it lies.
ghost use Rattle.std.specs.Prelude.{◌<◌};

use crate::lots::put_lots;
use crate::price::put_price_end;
use crate::{put_form, put_phase};
use layout::STATE;
use rules::{Line, Phase, Record};
use text::{ANSWER, put};

// `ok PHASE round R unit U statewide S`
fn put_auction(out: &mut [u8; ANSWER], s: &[u8; STATE]) -> usize {
    let a = put_phase(out, Phase::of(book::phase(s)));
    let statewide = book::statewide(s);
    let numbers = [book::round(s) as u64, statewide.0 as u64];
    if book::unit(s) == 0 {
        return put_form(out, a, b" round # unit kwh statewide #\n", &numbers);
    }
    put_form(out, a, b" round # unit mwday statewide #\n", &numbers)
}

fn put_product(out: &mut [u8; ANSWER], at: usize, s: &[u8; STATE], p: usize) -> usize
    requires { p < 8 }
{
    let target = book::target(s, p);
    let cap = book::cap(s, p);
    let start = book::start(s, p);
    let price = book::price(s, p);
    let before = book::before(s, p);
    let numbers = [
        p as u64,
        target.0 as u64,
        cap.0 as u64,
        start.amount() as u64,
        price.amount() as u64,
        before.amount() as u64,
        story::held_of(s, p) as u64,
    ];
    let a = put_form(
        out,
        at,
        b"  product % target # cap # start # price # before # held #",
        &numbers,
    );
    put_price_end(out, a, book::mark(s, p) != 0)
}

fn put_products(out: &mut [u8; ANSWER], at: usize, s: &[u8; STATE]) -> usize {
    let mut to = at;
    for p in 0..book::products(s).min(8) {
        to = put_product(out, to, s, p);
    }
    to
}

fn put_rows(out: &mut [u8; ANSWER], at: usize, s: &[u8; STATE]) -> usize {
    let mut to = at;
    for i in 0..book::rows(s).min(8) {
        let row = book::row(s, i);
        let numbers = [i as u64, row.percent as u64, row.decrement.0 as u64];
        to = put_form(out, to, b"  row # percent # decrement #\n", &numbers);
    }
    to
}

// ` G D LOTS`
fn put_record(out: &mut [u8; ANSWER], at: usize, r: Record) -> usize {
    let numbers = [r.going.0 as u64, r.denied.0 as u64];
    let a = put_form(out, at, b" # # ", &numbers);
    put_lots(out, a, r.retained)
}

// A bidder's records, and the line's end.
fn put_records(
    out: &mut [u8; ANSWER],
    at: usize,
    s: &[u8; STATE],
    b: usize,
    products: usize,
) -> usize
    requires { b < 32 }
{
    let mut to = at;
    for p in 0..products.min(8) {
        to = put_record(out, to, book::record(s, b * 8 + p));
    }
    put(out, to, b"\n")
}

// ` T LOTS P`
pub fn put_fields(out: &mut [u8; ANSWER], at: usize, l: Line) -> usize {
    let tranches = [l.tranches.0 as u64];
    let a = put_form(out, at, b" # ", &tranches);
    let b = put_lots(out, a, l.withdrawn);
    let priority = [l.priority as u64];
    put_form(out, b, b" #", &priority)
}

// The card that a bidder has filed, and the line's end.
pub fn put_card_fields(out: &mut [u8; ANSWER], at: usize, s: &[u8; STATE], b: usize) -> usize
    requires { b < 32 }
{
    let mut to = at;
    for p in 0..book::products(s).min(8) {
        to = put_fields(out, to, book::line(s, b * 8 + p));
    }
    put(out, to, b"\n")
}

// `    card`, and the card, where the bidder has filed one.
fn put_card(out: &mut [u8; ANSWER], at: usize, s: &[u8; STATE], b: usize) -> usize
    requires { b < 32 }
{
    if !book::has_filed(s, b) {
        return at;
    }
    let a = put(out, at, b"    card");
    put_card_fields(out, a, s, b)
}

// `  bidder I eligibility E free F filed 0|1`, and its records; under it its card.
fn put_bidder(
    out: &mut [u8; ANSWER],
    at: usize,
    s: &[u8; STATE],
    b: usize,
    products: usize,
) -> usize
    requires { b < 32 }
{
    let eligibility = book::initial(s, b);
    let free = book::free(s, b);
    let filed = book::has_filed(s, b) as u64;
    let numbers = [b as u64, eligibility.0 as u64, free.0 as u64, filed];
    let a = put_form(
        out,
        at,
        b"  bidder & eligibility # free # filed #",
        &numbers,
    );
    let c = put_records(out, a, s, b, products);
    put_card(out, c, s, b)
}

fn put_bidders(out: &mut [u8; ANSWER], at: usize, s: &[u8; STATE]) -> usize {
    let products = book::products(s);
    let mut to = at;
    for b in 0..book::bidders(s).min(32) {
        to = put_bidder(out, to, s, b, products);
    }
    to
}

// What the numbers of a bidder's lines are.
fn put_legend(out: &mut [u8; ANSWER], at: usize) -> usize {
    put(
        out,
        at,
        b"  records G D LOTS: going, denied, retained; cards T LOTS P: tranches, withdrawn, priority; LOTS: COUNT@EXIT,.. or -\n",
    )
}

pub fn show(out: &mut [u8; ANSWER], s: &[u8; STATE]) -> usize {
    let a = put_auction(out, s);
    let b = put_products(out, a, s);
    let c = put_rows(out, b, s);
    let d = put_legend(out, c);
    put_bidders(out, d, s)
}

// `ok N of M`, and the card of each bidder that has filed. So many are still to file.
pub fn cards(out: &mut [u8; ANSWER], s: &[u8; STATE], to_file: u32) -> usize {
    let all = book::bidders(s) as u64;
    let filed = all.wrapping_sub(to_file as u64);
    let numbers = [filed, all];
    let mut to = put_form(out, 0, b"ok # of #\n", &numbers);
    for b in 0..32 {
        if book::has_filed(s, b) {
            let a = put_form(out, to, b"  bidder &", &[b as u64]);
            to = put_card_fields(out, a, s, b);
        }
    }
    to
}

// `ok B R`, the card of bidder b as it is read, and the same in words; `ok not filed` where there is none.
pub fn card(out: &mut [u8; ANSWER], s: &[u8; STATE], b: usize) -> usize {
    if 32 <= b {
        return 0;
    }
    if !book::has_filed(s, b) {
        return put(out, 0, b"ok not filed\n");
    }
    let numbers = [b as u64, book::round(s) as u64];
    let a = put_form(out, 0, b"ok # #", &numbers);
    let c = put_card_fields(out, a, s, b);
    crate::bidding::put_filed(out, c, s, b)
}
