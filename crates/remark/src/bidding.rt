// The rules of a bid, and the card that brings it: 4 to 13.
ghost use Rattle.std.specs.Prelude.{◌<◌};
ghost use Rattle.book.specs.Lent.{Lent};

use crate::cards::of_read;
use crate::exits::put_exit;
use crate::of_phase;
use crate::phases::put_bidder;
use bids::{Kept, Sums, numbers_of, reduction, tally_of};
use layout::STATE;
use rules::{Bid, Line, Record};
use text::ANSWER;
use view::put_form;

// ---- The first product that breaks a rule

// Product p by itself.
fn kept_on(s: &[u8; STATE], ticks: &[u8; 8], b: usize, lines: [Line; 8], p: usize) -> Kept
    requires { (b < 32) × (p < 8) }
{
    Kept::at_first().with(
        book::record(s, b * 8 + p),
        lines[p],
        book::cap(s, p),
        ticks[p] == 1,
        book::price(s, p),
        book::before(s, p),
    )
}

// Whether the rule of a number is broken there; 13 goes by whether something is switched.
fn breaks(kept: Kept, n: u8, switched: bool) -> bool {
    match n {
        8 => !kept.caps,
        9 => !kept.ticks,
        11 => !kept.leaves,
        12 => !kept.exits,
        13 => { if switched { !kept.others } else { !kept.plain } }
        _ => false,
    }
}

// ---- What is said of it

// 8
fn put_cap(
    out: &mut [u8; ANSWER],
    at: usize,
    s: &[u8; STATE],
    p: usize,
    r: Record,
    l: Line,
) -> usize
    requires { p < 8 }
{
    let numbers = [
        p as u64,
        l.tranches.0 as u64,
        r.denied.0 as u64,
        r.retained.total() as u64,
        book::cap(s, p).0 as u64,
    ];
    put_form(out, at, b": product %, # + # + # against #", &numbers)
}

// 9
fn put_reduced(out: &mut [u8; ANSWER], at: usize, p: usize, r: Record, l: Line) -> usize {
    let going = r.going.0 as u64;
    let numbers = [p as u64, l.tranches.0 as u64, going, going];
    put_form(
        out,
        at,
        b": product %, # bid where # are going; # or more are allowed",
        &numbers,
    )
}

// 11, of one product
fn put_leaving(out: &mut [u8; ANSWER], at: usize, p: usize, r: Record, l: Line) -> usize {
    let reduced = reduction(r, l) as u64;
    let withdrawn = l.withdrawn.total() as u64;
    let numbers = [p as u64, withdrawn, reduced, reduced];
    put_form(
        out,
        at,
        b": product %, # withdrawn where the reduction is #; at most # are allowed",
        &numbers,
    )
}

// 13, of one product
fn put_priority(out: &mut [u8; ANSWER], at: usize, p: usize, l: Line, switched: bool) -> usize {
    let numbers = [p as u64, l.priority as u64];
    if switched {
        return put_form(
            out,
            at,
            b": product %, priority # where nothing is increased; 0 is allowed",
            &numbers,
        );
    }
    put_form(
        out,
        at,
        b": product %, priority # where nothing is switched; 0 is allowed",
        &numbers,
    )
}

fn put_product(
    out: &mut [u8; ANSWER],
    at: usize,
    n: u8,
    s: &[u8; STATE],
    b: usize,
    l: Line,
    p: usize,
    switched: bool,
) -> usize
    requires { (b < 32) × (p < 8) }
{
    let r = book::record(s, b * 8 + p);
    match n {
        8 => put_cap(out, at, s, p, r, l),
        9 => put_reduced(out, at, p, r, l),
        11 => put_leaving(out, at, p, r, l),
        12 => put_exit(out, at, s, p, l.withdrawn),
        13 => put_priority(out, at, p, l, switched),
        _ => at,
    }
}

fn put_products(
    out: &mut [u8; ANSWER],
    at: usize,
    n: u8,
    s: &[u8; STATE],
    ticks: &[u8; 8],
    b: usize,
    lines: [Line; 8],
    switched: bool,
) -> Option<usize>
    requires { b < 32 }
{
    for p in 0..book::products(s).min(8) {
        if breaks(kept_on(s, ticks, b, lines, p), n, switched) {
            return Some(put_product(out, at, n, s, b, lines[p], p, switched));
        }
    }
    None
}

// ---- The sums

// 10
fn put_bid(out: &mut [u8; ANSWER], at: usize, x: Sums, f: u32) -> usize {
    let numbers = [
        x.bid as u64,
        x.going as u64,
        f as u64,
        x.going as u64 + f as u64,
    ];
    put_form(
        out,
        at,
        b": # bid in all where # are going and # is free; at most # are allowed",
        &numbers,
    )
}

// 11, of all products
fn put_withdrawn(out: &mut [u8; ANSWER], at: usize, x: Sums, switches: u32) -> usize {
    let numbers = [
        x.withdrawn as u64,
        x.reduced as u64,
        switches as u64,
        x.withdrawals(switches) as u64,
    ];
    put_form(
        out,
        at,
        b": # withdrawn in all where # are reduced and # is switched; exactly # are allowed",
        &numbers,
    )
}

// 13: the first number that is not given once
fn put_numbered(
    out: &mut [u8; ANSWER],
    at: usize,
    s: &[u8; STATE],
    b: usize,
    lines: [Line; 8],
    rising: u32,
) -> usize
    requires { Lent s.now × (b < 32) }
{
    let counts = numbers_of(s, b, lines);
    let k = rising as u64;
    for i in 1..=rising.min(8) as usize {
        if counts[i] != 1 {
            let numbers = [k, k, i as u64, counts[i] as u64];
            return put_form(
                out,
                at,
                b": # products are increased, to be numbered 1 to # once each; # is given # times",
                &numbers,
            );
        }
    }
    at
}

// 8 to 13: the first product that breaks the rule, and where there is none what the sums say.
fn put_rule(
    out: &mut [u8; ANSWER],
    at: usize,
    n: u8,
    s: &[u8; STATE],
    b: usize,
    lines: [Line; 8],
) -> usize
    requires { Lent s.now × (b < 32) }
{
    let ticks = held::ticks(s);
    let x = tally_of(s, &ticks, b, lines).sums;
    let f = book::free(s, b).0 as u32;
    let switches = x.switches(f);
    let switched = 0 < switches;
    if let Some(to) = put_products(out, at, n, s, &ticks, b, lines, switched) {
        return to;
    }
    match n {
        10 => put_bid(out, at, x, f),
        11 => put_withdrawn(out, at, x, switches),
        13 => put_numbered(out, at, s, b, lines, x.rising),
        _ => at,
    }
}

// ---- The card

// For counts that the sections have room for, as those of a standing state.
fn put_judged(
    out: &mut [u8; ANSWER],
    at: usize,
    n: u8,
    s: &[u8; STATE],
    bidder: u8,
    lines: [Line; 8],
) -> usize {
    let b = bidder as usize;
    if 8 < book::products(s) || 32 < book::bidders(s) || 8 < book::rows(s) || 31 < b {
        return at;
    }
    put_rule(out, at, n, s, b, lines)
}

fn of_bid(
    out: &mut [u8; ANSWER],
    at: usize,
    n: u8,
    s: &[u8; STATE],
    bidder: u8,
    round: u16,
    lines: [Line; 8],
) -> usize {
    let numbers = [round as u64, book::round(s) as u64];
    match n {
        6 => put_bidder(out, at, s, bidder),
        7 => put_form(
            out,
            at,
            b": the card is of round #, and this is round #",
            &numbers,
        ),
        8..=13 => put_judged(out, at, n, s, bidder, lines),
        _ => of_phase(out, at, n, s),
    }
}

pub fn of_card(out: &mut [u8; ANSWER], at: usize, n: u8, s: &[u8; STATE], card: &[u8]) -> usize {
    let products = book::products(s);
    let got = card::read(card, products);
    let lines = got.lines;
    let answer = got.card;
    match answer {
        Err(e) => {
            if n == e.number() {
                of_read(out, at, n, card, products)
            } else {
                of_phase(out, at, n, s)
            }
        }
        Ok(Bid { bidder, round }) => of_bid(out, at, n, s, bidder, round, lines),
    }
}
