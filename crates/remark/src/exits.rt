// 12: the first lot of a product that is against it, and what would be allowed there.
ghost use Rattle.std.specs.Prelude.{◌≡◌, ◌<◌, not, is_some, IfSome};
ghost use Rattle.rules.specs.Lots.{exits_fit};

use crate::put_allowed;
use bids::exit_limits;
use layout::STATE;
use rules::{Limits, Lot, Lots};
use text::ANSWER;
use view::put_form;

// The place of that lot, 0 to 3; none where number 12 is not given. By the tests of `Lots::exits_fit`, lot by lot.
fn first_wrong(l: Lots, p: u32, q: u32) -> Option<usize>
    ensures found { is_some result ≡ not (exits_fit p q l) }
    ensures small { IfSome result (λ k. k < 4) }
{
    if !(l.one.leads() & l.one.exit_fits(p, q)) {
        return Some(0);
    }
    if !(l.two.follows(l.one) & l.two.exit_fits(p, q)) {
        return Some(1);
    }
    if !(l.three.follows(l.two) & l.three.exit_fits(p, q)) {
        return Some(2);
    }
    if !(l.four.follows(l.three) & l.four.exit_fits(p, q)) {
        return Some(3);
    }
    None
}

// An unused lot with a price.
fn put_unused(out: &mut [u8; ANSWER], at: usize, p: u64, i: u64, lot: Lot) -> usize {
    let numbers = [p, i, lot.exit as u64];
    put_form(
        out,
        at,
        b": product %, lot #, exit # where nothing is withdrawn; 0 is allowed",
        &numbers,
    )
}

// What the exit price of a used lot behind another may be: above that one's, which is above p already, and at most q.
fn above(last: Lot, q: u32) -> Limits {
    Limits {
        least: last.exit.wrapping_add(1),
        most: q,
    }
}

// A used lot that does not go with the one before it.
fn put_after(
    out: &mut [u8; ANSWER],
    at: usize,
    p: u64,
    i: u64,
    lot: Lot,
    last: Lot,
    q: u32,
) -> usize {
    let before = i.wrapping_sub(1);
    if last.count.0 == 0 {
        let numbers = [p, i, before];
        return put_form(
            out,
            at,
            b": product %, lot # where lot # is unused; used lots come first",
            &numbers,
        );
    }
    let numbers = [p, i, lot.exit as u64, before, last.exit as u64];
    let a = put_form(
        out,
        at,
        b": product %, lot #, exit # where lot # has #",
        &numbers,
    );
    put_allowed(out, a, above(last, q))
}

pub fn put_exit(out: &mut [u8; ANSWER], at: usize, s: &[u8; STATE], p: usize, l: Lots) -> usize
    requires { p < 8 }
{
    let price = book::price(s, p);
    let before = book::before(s, p);
    let low = price.amount();
    let high = before.amount();
    let Some(k) = first_wrong(l, low, high) else {
        return at;
    };
    let lot = l.at(k);
    let i = k as u64 + 1;
    if lot.count.0 == 0 {
        return put_unused(out, at, p as u64, i, lot);
    }
    let mut allowed = exit_limits(price, before);
    if 0 < k {
        let last = l.at(k - 1);
        if (last.count.0 == 0) | lot.exit_fits(low, high) {
            return put_after(out, at, p as u64, i, lot, last, high);
        }
        allowed = above(last, high);
    }
    let numbers = [p as u64, i, lot.exit as u64, low as u64, high as u64];
    let a = put_form(
        out,
        at,
        b": product %, lot #, exit # where # is the price and # the price before",
        &numbers,
    );
    put_allowed(out, a, allowed)
}
