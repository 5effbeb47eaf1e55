// What stands in the box: 1, 2, 3, 16, 17 and 18.
use crate::last_of;
use layout::STATE;
use rules::Phase;
use text::{ANSWER, put};
use view::put_form;

// 3 and 16
fn put_standing(out: &mut [u8; ANSWER], at: usize, s: &[u8; STATE]) -> usize {
    match Phase::of(book::phase(s)) {
        Phase::Issued => put(out, at, b": the box is issued"),
        Phase::Open => put(out, at, b": the auction is open"),
        Phase::Closed => put(out, at, b": the auction is closed"),
        Phase::Stopped => put(out, at, b": the auction is stopped"),
    }
}

// The first byte that is not zero.
fn put_byte(out: &mut [u8; ANSWER], at: usize, s: &[u8; STATE]) -> usize {
    match s.iter().position(|x| *x != 0) {
        Some(i) => put_form(out, at, b": byte # is #", &[i as u64, s[i] as u64]),
        None => at,
    }
}

// 17: the auction that stands, or a byte.
fn put_left(out: &mut [u8; ANSWER], at: usize, s: &[u8; STATE]) -> usize {
    if numbers::state_number(s).is_err() {
        return put_byte(out, at, s);
    }
    let numbers = [book::round(s) as u64];
    match Phase::of(book::phase(s)) {
        Phase::Issued => at,
        Phase::Open => put_form(out, at, b": an auction is open, in round #", &numbers),
        Phase::Closed => put(out, at, b": an auction is closed"),
        Phase::Stopped => put(out, at, b": an auction is stopped"),
    }
}

pub fn of_phase(out: &mut [u8; ANSWER], at: usize, n: u8, s: &[u8; STATE]) -> usize {
    let numbers = [STATE as u64];
    match n {
        1 => put_form(out, at, b": a box has # bytes", &numbers),
        2 => put(out, at, b": only return can be done with it"),
        3 | 16 => put_standing(out, at, s),
        17 => put_left(out, at, s),
        18 => put(out, at, b": round 1 is not calculated yet"),
        _ => at,
    }
}

// 6
pub fn put_bidder(out: &mut [u8; ANSWER], at: usize, s: &[u8; STATE], bidder: u8) -> usize {
    let numbers = [bidder as u64, last_of(book::bidders(s))];
    put_form(out, at, b": bidder &, and the bidders are 0 to #", &numbers)
}

pub fn of_report(out: &mut [u8; ANSWER], at: usize, n: u8, s: &[u8; STATE], bidder: u8) -> usize {
    match n {
        // "bids not open (for report: issued)"
        3 => put(out, at, b": no auction is open"),
        6 => put_bidder(out, at, s, bidder),
        _ => of_phase(out, at, n, s),
    }
}
