// Lots, as they are typed and in words.
use crate::price::{put_figure, put_per};
use crate::put_form;
use rules::{Lot, Lots};
use text::{ANSWER, put, put_named};

// One more of a list that begins at `first`.
pub fn put_comma(out: &mut [u8; ANSWER], to: usize, first: usize, comma: &[u8]) -> usize {
    if to == first {
        return to;
    }
    put(out, to, comma)
}

// `COUNT@PRICE,COUNT@PRICE`, up to the last that is not 0@0, or `-` for none.
pub fn put_lots(out: &mut [u8; ANSWER], at: usize, l: Lots) -> usize {
    let lots = [l.one, l.two, l.three, l.four];
    let Some(last) = lots.iter().rposition(|lot| !lot.is_zero()) else {
        return put(out, at, b"-");
    };
    let mut to = at;
    for lot in &lots[..=last] {
        let a = put_comma(out, to, at, b",");
        let numbers = [lot.count.0 as u64, lot.exit as u64];
        to = put_form(out, a, b"#@#", &numbers);
    }
    to
}

// `N`, or `N of M` where the lot had more.
fn put_part(out: &mut [u8; ANSWER], at: usize, lot: Lot, of: Lot) -> usize {
    let numbers = [lot.count.0 as u64, of.count.0 as u64];
    if lot.count.0 < of.count.0 {
        return put_form(out, at, b"# of #", &numbers);
    }
    put_form(out, at, b"#", &numbers)
}

// `N WHAT PRICE, N at PRICE`: the used lots, and of which they are a part. `what` ends in `at `.
pub fn put_parts(out: &mut [u8; ANSWER], at: usize, l: Lots, of: Lots, what: &[u8]) -> usize {
    let mut to = at;
    for i in 0..4 {
        let lot = l.at(i);
        if 0 < lot.count.0 {
            let a = put_comma(out, to, at, b", ");
            let b = put_part(out, a, lot, of.at(i));
            let c = put(out, b, if to == at { what } else { b" at " });
            to = put_named(out, c, b"", lot.exit as u64);
        }
    }
    to
}

// The prices of the used lots as people say them: `9.000, 9.100 cents per kWh`.
pub fn put_exits(out: &mut [u8; ANSWER], at: usize, unit: u8, l: Lots) -> usize {
    let mut to = at;
    for lot in [l.one, l.two, l.three, l.four] {
        if 0 < lot.count.0 {
            let a = put_comma(out, to, at, b", ");
            to = put_figure(out, a, unit, lot.exit);
        }
    }
    put_per(out, to, unit)
}

// Both: `3 retained at 9000, 2 of 3 at 9100 = 9.000, 9.100 cents per kWh`.
pub fn put_told(
    out: &mut [u8; ANSWER],
    at: usize,
    unit: u8,
    l: Lots,
    of: Lots,
    what: &[u8],
) -> usize {
    let a = put_parts(out, at, l, of, what);
    let b = put(out, a, b" = ");
    put_exits(out, b, unit, l)
}
