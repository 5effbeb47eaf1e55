// A card and its fields: 4, 5, 29 and 30.
use crate::put_outside;
use card::{MOST_BIDDER, MOST_EXIT, MOST_PRIORITY, MOST_ROUND, MOST_TRANCHES, field_limits, up_to};
use rules::{Line, Lot, Lots};
use text::{ANSWER, put, put_hex};
use view::put_form;

// 4
fn put_length(out: &mut [u8; ANSWER], at: usize, card: &[u8], products: usize) -> usize {
    if 8 < products {
        return at;
    }
    let numbers = [
        card.len() as u64,
        products as u64,
        card::length_for(products) as u64,
    ];
    put_form(
        out,
        at,
        b": # bytes, and a card of # products has #",
        &numbers,
    )
}

// 5
fn put_filling(out: &mut [u8; ANSWER], at: usize, card: &[u8], products: usize) -> usize {
    let k = card.len();
    if k == 0 {
        return at;
    }
    if 8 < products {
        return at;
    }
    let a = put(out, at, b": the last byte is ");
    let b = put_hex(out, a, &card[k - 1..k]);
    let numbers = [card::filling_for(products) as u64];
    put_form(out, b, b", and its last # bits have to be 0", &numbers)
}

// 29
fn put_count(out: &mut [u8; ANSWER], at: usize, products: usize) -> usize {
    let numbers = [products as u64];
    put_form(out, at, b": # products", &numbers)
}

pub fn of_read(out: &mut [u8; ANSWER], at: usize, n: u8, card: &[u8], products: usize) -> usize {
    match n {
        4 => put_length(out, at, card, products),
        5 => put_filling(out, at, card, products),
        29 => put_count(out, at, products),
        _ => at,
    }
}

fn put_lot(
    out: &mut [u8; ANSWER],
    at: usize,
    products: usize,
    p: usize,
    i: usize,
    l: Lot,
) -> Option<usize> {
    let lot = (i as u64).wrapping_add(1);
    let count = l.count.0 as u32;
    let tranches = field_limits(products, p, MOST_TRANCHES);
    let exit = field_limits(products, p, MOST_EXIT);
    put_outside(
        out,
        at,
        b": product %, lot #, withdrawn #",
        &[p as u64, lot, count as u64],
        count,
        tranches,
    )
    .or_else(|| {
        put_outside(
            out,
            at,
            b": product %, lot #, exit #",
            &[p as u64, lot, l.exit as u64],
            l.exit,
            exit,
        )
    })
}

// The first lot that does not fit.
fn put_lots(
    out: &mut [u8; ANSWER],
    at: usize,
    products: usize,
    p: usize,
    l: Lots,
) -> Option<usize> {
    (0..4).find_map(|i| put_lot(out, at, products, p, i, l.at(i)))
}

// The first field of a line that does not fit.
fn put_line(
    out: &mut [u8; ANSWER],
    at: usize,
    products: usize,
    p: usize,
    l: Line,
) -> Option<usize> {
    let bid = l.tranches.0 as u32;
    let priority = l.priority as u32;
    put_outside(
        out,
        at,
        b": product %, tranches #",
        &[p as u64, bid as u64],
        bid,
        field_limits(products, p, MOST_TRANCHES),
    )
    .or_else(|| put_lots(out, at, products, p, l.withdrawn))
    .or_else(|| {
        put_outside(
            out,
            at,
            b": product %, priority #",
            &[p as u64, priority as u64],
            priority,
            field_limits(products, p, MOST_PRIORITY),
        )
    })
}

// 30
fn put_field(
    out: &mut [u8; ANSWER],
    at: usize,
    products: usize,
    bidder: u8,
    round: u16,
    lines: [Line; 8],
) -> Option<usize> {
    let b = bidder as u32;
    let r = round as u32;
    put_outside(out, at, b": bidder &", &[b as u64], b, up_to(MOST_BIDDER))
        .or_else(|| put_outside(out, at, b": round #", &[r as u64], r, up_to(MOST_ROUND)))
        .or_else(|| (0..8).find_map(|p| put_line(out, at, products, p, lines[p])))
}

pub fn of_write(
    out: &mut [u8; ANSWER],
    at: usize,
    n: u8,
    products: usize,
    bidder: u8,
    round: u16,
    lines: [Line; 8],
) -> usize {
    match n {
        29 => put_count(out, at, products),
        30 => put_field(out, at, products, bidder, round, lines).unwrap_or(at),
        _ => at,
    }
}
