// The commands that look at the state or at a card, and the suggested volume.
#![tactic(auto)]

use asked::{Numbers, One, ends, groups, one_byte, one_number, two_bytes};
use calls::{bytes_of, card_length, not_written, other_length, put_card, refused};
use check::same;
use layout::STATE;
use rules::Line;
use store::{Kind, number_on};
use text::{ANSWER, Cursor, put, put_named, word};
use view::put_refused;

// `ok N`
fn put_number(out: &mut [u8; ANSWER], n: u32) -> usize {
    let a = put_named(out, 0, b"ok ", n as u64);
    put(out, a, b"\n")
}

// Where more stands in the line, or the box has another length, how long what is said of that is; else 0.
fn unready(
    line: &[u8],
    c: Cursor,
    kind: Kind,
    state: &[u8; STATE],
    out: &mut [u8; ANSWER],
) -> usize {
    let more = ends(line, c, out);
    if more != 0 {
        return more;
    }
    other_length(kind, state, out)
}

// How many bidders are to file, or the length of the refusal.
#[derive(Clone, Copy)]
enum Asked {
    ToFile(u32),
    Said(usize),
}

fn to_file(
    line: &[u8],
    c: Cursor,
    kind: Kind,
    state: &[u8; STATE],
    out: &mut [u8; ANSWER],
) -> Asked {
    let wrong = unready(line, c, kind, state, out);
    if wrong != 0 {
        return Asked::Said(wrong);
    }
    match console::count(state) {
        Ok(n) => Asked::ToFile(n),
        Err(e) => Asked::Said(refused(e.number(), state, out)),
    }
}

fn count(line: &[u8], c: Cursor, kind: Kind, state: &[u8; STATE], out: &mut [u8; ANSWER]) -> usize {
    match to_file(line, c, kind, state, out) {
        Asked::ToFile(n) => put_number(out, n),
        Asked::Said(n) => n,
    }
}

// `ok N`, and who is still to file.
fn missing(
    line: &[u8],
    c: Cursor,
    kind: Kind,
    state: &[u8; STATE],
    out: &mut [u8; ANSWER],
) -> usize {
    match to_file(line, c, kind, state, out) {
        Asked::ToFile(n) => {
            let a = put_number(out, n);
            let b = put(out, a, b"  ");
            let d = view::put_waiting(out, b, state);
            put(out, d, b"\n")
        }
        Asked::Said(n) => n,
    }
}

// `filed B`: 6 as for a card.
fn filed_by(
    b: u32,
    line: &[u8],
    c: Cursor,
    kind: Kind,
    state: &[u8; STATE],
    out: &mut [u8; ANSWER],
) -> usize {
    match to_file(line, c, kind, state, out) {
        Asked::ToFile(_) => {
            if (b as usize) < book::bidders(state) {
                return view::card(out, state, b as usize);
            }
            no_bidder(one_byte(b), state, out)
        }
        Asked::Said(n) => n,
    }
}

fn no_bidder(bidder: u8, state: &[u8; STATE], out: &mut [u8; ANSWER]) -> usize {
    let a = put_refused(out, 6);
    let b = remark::of_report(out, a, 6, state, bidder);
    put(out, b, b"\n")
}

fn is_end(line: &[u8], c: Cursor) -> bool {
    let span = word(line, c);
    span.from == span.to
}

// `filed`, `filed B`
fn filed(line: &[u8], c: Cursor, kind: Kind, state: &[u8; STATE], out: &mut [u8; ANSWER]) -> usize {
    if !is_end(line, c) {
        return match one_number(line, c, out) {
            One::Number(b, next) => filed_by(b, line, next, kind, state, out),
            One::Said(n) => n,
        };
    }
    match to_file(line, c, kind, state, out) {
        Asked::ToFile(n) => view::cards(out, state, n),
        Asked::Said(n) => n,
    }
}

// `suggest BID RATIO`
fn suggest_for(bid: u32, line: &[u8], c: Cursor, out: &mut [u8; ANSWER]) -> usize {
    match one_number(line, c, out) {
        One::Number(ratio, next) => {
            let more = ends(line, next, out);
            if more != 0 {
                return more;
            }
            match console::suggested_volume(bid, ratio) {
                Ok(n) => put_number(out, n),
                Err(e) => {
                    let n = e.number();
                    let a = put_refused(out, n);
                    let b = remark::of_volume(out, a, n, bid, ratio);
                    put(out, b, b"\n")
                }
            }
        }
        One::Said(n) => n,
    }
}

fn suggest(line: &[u8], c: Cursor, out: &mut [u8; ANSWER]) -> usize {
    match one_number(line, c, out) {
        One::Number(bid, next) => suggest_for(bid, line, next, out),
        One::Said(n) => n,
    }
}

// "bids not open (for report: issued)"
fn report_refused(n: u8, bidder: u8, state: &[u8; STATE], out: &mut [u8; ANSWER]) -> usize {
    let a = if n == 3 {
        put(out, 0, b"refused 3 issued")
    } else {
        put_refused(out, n)
    };
    let b = remark::of_report(out, a, n, state, bidder);
    put(out, b, b"\n")
}

fn report_on(bidder: u8, state: &[u8; STATE], out: &mut [u8; ANSWER]) -> usize {
    let given = console::report(state, bidder);
    let report = given.report;
    if let Err(e) = report {
        return report_refused(e.number(), bidder, state, out);
    }
    view::report(out, state, bidder as usize, given)
}

// The reports to all bidders, one after the other.
fn put_reports(state: &[u8; STATE], out: &mut [u8; ANSWER]) -> usize {
    let n = book::bidders(state);
    let mut to = put_number(out, n as u32);
    for b in 0..n.min(32) {
        to = view::put_reported(out, to, state, b, console::report(state, b as u8));
    }
    to
}

// `report all`
fn report_all(state: &[u8; STATE], out: &mut [u8; ANSWER]) -> usize {
    let report = console::report(state, 0).report;
    if let Err(e) = report {
        return report_refused(e.number(), 0, state, out);
    }
    put_reports(state, out)
}

// `report B`
fn report_to(
    line: &[u8],
    c: Cursor,
    kind: Kind,
    state: &[u8; STATE],
    out: &mut [u8; ANSWER],
) -> usize {
    match one_number(line, c, out) {
        One::Number(b, next) => {
            let wrong = unready(line, next, kind, state, out);
            if wrong != 0 {
                return wrong;
            }
            report_on(one_byte(b), state, out)
        }
        One::Said(n) => n,
    }
}

fn report(
    line: &[u8],
    c: Cursor,
    kind: Kind,
    state: &[u8; STATE],
    out: &mut [u8; ANSWER],
) -> usize {
    let span = word(line, c);
    let e = span.to;
    if !same(&line[span.from..e], b"all") {
        return report_to(line, c, kind, state, out);
    }
    let wrong = unready(line, Cursor { at: e }, kind, state, out);
    if wrong != 0 {
        return wrong;
    }
    report_all(state, out)
}

fn result(
    line: &[u8],
    c: Cursor,
    kind: Kind,
    state: &[u8; STATE],
    out: &mut [u8; ANSWER],
) -> usize {
    let wrong = unready(line, c, kind, state, out);
    if wrong != 0 {
        return wrong;
    }
    let given = console::result(state);
    let award = given.award;
    if let Err(e) = award {
        return refused(e.number(), state, out);
    }
    view::result(out, state, given)
}

fn show(line: &[u8], c: Cursor, kind: Kind, state: &[u8; STATE], out: &mut [u8; ANSWER]) -> usize {
    let more = ends(line, c, out);
    if more != 0 {
        return more;
    }
    match number_on(kind, state) {
        0 => view::show(out, state),
        3 => put(out, 0, b"ok issued\n"),
        n => refused(n, state, out),
    }
}

// `read N HEX`
fn read(line: &[u8], c: Cursor, out: &mut [u8; ANSWER]) -> usize {
    match one_number(line, c, out) {
        One::Number(products, next) => {
            let mut card = [0u8; 1024];
            match asked::card(line, next, &mut card, out) {
                Numbers::Found(k) => read_bytes(&card[..k.min(1024)], products as usize, out),
                Numbers::Said(n) => n,
            }
        }
        One::Said(n) => n,
    }
}

fn read_bytes(card: &[u8], products: usize, out: &mut [u8; ANSWER]) -> usize {
    let got = console::read(card, products);
    let answer = got.card;
    if let Err(e) = answer {
        let n = e.number();
        let a = put_refused(out, n);
        let b = remark::of_read(out, a, n, card, products);
        return put(out, b, b"\n");
    }
    view::bid(out, got, products)
}

// A bid of so many products, as a card.
fn write_card(
    products: usize,
    bidder: u32,
    round: u32,
    lines: [Line; 8],
    out: &mut [u8; ANSWER],
) -> usize {
    let b = one_byte(bidder);
    let r = two_bytes(round);
    let k = card_length(products);
    let mut room = [0u8; 1024];
    match console::write(&mut room[0..k], products, b, r, lines) {
        Ok(()) => {
            let card = bytes_of(room);
            put_card(out, &card[0..k])
        }
        Err(e) => not_written(e.number(), products, b, r, lines, out),
    }
}

fn write_lines(
    products: u32,
    bidder: u32,
    line: &[u8],
    c: Cursor,
    out: &mut [u8; ANSWER],
) -> usize {
    match one_number(line, c, out) {
        One::Number(round, next) => {
            let asked = groups(line, next, out);
            if asked.said != 0 {
                return asked.said;
            }
            let lines = asked.lines;
            write_card(products as usize, bidder, round, lines, out)
        }
        One::Said(n) => n,
    }
}

// `write N B R T LOTS P ..`
fn write(line: &[u8], c: Cursor, out: &mut [u8; ANSWER]) -> usize {
    match one_number(line, c, out) {
        One::Number(products, at_bidder) => match one_number(line, at_bidder, out) {
            One::Number(bidder, next) => write_lines(products, bidder, line, next, out),
            One::Said(n) => n,
        },
        One::Said(n) => n,
    }
}

fn no_command(out: &mut [u8; ANSWER], at: usize) -> usize {
    text::wrong(out, b"no such command; help lists them", at)
}

// `help`, `help COMMAND`
fn help_on(line: &[u8], c: Cursor, out: &mut [u8; ANSWER]) -> usize {
    let span = word(line, c);
    let a = span.from;
    let e = span.to;
    if a == e {
        return help::put_all(out);
    }
    let more = ends(line, Cursor { at: e }, out);
    if more != 0 {
        return more;
    }
    match help::put_help(out, &line[a..e]) {
        Some(n) => n,
        None => no_command(out, a),
    }
}

// A command that changes nothing, by its word, which stands at a place.
pub fn look(
    w: &[u8],
    at: usize,
    line: &[u8],
    c: Cursor,
    kind: Kind,
    state: &[u8; STATE],
    out: &mut [u8; ANSWER],
) -> usize {
    match w {
        b"count" => count(line, c, kind, state, out),
        b"missing" => missing(line, c, kind, state, out),
        b"filed" => filed(line, c, kind, state, out),
        b"report" => report(line, c, kind, state, out),
        b"result" => result(line, c, kind, state, out),
        b"show" => show(line, c, kind, state, out),
        b"suggest" => suggest(line, c, out),
        b"read" => read(line, c, out),
        b"write" => write(line, c, out),
        b"help" | b"?" => help_on(line, c, out),
        _ => no_command(out, at),
    }
}
