// The head of the page: which auction it is, and its settings.
ghost use Rattle.std.specs.Prelude.{◌<◌};

use crate::rounds::cell;
use crate::style::put_style;
use audit::Played;
use layout::STATE;
use names::NAMES;
use paper::{
    fill, one, plural, put_bidder, put_counted, put_file_name, put_points, put_price, put_product,
    put_unit, room,
};
use rules::Phase;
use text::{ANSWER, put, put_named};

// ---- Which auction it is

fn put_phase(out: &mut [u8; ANSWER], at: usize, s: &[u8; STATE]) -> usize {
    let r = book::round(s) as u64;
    match Phase::of(book::phase(s)) {
        Phase::Issued => put(out, at, b"issued"),
        Phase::Open => put_named(out, at, b"open, round ", r),
        Phase::Closed => put_named(out, at, b"closed in round ", r),
        Phase::Stopped => put_named(out, at, b"stopped in round ", r),
    }
}

// A fact's name, and the cell that it is in.
fn put_fact(out: &mut [u8; ANSWER], at: usize, name: &[u8], what: &[u8]) -> usize {
    let a = put(out, at, b"<tr><th>");
    let b = put(out, a, name);
    let c = put(out, b, b"</th><td data-what=\"");
    let d = put(out, c, what);
    put(out, d, b"\">")
}

fn fact_ends(out: &mut [u8; ANSWER], at: usize) -> usize {
    put(out, at, b"</td></tr>\n")
}

fn put_journal(out: &mut [u8; ANSWER], at: usize, played: Played) -> usize {
    let mut to = put_fact(out, at, b"journal", b"lines");
    to = put_named(out, to, b"", played.lines);
    to = put(out, to, b" line");
    to = plural(out, to, played.lines);
    to = fact_ends(out, to);
    to = put_fact(out, to, b"its last sum", b"sum");
    to = put(out, to, &played.sum[..16]);
    to = put(out, to, b" .. (whole at the end)");
    fact_ends(out, to)
}

fn put_facts(
    out: &mut [u8; ANSWER],
    at: usize,
    s: &[u8; STATE],
    calculated: usize,
    returned: bool,
    played: Played,
) -> usize {
    let mut to = put(out, at, b"<table class=\"facts\"><tbody>\n");
    to = put_fact(out, to, b"phase", b"phase");
    to = put_phase(out, to, s);
    if returned {
        to = put(out, to, b"; the box is returned");
    }
    to = fact_ends(out, to);
    to = put_fact(out, to, b"rounds calculated", b"rounds");
    to = put_named(out, to, b"", calculated as u64);
    to = fact_ends(out, to);
    to = put_fact(out, to, b"prices counted in", b"unit");
    to = put_counted(out, to, book::unit(s));
    to = fact_ends(out, to);
    to = put_journal(out, to, played);
    put(out, to, b"</tbody></table>\n")
}

// ---- Settings

fn put_product_row(
    out: &mut [u8; ANSWER],
    at: usize,
    names: &[u8; NAMES],
    s: &[u8; STATE],
    p: usize,
) -> usize
    requires { p < 8 }
{
    let target = book::target(s, p);
    let cap = book::cap(s, p);
    let start = book::start(s, p).amount();
    let mut to = one(out, at, b"<tr data-product=\"#\"><th>", p as u64);
    to = put_product(out, to, names, p);
    to = put(out, to, b"</th>");
    to = cell(out, to, b"target", target.0 as u32);
    to = cell(out, to, b"cap", cap.0 as u32);
    to = cell(out, to, b"start", start);
    to = put(out, to, b"<td data-what=\"said\">");
    to = put_price(out, to, book::unit(s), start);
    put(out, to, b"</td></tr>\n")
}

fn put_bidder_cell(
    out: &mut [u8; ANSWER],
    at: usize,
    names: &[u8; NAMES],
    s: &[u8; STATE],
    b: usize,
) -> usize
    requires { b < 32 }
{
    if book::bidders(s) <= b {
        return put(out, at, b"<td></td><td></td>");
    }
    let eligibility = book::initial(s, b);
    let mut to = put(out, at, b"<td>");
    to = put_bidder(out, to, names, b);
    let numbers = [b as u64, eligibility.0 as u64];
    fill(out, to, b"</td><td data-eligibility=\"#\">#</td>", &numbers)
}

// Four bidders a line.
fn put_bidder_rows(
    out: &mut [u8; ANSWER],
    at: usize,
    names: &[u8; NAMES],
    s: &[u8; STATE],
) -> usize {
    let n = book::bidders(s);
    let mut to = at;
    for line in 0..8 {
        if n <= line * 4 {
            return to;
        }
        to = put(out, to, b"<tr>");
        for b in line * 4..line * 4 + 4 {
            to = put_bidder_cell(out, to, names, s, b);
        }
        to = put(out, to, b"</tr>\n");
    }
    to
}

fn put_percent(out: &mut [u8; ANSWER], at: usize, s: &[u8; STATE], i: usize) -> usize
    requires { i < 8 }
{
    let row = book::row(s, i);
    let numbers = [i as u64, row.percent as u64];
    fill(out, at, b"<td data-percent=\"#\">#</td>", &numbers)
}

fn put_decrement(out: &mut [u8; ANSWER], at: usize, s: &[u8; STATE], i: usize) -> usize
    requires { i < 8 }
{
    let row = book::row(s, i);
    let points = row.decrement;
    let a = one(out, at, b"<td data-decrement=\"#\">", i as u64);
    let b = put_points(out, a, points.0);
    put(out, b, b"</td>")
}

// The settings as the auction was opened.
pub fn put_settings(
    rt: &impl Print,
    out: &mut [u8; ANSWER],
    at: usize,
    names: &[u8; NAMES],
    s: &[u8; STATE],
) -> usize {
    let mut to = room(rt, out, at);
    let statewide = book::statewide(s);
    to = one(
        out,
        to,
        b"<section id=\"settings\">\n<h2>Settings</h2>\n<p>Statewide cap <b data-what=\"statewide\">#</b> tranches. Targets and caps in tranches.</p>\n<table class=\"wide\"><thead><tr><th>product</th><th>target</th><th>cap</th><th>starting price</th><th>",
        statewide.0 as u64,
    );
    to = put_unit(out, to, book::unit(s));
    to = put(out, to, b"</th></tr></thead><tbody>\n");
    for p in 0..book::products(s).min(8) {
        to = put_product_row(out, to, names, s, p);
    }
    to = put(
        out,
        to,
        b"</tbody></table>\n<table class=\"four\"><thead><tr><th colspan=\"8\">bidders, each with its initial eligibility</th></tr></thead><tbody>\n",
    );
    to = put_bidder_rows(out, to, names, s);
    to = put(
        out,
        to,
        b"</tbody></table>\n<table class=\"short\"><tbody>\n<tr><th>where held is above target by so many percent or more</th>",
    );
    let rows = book::rows(s).min(8);
    for i in 0..rows {
        to = put_percent(out, to, s, i);
    }
    to = put(
        out,
        to,
        b"</tr>\n<tr><th>the price falls by so many percent</th>",
    );
    for i in 0..rows {
        to = put_decrement(out, to, s, i);
    }
    put(out, to, b"</tr>\n</tbody></table>\n</section>\n")
}

// ---- The head

pub fn put_head(
    out: &mut [u8; ANSWER],
    at: usize,
    path: &[u8],
    s: &[u8; STATE],
    calculated: usize,
    returned: bool,
    played: Played,
) -> usize {
    let mut to = put(
        out,
        at,
        b"<!DOCTYPE html>\n<html lang=\"en\">\n<head>\n<meta charset=\"utf-8\"/>\n<title>Auction of box ",
    );
    to = put_file_name(out, to, path);
    to = put(out, to, b"</title>\n");
    to = put_style(out, to);
    to = put(
        out,
        to,
        b"</head>\n<body>\n<h1>Auction of box <span data-what=\"box\">",
    );
    to = put_file_name(out, to, path);
    to = put(out, to, b"</span></h1>\n");
    put_facts(out, to, s, calculated, returned, played)
}

// The whole sum, under everything else.
pub fn put_foot(out: &mut [u8; ANSWER], at: usize, played: Played) -> usize {
    let sum = played.sum;
    let mut to = put_named(
        out,
        at,
        b"<p class=\"sums\">Made from the journal's ",
        played.lines,
    );
    to = put(out, to, b" line");
    to = plural(out, to, played.lines);
    to = put(out, to, b"; its last sum is <span data-what=\"whole\">");
    to = put(out, to, &sum);
    put(out, to, b"</span></p>\n</body>\n</html>\n")
}
