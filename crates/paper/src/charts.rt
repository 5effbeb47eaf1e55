// The charts, in a tenth of a millimetre. A chart of many rounds has at most so many points, spread evenly over them.
ghost use Rattle.std.specs.Prelude.{◌<◌, IfSome};

use crate::form::{fill, one, put_price, put_unit, room};
use crate::series::{SERIES, held_at, price_at};
use crate::titles::put_product;
use layout::STATE;
use names::NAMES;
use std::array;
use text::{ANSWER, put};

const MOST: u16 = 400;

// ---- Numbers of a chart

fn plus(a: u64, b: u64) -> u64 {
    a.wrapping_add(b)
}

// How many points show so many rounds.
fn points_of(rounds: u16) -> u16 {
    rounds.min(MOST)
}

// a times b, divided by a third, and 0 where that is 0.
fn part(a: u32, by: u16, of: u32) -> u64 {
    if of == 0 {
        return 0;
    }
    a as u64 * by as u64 / of as u64
}

// The round of point i, of n points over so many rounds.
fn round_of(i: u16, n: u16, rounds: u16) -> u16 {
    let far = part(
        i as u32,
        rounds.saturating_sub(1),
        n.saturating_sub(1) as u32,
    );
    if far < 4095 {
        return far as u16 + 1;
    }
    4095
}

// How far from the left a round's point is: the first at 0, the last at the width.
fn across(r: u16, rounds: u16, width: u16) -> u64 {
    if rounds < 2 {
        return (width / 2) as u64;
    }
    part(r.saturating_sub(1) as u32, width, (rounds - 1) as u32)
}

// How far from the top a value is: `top` at 0, `base` at the height.
fn down(value: u32, base: u32, top: u32, height: u16) -> u64 {
    if top <= base {
        return 0;
    }
    if top <= value {
        return 0;
    }
    part(top - value, height, top - base)
}

// The least of 1, 2, 5, 10 .. of which `most` cover the range.
fn step_of(range: u32, most: u16) -> u32 {
    let steps = [
        1u32, 2, 5, 10, 20, 50, 100, 200, 500, 1000, 2000, 5000, 10000, 20000, 50000,
    ];
    steps
        .iter()
        .copied()
        .find(|step| range as u64 <= part(*step, most, 1))
        .unwrap_or(100000)
}

// The scale's lower and upper ends, and the step between its lines.
#[derive(Clone, Copy)]
struct Scale {
    base: u32,
    top: u32,
    step: u32,
}

fn below(value: u32, step: u32) -> u32 {
    if step == 0 {
        return value;
    }
    value - value % step
}

fn scale_of(low: u32, high: u32, most: u16) -> Scale {
    let range = high.wrapping_sub(low);
    let step = step_of(range, most);
    let base = below(low, step);
    let mut top = below(high, step);
    if (top < high) | (top == base) {
        top = top.wrapping_add(step);
    }
    Scale { base, top, step }
}

// ---- The price chart

const LEFT: u64 = 100;

const TOP: u64 = 48;

// The first point stands clear of the axis, the last of the edge.
const FIRST: u64 = 122;

const WIDTH: u16 = 1218;

const HEIGHT: u16 = 650;

const RIGHT: u64 = 1350;

const FOOT: u64 = 698;

fn price_y(value: u32, scale: Scale) -> u64 {
    plus(TOP, down(value, scale.base, scale.top, HEIGHT))
}

fn round_x(r: u16, rounds: u16) -> u64 {
    plus(FIRST, across(r, rounds, WIDTH))
}

fn put_price_line(out: &mut [u8; ANSWER], at: usize, unit: u8, value: u32, scale: Scale) -> usize {
    let y = price_y(value, scale);
    let numbers = [LEFT, y, RIGHT, LEFT - 12, plus(y, 9)];
    let a = fill(
        out,
        at,
        b"<path class=\"g\" d=\"M#,#H#\"/><text class=\"r\" x=\"#\" y=\"#\">",
        &numbers,
    );
    let b = put_price(out, a, unit, value);
    put(out, b, b"</text>\n")
}

// A line at each step of the scale.
fn put_lines<F: FnMut(&mut [u8; ANSWER], usize, u32) -> usize>(
    out: &mut [u8; ANSWER],
    at: usize,
    scale: Scale,
    most: usize,
    mut put_line: F,
) -> usize
    requires { F.IsAlwaysCallable put_line }
{
    let mut to = at;
    let mut value = scale.base;
    for _ in 0..most {
        if scale.top < value {
            return to;
        }
        to = put_line(out, to, value);
        value = value.wrapping_add(scale.step);
    }
    to
}

// Round numbers under a chart, each where it stands across: every step-th, and the first.
fn put_ticks<F: Fn(u16) -> u64>(
    out: &mut [u8; ANSWER],
    at: usize,
    rounds: u16,
    foot: u64,
    across: F,
) -> usize
    requires { F.IsAlwaysCallable across }
{
    let step = step_of(rounds as u32, 10);
    let mut to = at;
    let mut next: u32 = 1;
    for _ in 0..20 {
        if (next <= rounds as u32) & (next < 4096) {
            let r = next as u16;
            let x = across(r);
            let numbers = [x, foot, x, plus(foot, 36), r as u64];
            to = fill(
                out,
                to,
                b"<path class=\"a\" d=\"M#,#v8\"/><text class=\"c\" x=\"#\" y=\"#\">#</text>\n",
                &numbers,
            );
        }
        next = below(next, step).wrapping_add(step);
    }
    to
}

fn put_price_point(
    out: &mut [u8; ANSWER],
    at: usize,
    form: &[u8],
    prices: &[u32; SERIES],
    p: usize,
    r: u16,
    rounds: u16,
    scale: Scale,
) -> usize {
    let numbers = [
        round_x(r, rounds),
        price_y(price_at(prices, p, r as usize), scale),
    ];
    fill(out, at, form, &numbers)
}

fn put_curve(
    out: &mut [u8; ANSWER],
    at: usize,
    prices: &[u32; SERIES],
    p: usize,
    rounds: u16,
    scale: Scale,
) -> usize {
    let n = points_of(rounds);
    let mut to = at;
    for i in 0..n {
        to = put_price_point(
            out,
            to,
            b"#,# ",
            prices,
            p,
            round_of(i, n, rounds),
            rounds,
            scale,
        );
    }
    to
}

// The mark of a product: round, square, triangle or diamond, full for the first four and hollow for the others.
fn put_mark(
    out: &mut [u8; ANSWER],
    at: usize,
    prices: &[u32; SERIES],
    p: usize,
    r: u16,
    rounds: u16,
    scale: Scale,
) -> usize {
    let form: &[u8] = match p {
        0 | 4 => b"M#,#m-9,0a9,9 0 1,0 18,0a9,9 0 1,0-18,0z",
        1 | 5 => b"M#,#m-8-8h16v16h-16z",
        2 => b"M#,#m0-11l11,19h-22z",
        6 => b"M#,#m0,11l11-19h-22z",
        _ => b"M#,#m0-12l12,12-12,12-12-12z",
    };
    put_price_point(out, at, form, prices, p, r, rounds, scale)
}

// Every point has a mark where there are few, and else some six, at other points for each product; the last always has.
fn is_marked(i: u16, n: u16, p: usize) -> bool {
    if n <= 12 {
        return true;
    }
    if i.wrapping_add(1) == n {
        return true;
    }
    if 8 <= p {
        return false;
    }
    let every = n / 6;
    plus(i as u64, part(p as u32, every, 8)) % every as u64 == 0
}

fn put_marks(
    out: &mut [u8; ANSWER],
    at: usize,
    prices: &[u32; SERIES],
    p: usize,
    rounds: u16,
    scale: Scale,
) -> usize {
    let n = points_of(rounds);
    let mut to = at;
    for i in 0..n {
        if is_marked(i, n, p) {
            to = put_mark(out, to, prices, p, round_of(i, n, rounds), rounds, scale);
        }
    }
    to
}

// ---- Labels at the ends of the lines, none over another

const APART: u64 = 33;

// How many ends stand above that of p.
fn rank(y: [u64; 8], n: usize, p: usize) -> usize
    requires { p < 8 }
{
    (0..n.min(8))
        .filter(|q| (y[*q] < y[p]) | ((y[*q] == y[p]) & (*q < p)))
        .count()
}

// The product whose end is the k-th from above.
fn ranked(y: [u64; 8], n: usize, k: usize) -> Option<usize>
    ensures { IfSome result (λ p. p < 8) }
{
    (0..n.min(8)).position(|p| rank(y, n, p) == k)
}

fn apart(k: usize) -> u64 {
    if k < 8 {
        return k as u64 * APART;
    }
    0
}

// From above, each label at its end or below the label before it.
fn pushed_down(y: [u64; 8], n: usize) -> [u64; 8] {
    let mut placed = y;
    let mut next = TOP;
    for k in 0..8 {
        if let Some(p) = ranked(y, n, k) {
            let left = apart(n.wrapping_sub(1).wrapping_sub(k));
            let place = y[p].max(next).min(FOOT.saturating_sub(left));
            placed[p] = place;
            next = plus(place, APART);
        }
    }
    placed
}

// From below, each at its end or above the one after it.
fn pushed_up(y: [u64; 8], n: usize) -> [u64; 8] {
    let mut placed = y;
    let mut next = FOOT;
    for k in (0..8).rev() {
        if let Some(p) = ranked(y, n, k) {
            let place = y[p].min(next).max(plus(TOP, apart(k)));
            placed[p] = place;
            next = place.saturating_sub(APART);
        }
    }
    placed
}

// Between the two, so that a bunch of labels stands about its ends.
fn spread(y: [u64; 8], n: usize) -> [u64; 8] {
    let lower = pushed_down(y, n);
    let upper = pushed_up(y, n);
    array::from_fn(|p| plus(lower[p], upper[p]) / 2)
}

fn ends_of(prices: &[u32; SERIES], rounds: u16, scale: Scale) -> [u64; 8] {
    array::from_fn(|p| price_y(price_at(prices, p, rounds as usize), scale))
}

fn put_label(
    out: &mut [u8; ANSWER],
    at: usize,
    names: &[u8; NAMES],
    unit: u8,
    p: usize,
    price: u32,
    end: u64,
    label: u64,
    x: u64,
) -> usize {
    let numbers = [
        plus(x, 13),
        end,
        RIGHT + 36,
        label,
        RIGHT + 42,
        plus(label, 9),
    ];
    let mut to = fill(
        out,
        at,
        b"<path class=\"l\" d=\"M#,#L#,#\"/><text x=\"#\" y=\"#\">",
        &numbers,
    );
    to = put_price(out, to, unit, price);
    to = put(out, to, b" <tspan font-weight=\"bold\">");
    to = put_product(out, to, names, p);
    put(out, to, b"</tspan></text>\n")
}

fn put_series(
    rt: &impl Print,
    out: &mut [u8; ANSWER],
    at: usize,
    prices: &[u32; SERIES],
    p: usize,
    rounds: u16,
    scale: Scale,
) -> usize {
    let numbers = [p as u64, p as u64];
    let mut to = room(rt, out, at);
    to = fill(
        out,
        to,
        b"<g class=\"s#\" data-product=\"#\"><polyline points=\"",
        &numbers,
    );
    to = put_curve(out, to, prices, p, rounds, scale);
    to = put(out, to, b"\"/>\n<path d=\"");
    to = put_marks(out, to, prices, p, rounds, scale);
    put(out, to, b"\"/></g>\n")
}

fn put_labels(
    out: &mut [u8; ANSWER],
    at: usize,
    names: &[u8; NAMES],
    unit: u8,
    prices: &[u32; SERIES],
    products: usize,
    rounds: u16,
    scale: Scale,
) -> usize {
    let ends = ends_of(prices, rounds, scale);
    let places = spread(ends, products);
    let x = round_x(rounds, rounds);
    let mut to = at;
    for p in 0..products.min(8) {
        to = put_label(
            out,
            to,
            names,
            unit,
            p,
            price_at(prices, p, rounds as usize),
            ends[p],
            places[p],
            x,
        );
    }
    to
}

// Prices never rise: the highest is one of round 1, the lowest one of the last.
fn highest(prices: &[u32; SERIES], products: usize) -> u32 {
    (0..products.min(8)).fold(0, |most, p| most.max(price_at(prices, p, 1)))
}

fn lowest(prices: &[u32; SERIES], products: usize, rounds: u16) -> u32 {
    (0..products.min(8)).fold(100000, |least, p| {
        least.min(price_at(prices, p, rounds as usize))
    })
}

pub fn put_price_chart(
    rt: &impl Print,
    out: &mut [u8; ANSWER],
    at: usize,
    names: &[u8; NAMES],
    s: &[u8; STATE],
    rounds: u16,
    prices: &[u32; SERIES],
) -> usize {
    let products = book::products(s);
    let unit = book::unit(s);
    let scale = scale_of(
        lowest(prices, products, rounds),
        highest(prices, products),
        6,
    );
    let mut to = put(
        out,
        at,
        b"<svg id=\"prices\" viewBox=\"0 0 1820 780\" role=\"img\" aria-label=\"Prices by round\">\n<text x=\"0\" y=\"22\">",
    );
    to = put_unit(out, to, unit);
    to = put(out, to, b"</text>\n");
    to = put_lines(out, to, scale, 12, |out, to, value| {
        put_price_line(out, to, unit, value, scale)
    });
    let numbers = [LEFT, TOP, FOOT, RIGHT, RIGHT];
    to = fill(
        out,
        to,
        b"<path class=\"a\" d=\"M#,#V#H#\"/><text class=\"r\" x=\"#\" y=\"770\">round</text>\n",
        &numbers,
    );
    to = put_ticks(out, to, rounds, FOOT, |r| round_x(r, rounds));
    for p in 0..products.min(8) {
        to = put_series(rt, out, to, prices, p, rounds, scale);
    }
    to = put_labels(out, to, names, unit, prices, products, rounds, scale);
    put(out, to, b"</svg>\n")
}

// ---- Held against target, a chart a product

const HELD_LEFT: u64 = 62;

const HELD_TOP: u64 = 64;

const HELD_WIDTH: u16 = 700;

const HELD_HEIGHT: u16 = 250;

const HELD_RIGHT: u64 = 762;

const HELD_FOOT: u64 = 314;

fn held_y(value: u32, scale: Scale) -> u64 {
    plus(HELD_TOP, down(value, scale.base, scale.top, HELD_HEIGHT))
}

// Where the i-th of n bars begins.
fn bar_x(i: u16, n: u16) -> u64 {
    plus(HELD_LEFT, part(i as u32, HELD_WIDTH, n as u32))
}

// The middle of a round's bar.
fn middle(r: u16, rounds: u16) -> u64 {
    let halves = r.saturating_sub(1) as u32 * 2 + 1;
    plus(HELD_LEFT, part(halves, HELD_WIDTH, rounds as u32 * 2))
}

fn most_held(helds: &[u16; SERIES], p: usize, rounds: u16) -> u32 {
    (1..=rounds as usize).fold(0, |most, r| most.max(held_at(helds, p, r)))
}

// Few bars stand apart, with what is held over each.
fn put_bar(out: &mut [u8; ANSWER], at: usize, i: u16, n: u16, held: u32, scale: Scale) -> usize {
    let x = bar_x(i, n);
    let next = bar_x(i.wrapping_add(1), n);
    let slot = next.saturating_sub(x);
    let gap = if n <= 60 { slot / 6 } else { 0 };
    let numbers = [
        plus(x, gap),
        HELD_FOOT,
        held_y(held, scale),
        slot.saturating_sub(plus(gap, gap)),
        HELD_FOOT,
    ];
    fill(out, at, b"M#,#V#h#V#", &numbers)
}

fn put_bars(
    out: &mut [u8; ANSWER],
    at: usize,
    helds: &[u16; SERIES],
    p: usize,
    rounds: u16,
    scale: Scale,
) -> usize {
    let n = points_of(rounds);
    let mut to = at;
    for i in 0..n {
        let r = round_of(i, n, rounds);
        to = put_bar(out, to, i, n, held_at(helds, p, r as usize), scale);
    }
    to
}

fn put_counts(
    out: &mut [u8; ANSWER],
    at: usize,
    helds: &[u16; SERIES],
    p: usize,
    rounds: u16,
    scale: Scale,
) -> usize {
    let mut to = at;
    for r in 1..=rounds.min(14) {
        let held = held_at(helds, p, r as usize);
        let numbers = [
            middle(r, rounds),
            held_y(held, scale).saturating_sub(8),
            held as u64,
        ];
        to = fill(
            out,
            to,
            b"<text class=\"c\" x=\"#\" y=\"#\">#</text>\n",
            &numbers,
        );
    }
    to
}

fn put_held_line(out: &mut [u8; ANSWER], at: usize, value: u32, scale: Scale) -> usize {
    let y = held_y(value, scale);
    let numbers = [
        HELD_LEFT,
        y,
        HELD_RIGHT,
        HELD_LEFT - 10,
        plus(y, 9),
        value as u64,
    ];
    fill(
        out,
        at,
        b"<path class=\"g\" d=\"M#,#H#\"/><text class=\"r\" x=\"#\" y=\"#\">#</text>\n",
        &numbers,
    )
}

// The target, and before a cutback what it was in round 1.
fn put_target(
    out: &mut [u8; ANSWER],
    at: usize,
    first: u32,
    target: u32,
    rounds: u16,
    scale: Scale,
) -> usize {
    let y = held_y(target, scale);
    let numbers = [
        HELD_LEFT,
        held_y(first, scale),
        bar_x(1, rounds),
        y,
        HELD_RIGHT,
        HELD_RIGHT + 8,
        plus(y, 2),
        HELD_RIGHT + 8,
        plus(y, 28),
        target as u64,
    ];
    fill(
        out,
        at,
        b"<path class=\"t\" d=\"M#,#H#V#H#\"/><text x=\"#\" y=\"#\">target</text><text x=\"#\" y=\"#\">#</text>\n",
        &numbers,
    )
}

fn put_held_chart(
    rt: &impl Print,
    out: &mut [u8; ANSWER],
    at: usize,
    names: &[u8; NAMES],
    opened: &[u8; STATE],
    s: &[u8; STATE],
    p: usize,
    rounds: u16,
    helds: &[u16; SERIES],
) -> usize
    requires { p < 8 }
{
    let first = book::target(opened, p).0 as u32;
    let target = book::target(s, p).0 as u32;
    let most = most_held(helds, p, rounds);
    let scale = scale_of(0, most.max(first), 4);
    let mut to = room(rt, out, at);
    to = one(
        out,
        to,
        b"<svg viewBox=\"0 0 880 366\" role=\"img\" aria-label=\"Held against target\" data-product=\"#\">\n<text class=\"h\" x=\"0\" y=\"26\">",
        p as u64,
    );
    to = put_product(out, to, names, p);
    to = put(out, to, b"</text>\n");
    to = put_lines(out, to, scale, 8, |out, to, value| {
        put_held_line(out, to, value, scale)
    });
    to = put(out, to, b"<path class=\"b\" d=\"");
    to = put_bars(out, to, helds, p, rounds, scale);
    to = put(out, to, b"\"/>\n");
    let numbers = [HELD_LEFT, HELD_TOP, HELD_FOOT, HELD_RIGHT];
    to = fill(out, to, b"<path class=\"a\" d=\"M#,#V#H#\"/>\n", &numbers);
    to = put_ticks(out, to, rounds, HELD_FOOT, |r| middle(r, rounds));
    to = put_target(out, to, first, target, rounds, scale);
    if rounds < 15 {
        to = put_counts(out, to, helds, p, rounds, scale);
    }
    put(out, to, b"</svg>\n")
}

pub fn put_held_charts(
    rt: &impl Print,
    out: &mut [u8; ANSWER],
    at: usize,
    names: &[u8; NAMES],
    opened: &[u8; STATE],
    s: &[u8; STATE],
    rounds: u16,
    helds: &[u16; SERIES],
) -> usize {
    let n = book::products(s);
    let mut to = put(out, at, b"<div class=\"pair\">\n");
    for p in 0..n.min(8) {
        to = put_held_chart(rt, out, to, names, opened, s, p, rounds, helds);
    }
    put(out, to, b"</div>\n")
}
