// The tables of the rounds: what stood after each, product by product, and under it what became of each bidder's bid.
ghost use Rattle.std.specs.Prelude.{◌<◌};

use layout::STATE;
use names::NAMES;
use paper::{fill, is_cut, one, put_bidder, put_price, put_product, put_unit, room};
use rules::Lots;
use story::{Moves, moves_of};
use text::{ANSWER, put};

// ---- What was done, summed

// As the moves of a bidder on a product, of all lots together.
#[derive(Clone, Copy, Default)]
struct Sums {
    bid: u32,
    retained: u32,
    denied: u32,
    cancelled: u32,
    deemed: u32,
    freed: u32,
    gone: u32,
}

fn sums_of(m: Moves) -> Sums {
    Sums {
        bid: m.bid,
        retained: m.retained.total(),
        denied: m.denied,
        cancelled: m.cancelled,
        deemed: m.deemed,
        freed: m.freed,
        gone: m.gone.total(),
    }
}

fn added(a: Sums, b: Sums) -> Sums {
    Sums {
        bid: a.bid.wrapping_add(b.bid),
        retained: a.retained.wrapping_add(b.retained),
        denied: a.denied.wrapping_add(b.denied),
        cancelled: a.cancelled.wrapping_add(b.cancelled),
        deemed: a.deemed.wrapping_add(b.deemed),
        freed: a.freed.wrapping_add(b.freed),
        gone: a.gone.wrapping_add(b.gone),
    }
}

// Of all bidders on a product.
fn on_product(before: &[u8; STATE], after: &[u8; STATE], p: usize) -> Sums
    requires { p < 8 }
{
    (0..book::bidders(before).min(32)).fold(Sums::default(), |sum, b| {
        added(sum, sums_of(moves_of(before, after, b, p)))
    })
}

// Of a bidder on all products.
fn of_bidder(before: &[u8; STATE], after: &[u8; STATE], b: usize) -> Sums
    requires { b < 32 }
{
    (0..book::products(before).min(8)).fold(Sums::default(), |sum, p| {
        added(sum, sums_of(moves_of(before, after, b, p)))
    })
}

fn in_all(before: &[u8; STATE], after: &[u8; STATE]) -> Sums {
    (0..book::products(before).min(8)).fold(Sums::default(), |sum, p| {
        added(sum, on_product(before, after, p))
    })
}

// Tranches kept in step 2, and outbid in step 4.
fn kept(m: Sums) -> u32 {
    m.retained.wrapping_add(m.denied)
}

fn outbid(m: Sums) -> u32 {
    m.freed.wrapping_add(m.gone)
}

// Whether more was done than to take the bids as they are.
fn is_eventful(m: Sums) -> bool {
    (kept(m) != 0) | (outbid(m) != 0) | (m.cancelled != 0) | (m.deemed != 0)
}

pub fn has_events(before: &[u8; STATE], after: &[u8; STATE]) -> bool {
    is_eventful(in_all(before, after))
}

// ---- The products of a round

// A cell of the table, by what it says.
pub fn cell(out: &mut [u8; ANSWER], at: usize, what: &[u8], n: u32) -> usize {
    let a = put(out, at, b"<td data-what=\"");
    let b = put(out, a, what);
    if n == 0 {
        return put(out, b, b"\" class=\"z\">0</td>");
    }
    one(out, b, b"\">#</td>", n as u64)
}

// What is held above the target, or below it.
pub fn put_standing(out: &mut [u8; ANSWER], at: usize, held: u32, target: u32) -> usize {
    if held < target {
        return one(
            out,
            at,
            b"<td data-what=\"excess\">short #</td>",
            (target - held) as u64,
        );
    }
    cell(out, at, b"excess", held - target)
}

// A price as the box counts it, and as people say it, with what is to be said of it.
pub fn put_prices(out: &mut [u8; ANSWER], at: usize, unit: u8, amount: u32, after: &[u8]) -> usize {
    let a = one(
        out,
        at,
        b"<td data-what=\"price\">#</td><td data-what=\"said\">",
        amount as u64,
    );
    let b = put_price(out, a, unit, amount);
    let c = put(out, b, after);
    put(out, c, b"</td>")
}

fn put_row(
    out: &mut [u8; ANSWER],
    at: usize,
    names: &[u8; NAMES],
    before: &[u8; STATE],
    after: &[u8; STATE],
    p: usize,
) -> usize
    requires { p < 8 }
{
    let m = on_product(before, after, p);
    let price = book::price(before, p).amount();
    let target = book::target(before, p);
    let held = story::held_of(after, p);
    let numbers = [book::round(before) as u64, p as u64];
    let mut to = fill(
        out,
        at,
        b"<tr data-round=\"#\" data-product=\"#\"><th>",
        &numbers,
    );
    to = put_product(out, to, names, p);
    to = put(out, to, b"</th>");
    let said: &[u8] = if book::mark(before, p) != 0 {
        b" overridden"
    } else {
        b""
    };
    to = put_prices(out, to, book::unit(before), price, said);
    to = cell(out, to, b"bid", m.bid);
    to = cell(out, to, b"held", held);
    to = cell(out, to, b"target", target.0 as u32);
    to = put_standing(out, to, held, target.0 as u32);
    to = cell(out, to, b"retained", m.retained);
    to = cell(out, to, b"denied", m.denied);
    to = cell(out, to, b"cancelled", m.cancelled);
    to = cell(out, to, b"deemed", m.deemed);
    to = cell(out, to, b"outbid", outbid(m));
    put(out, to, b"</tr>\n")
}

fn put_products(
    out: &mut [u8; ANSWER],
    at: usize,
    names: &[u8; NAMES],
    before: &[u8; STATE],
    after: &[u8; STATE],
) -> usize {
    let mut to = put(
        out,
        at,
        b"<table class=\"wide\"><thead><tr><th>product</th><th>price</th><th>",
    );
    to = put_unit(out, to, book::unit(before));
    to = put(
        out,
        to,
        b"</th><th>bid</th><th>held</th><th>target</th><th>excess</th><th>re&#173;tained</th><th>denied</th><th>can&#173;celled</th><th>deemed bid</th><th>outbid</th></tr></thead><tbody>\n",
    );
    for p in 0..book::products(before).min(8) {
        to = put_row(out, to, names, before, after, p);
    }
    put(out, to, b"</tbody></table>\n")
}

// ---- The bidders of a round

// The bidders without a card, each after a form with its number: ` 3 Delta, 5`
pub fn put_unfiled(
    out: &mut [u8; ANSWER],
    at: usize,
    names: &[u8; NAMES],
    s: &[u8; STATE],
    form: &[u8],
) -> usize {
    let mut to = at;
    for b in 0..book::bidders(s).min(32) {
        if !book::has_filed(s, b) {
            to = one(out, to, form, b as u64);
            to = put_bidder(out, to, names, b);
            to = put(out, to, b"</span>");
        }
    }
    to
}

// `N of WHOLE WORDS 0 PSE&G at PRICE`, of what is done on a product: a part says of how many, and the price is of that unit. The words end
// in `product`.
fn put_move(
    out: &mut [u8; ANSWER],
    at: usize,
    names: &[u8; NAMES],
    p: usize,
    what: &[u8],
    n: u32,
    whole: Option<u32>,
    words: &[u8],
    price: Option<(u8, u32)>,
) -> usize {
    if n == 0 {
        return at;
    }
    let mut to = one(out, at, b" <span data-product=\"#\" data-what=\"", p as u64);
    to = put(out, to, what);
    to = one(out, to, b"\"><b>#</b> ", n as u64);
    if let Some(all) = whole {
        to = one(out, to, b"of # ", all as u64);
    }
    to = put(out, to, words);
    to = put_product(out, to, names, p);
    if let Some((unit, amount)) = price {
        to = one(out, to, b" at <i data-price=\"#\">", amount as u64);
        to = put_price(out, to, unit, amount);
        to = put(out, to, b"</i>");
    }
    put(out, to, b"</span>")
}

// Each lot by itself, at its price; of how many, where it is a part.
fn put_lots(
    out: &mut [u8; ANSWER],
    at: usize,
    names: &[u8; NAMES],
    p: usize,
    what: &[u8],
    l: Lots,
    of: Lots,
    words: &[u8],
    unit: u8,
) -> usize {
    let mut to = at;
    for i in 0..4 {
        let lot = l.at(i);
        let n = lot.count.0 as u32;
        let all = of.at(i).count.0 as u32;
        let whole = if n < all { Some(all) } else { None };
        to = put_move(
            out,
            to,
            names,
            p,
            what,
            n,
            whole,
            words,
            Some((unit, lot.exit)),
        );
    }
    to
}

fn put_moves(
    out: &mut [u8; ANSWER],
    at: usize,
    names: &[u8; NAMES],
    before: &[u8; STATE],
    after: &[u8; STATE],
    b: usize,
    p: usize,
) -> usize
    requires { (b < 32) × (p < 8) }
{
    let m = moves_of(before, after, b, p);
    let unit = book::unit(before);
    let q = book::before(after, p).amount();
    let going = book::price(before, p).amount();
    let mut to = put_lots(
        out,
        at,
        names,
        p,
        b"retained",
        m.retained,
        m.withdrawn,
        b"retained on product ",
        unit,
    );
    to = put_move(
        out,
        to,
        names,
        p,
        b"denied",
        m.denied,
        None,
        b"denied, held on product ",
        Some((unit, q)),
    );
    to = put_move(
        out,
        to,
        names,
        p,
        b"cancelled",
        m.cancelled,
        None,
        b"of the increase cancelled on product ",
        None,
    );
    to = put_move(
        out,
        to,
        names,
        p,
        b"deemed",
        m.deemed,
        None,
        b"deemed bid on product ",
        Some((unit, going)),
    );
    to = put_move(
        out,
        to,
        names,
        p,
        b"freed",
        m.freed,
        None,
        b"denied outbid, free again, on product ",
        None,
    );
    put_lots(
        out,
        to,
        names,
        p,
        b"gone",
        m.gone,
        m.stood,
        b"retained outbid, gone, on product ",
        unit,
    )
}

fn put_bidder_moves(
    out: &mut [u8; ANSWER],
    at: usize,
    names: &[u8; NAMES],
    before: &[u8; STATE],
    after: &[u8; STATE],
    b: usize,
) -> usize
    requires { b < 32 }
{
    if !is_eventful(of_bidder(before, after, b)) {
        return at;
    }
    let numbers = [book::round(before) as u64, b as u64];
    let start = fill(
        out,
        at,
        b"<p class=\"moves\" data-round=\"#\" data-bidder=\"#\"><b>bidder ",
        &numbers,
    );
    let named = put_bidder(out, start, names, b);
    let mut to = put(out, named, b"</b>:");
    for p in 0..book::products(before).min(8) {
        to = put_moves(out, to, names, before, after, b, p);
    }
    put(out, to, b"</p>\n")
}

// ---- A round

pub fn all_filed(s: &[u8; STATE]) -> bool {
    u32::count_ones(book::filed(s)) == book::bidders(s) as u32
}

// `kept 1, outbid 0; total excess supply after it 6; default bids: none`
fn put_summary(
    out: &mut [u8; ANSWER],
    at: usize,
    names: &[u8; NAMES],
    before: &[u8; STATE],
    after: &[u8; STATE],
) -> usize {
    let m = in_all(before, after);
    let numbers = [
        m.bid as u64,
        kept(m) as u64,
        outbid(m) as u64,
        story::excess_of(after) as u64,
    ];
    let mut to = fill(
        out,
        at,
        b"<p class=\"sum\"><span data-what=\"bid\">#</span> bid in all; kept <span data-what=\"kept\">#</span>, outbid <span data-what=\"outbid\">#</span>; total excess supply after it <span data-what=\"excess\">#</span>; default bids:",
        &numbers,
    );
    if all_filed(before) {
        to = put(out, to, b" none");
    } else {
        to = put(out, to, b"<span class=\"list\">");
        to = put_unfiled(out, to, names, before, b" <span data-default=\"#\">");
        to = put(out, to, b"</span>");
    }
    put(out, to, b"</p>\n")
}

pub fn put_round(
    rt: &impl Print,
    out: &mut [u8; ANSWER],
    at: usize,
    names: &[u8; NAMES],
    before: &[u8; STATE],
    after: &[u8; STATE],
) -> usize {
    let r = book::round(before) as u64;
    let mut to = room(rt, out, at);
    let numbers = [r, r];
    to = fill(
        out,
        to,
        b"<section class=\"round\" data-round=\"#\">\n<h3>Round #</h3>\n",
        &numbers,
    );
    to = put_summary(out, to, names, before, after);
    to = put_products(out, to, names, before, after);
    for b in 0..book::bidders(before).min(32) {
        to = room(rt, out, to);
        to = put_bidder_moves(out, to, names, before, after, b);
    }
    to = put(out, to, b"</section>\n");
    room(rt, out, to)
}

// ---- A cutback after round 1, from the state after that round to the one in which round 2 was bid

// The volume before and after, of a product.
fn put_volume(
    out: &mut [u8; ANSWER],
    at: usize,
    first: &[u8; STATE],
    second: &[u8; STATE],
    p: usize,
) -> usize
    requires { p < 8 }
{
    let old_target = book::target(first, p);
    let new_target = book::target(second, p);
    let old_cap = book::cap(first, p);
    let new_cap = book::cap(second, p);
    let a = cell(out, at, b"target-before", old_target.0 as u32);
    let b = cell(out, a, b"target", new_target.0 as u32);
    let c = cell(out, b, b"cap-before", old_cap.0 as u32);
    cell(out, c, b"cap", new_cap.0 as u32)
}

// What is held and the price, of a product.
fn put_held_price(out: &mut [u8; ANSWER], at: usize, s: &[u8; STATE], p: usize) -> usize
    requires { p < 8 }
{
    let held = story::held_of(s, p);
    let target = book::target(s, p);
    let price = book::price(s, p).amount();
    let a = cell(out, at, b"held", held);
    let b = put_standing(out, a, held, target.0 as u32);
    put_prices(out, b, book::unit(s), price, b"")
}

fn put_cut_row(
    out: &mut [u8; ANSWER],
    at: usize,
    names: &[u8; NAMES],
    first: &[u8; STATE],
    second: &[u8; STATE],
    p: usize,
) -> usize
    requires { p < 8 }
{
    let a = one(out, at, b"<tr data-product=\"#\"><th>", p as u64);
    let b = put_product(out, a, names, p);
    let c = put(out, b, b"</th>");
    let d = put_volume(out, c, first, second, p);
    let e = put_held_price(out, d, second, p);
    put(out, e, b"</tr>\n")
}

// What a bidder had above the revised cap of a product.
fn above_cap(first: &[u8; STATE], second: &[u8; STATE], b: usize, p: usize) -> u32
    requires { (b < 32) × (p < 8) }
{
    let k = b * 8 + p;
    let was = book::record(first, k);
    let is = book::record(second, k);
    was.going.0.saturating_sub(is.going.0) as u32
}

fn put_freed(
    out: &mut [u8; ANSWER],
    at: usize,
    names: &[u8; NAMES],
    first: &[u8; STATE],
    second: &[u8; STATE],
    b: usize,
    p: usize,
) -> usize
    requires { (b < 32) × (p < 8) }
{
    let n = above_cap(first, second, b, p);
    if n == 0 {
        return at;
    }
    let mut to = one(
        out,
        at,
        b"<p class=\"moves\" data-bidder=\"#\"><b>bidder ",
        b as u64,
    );
    to = put_bidder(out, to, names, b);
    to = put(out, to, b"</b>:");
    to = put_move(
        out,
        to,
        names,
        p,
        b"above",
        n,
        None,
        b"above the cap, free again, on product ",
        None,
    );
    put(out, to, b"</p>\n")
}

pub fn put_cutback(
    rt: &impl Print,
    out: &mut [u8; ANSWER],
    at: usize,
    names: &[u8; NAMES],
    first: &[u8; STATE],
    second: &[u8; STATE],
) -> usize {
    if !is_cut(first, second) {
        return at;
    }
    let mut to = room(rt, out, at);
    to = one(
        out,
        to,
        b"<section class=\"round\" data-cutback=\"1\">\n<h3>Cutback after round 1</h3>\n<p class=\"sum\">total excess supply after it <span data-what=\"excess\">#</span></p>\n<table class=\"wide\"><thead><tr><th>product</th><th>target before</th><th>revised target</th><th>cap before</th><th>revised cap</th><th>held</th><th>excess</th><th>price of round 2</th><th>",
        story::excess_of(second) as u64,
    );
    to = put_unit(out, to, book::unit(first));
    to = put(out, to, b"</th></tr></thead><tbody>\n");
    for p in 0..book::products(first).min(8) {
        to = put_cut_row(out, to, names, first, second, p);
    }
    to = put(out, to, b"</tbody></table>\n");
    for b in 0..32 {
        to = room(rt, out, to);
        for p in 0..8 {
            to = put_freed(out, to, names, first, second, b, p);
        }
    }
    put(out, to, b"</section>\n")
}
