// "Calculating": a whole round, and its steps 1 and 5. The round works on one table of places beside the lent bytes, and writes its
// sections where they stand.
#![tactic(auto)]

ghost use Rattle.std.specs.Prelude.{◌≡◌, cond, ◌≤◌, get_or};
ghost use Rattle.rules.specs.Units.{amount_of};
ghost use Rattle.rules.specs.Count.{sum_up_to};
ghost use Rattle.rules.specs.Parts.{tranches_at, no_cards, unmarked, with_cards};
ghost use Rattle.rules.specs.Bid.{default_line};
ghost use Rattle.rules.specs.Accept.{accepted, accepted_all};
ghost use Rattle.rules.specs.Outbid.{outbid};
ghost use Rattle.rules.specs.Keep.{kept};
ghost use Rattle.rules.specs.Round.{booked, settled, after_kept, calculated, calculated_plain};
ghost use Rattle.rules.specs.Layout.{loaded, stored};
ghost use Rattle.book.specs.Lent.{Long};
ghost use Rattle.table.specs.Rows.{places_in};
ghost use Rattle.storing.specs.Written.{Writes, amount_at};
ghost use Rattle.round.specs.Ready.{Accepting, LanesOf, opens_with, Settling, Ready, ReadyFor, Finishing, Tallies};

use prices::Lanes;
use rules::{
    BasisPoints, CLOSED, Calculation, Line, OPEN, Place, Price, Quote, Record, STOPPED, Tranches,
};
use std::array;
use table::WIDTH;

// ---- Step 1: "Take all bids as accepted."

// The card's line, or the default.
fn bid_of(filed: bool, l: Line, tick: bool, before: Price, r: Record) -> Line
    ensures { result ≡ cond filed l (default_line tick (amount_of before) r) }
{
    if filed {
        return l;
    }
    bids::default_line(tick, before, r)
}

// "Withdrawn counts say which reductions are withdrawals; the other reductions are switches."
fn accept(r: Record, l: Line) -> Place
    ensures { result ≡ accepted r l }
{
    let reduced = bids::reduction(r, l);
    let moving = bids::less(reduced, l.withdrawn.total());
    let rise = bids::increase(r, l);
    let retained = r.retained;
    let leaving = l.withdrawn;
    Place {
        holds: Record {
            going: Tranches(l.tranches.0),
            denied: Tranches(r.denied.0),
            retained,
        },
        leaving,
        moving: Tranches(moving as u16),
        rise: Tranches(rise as u16),
        priority: l.priority,
    }
}

fn accept_all(s: &[u8], ticks: &[u8; 8], ps: &mut [[u32; WIDTH]; 256])
    requires { Accepting s.now ticks.now ps.old }
    ensures { places_in ps.new ≡ accepted_all (loaded s.now) }
{
    for k in 0..256 {
        let r = book::record(s, k);
        let l = book::line(s, k);
        let bid = bid_of(
            book::has_filed(s, k / 8),
            l,
            ticks[k % 8] == 1,
            book::before(s, k % 8),
            r,
        );
        table::put(ps, k, accept(r, bid));
    }
}

// ---- The targets, prices and overrides that the round goes by

fn lanes_of(s: &[u8], overrides: [Option<BasisPoints>; 8]) -> Lanes
    requires { Long s.now }
    ensures { LanesOf result (loaded s.now) × (result.overrides ≡ overrides) }
{
    Lanes {
        target: array::from_fn(|p| book::target(s, p).0),
        price: array::from_fn(|p| Quote {
            price: book::price(s, p),
        }),
        before: array::from_fn(|p| Quote {
            price: book::before(s, p),
        }),
        overrides,
    }
}

// ---- Step 5

// All free eligibility.
fn all_free(free: [Tranches; 32], bidders: usize) -> u64
    requires { bidders ≤ 32 }
    ensures { (result ≡ sum_up_to (tranches_at free) bidders) × (result ≤ 2097120) }
{
    let mut sum: u64 = 0;
    for b in 0..bidders {
        sum += free[b].0 as u64;
    }
    sum
}

// The book after step 4, at the same round and prices, with no cards and no marks.
fn rest(s: &mut [u8], ps: &[[u32; WIDTH]; 256], free: [Tranches; 32])
    requires { Long s.old }
    ensures { s.new ≡ stored (with_cards (unmarked (booked (loaded s.old) (outbid (places_in ps.now) free 0))) no_cards) }
{
    let _ = storing::as_stored(s);
    storing::filed(s, 0);
    storing::free(s, free);
    storing::records(s, ps);
    storing::no_lines(s);
    storing::no_marks(s);
}

// "prices fall and the next round opens"
fn open_next(s: &mut [u8], round: u16, price: [Quote; 8], before: [Quote; 8], mark: [u8; 8])
    requires { Long s.old }
    ensures { Writes s.old s.new (λ a. opens_with a round (amount_at price) (amount_at before) (λ p. get_or mark p 0)) }
{
    storing::phase(s, OPEN);
    storing::round(s, round);
    storing::prices(s, price, before);
    storing::marks(s, mark);
}

// "If it is 0 the auction is closed. Otherwise, .. it is stopped. Otherwise prices fall and the next round opens." The excess, the
// stop, the prices and the marks are worked out before the book is written.
fn settle(s: &mut [u8], ps: &[[u32; WIDTH]; 256], free: [Tranches; 32], l: Lanes)
    requires { Settling s.old l }
    ensures { s.new ≡ stored (settled (loaded s.old) l.overrides (outbid (places_in ps.now) free 0)) }
{
    let bidders = book::bidders(s);
    let held = table::held_all(ps, bidders);
    let next = prices::foresee(s, &held, l);
    let stops = next.stops;
    let price = next.price;
    let before = next.before;
    let mark = next.mark;
    // "Total excess supply = the standings above zero, summed, plus all f."
    let excess = next.over + all_free(free, bidders);
    let round = book::round(s) + 1;
    rest(s, ps, free);
    if excess == 0 {
        storing::phase(s, CLOSED);
        return;
    }
    if stops {
        storing::phase(s, STOPPED);
        return;
    }
    open_next(s, round, price, before, mark);
}

// ---- The whole

// Steps 3 to 5, once step 2 has kept so many tranches.
fn finish(
    s: &mut [u8],
    ps: &mut [[u32; WIDTH]; 256],
    ticks: &[u8; 8],
    draw: &[u8],
    lanes: Lanes,
    count: u32,
) -> Calculation
    requires { Finishing s.old draw.now ticks.now lanes (places_in ps.old) }
    ensures { Tallies (after_kept (loaded s.old) draw.now lanes.overrides (kept (places_in ps.old) count)) result s.new }
{
    let products = book::products(s);
    let bidders = book::bidders(s);
    let targets = lanes.target;
    outbid::deem_all(ps, ticks, bidders);
    let o = outbid::outbid_all(ps, &targets, ticks, draw, products, bidders);
    let free = o.free;
    settle(s, ps, free, lanes);
    Calculation {
        kept: count,
        outbid: o.count,
    }
}

pub fn calculate(s: &mut [u8], draw: &[u8], overrides: [Option<BasisPoints>; 8]) -> Calculation
    requires { Ready s.old draw.now }
    ensures { Tallies (calculated (loaded s.old) draw.now overrides) result s.new }
{
    let products = book::products(s);
    let bidders = book::bidders(s);
    let lanes = lanes_of(s, overrides);
    let targets = lanes.target;
    let ticks = held::ticks(s);
    let mut ps = [[0u32; WIDTH]; 256];
    accept_all(s, &ticks, &mut ps);
    let kept = keep::keep_all(&mut ps, &targets, &ticks, draw, products, bidders);
    finish(s, &mut ps, &ticks, draw, lanes, kept)
}

// The same, but that step 2 goes by an order of the products.
pub fn calculate_plain(
    s: &mut [u8],
    draw: &[u8],
    overrides: [Option<BasisPoints>; 8],
    order: &[u8],
) -> Calculation
    requires { ReadyFor s.old draw.now order.now }
    ensures { Tallies (calculated_plain (loaded s.old) draw.now overrides order.now) result s.new }
{
    let products = book::products(s);
    let bidders = book::bidders(s);
    let lanes = lanes_of(s, overrides);
    let targets = lanes.target;
    let ticks = held::ticks(s);
    let mut ps = [[0u32; WIDTH]; 256];
    accept_all(s, &ticks, &mut ps);
    let kept = plain::keep_plain(&mut ps, &targets, &ticks, draw, order, products, bidders);
    finish(s, &mut ps, &ticks, draw, lanes, kept)
}
