// "Calculating", steps 3 and 4, on products that didn't tick.
#![tactic(auto)]

ghost use Rattle.std.specs.Prelude.{◌≡◌, ◌&&◌, not, cond, ◌*◌, ◌≤◌, ◌<◌, replicate, eqb, ltb};
ghost use Rattle.rules.specs.Units.{tranches};
ghost use Rattle.rules.specs.Count.{first_up_to};
ghost use Rattle.rules.specs.Held.{standing, above};
ghost use Rattle.rules.specs.Accept.{changed};
ghost use Rattle.rules.specs.Outbid.{deem_if, deemed_up_to, outbid, outbid_all};
ghost use Rattle.rules.specs.Round.{drawn};
ghost use Rattle.held.specs.Ticks.{is_one};
ghost use Rattle.table.specs.Next.{nobody};
ghost use Rattle.table.specs.Room.{Room, Prepared, target_on};
ghost use Rattle.table.specs.Rows.{places_in};
ghost use Rattle.outbid.specs.Loss.{Empty, Summed, AsMuch, less_of, over_by, Looking, Timed, Again, Asked, Soonest, Lost};

use rules::{Place, Record, Tranches};
use table::{NOTHING, Next, WIDTH};

// ---- Step 3

// "a bidder with denied switches there and an increase left is deemed to bid them all at the going price"
fn deem_at(ps: &mut [[u32; WIDTH]; 256], k: usize, tick: u8)
    requires { (k < 256) × Room (places_in ps.old) }
    ensures { places_in ps.new ≡ changed (deem_if (eqb tick 1)) (places_in ps.old) k }
{
    let l = table::place_at(ps, k);
    if (tick != 1) & (0 < l.rise.0) {
        let x = l.deem();
        table::put(ps, k, x);
    }
}

pub fn deem_all(ps: &mut [[u32; WIDTH]; 256], ticks: &[u8; 8], bidders: usize)
    requires { (bidders ≤ 32) × Room (places_in ps.old) }
    ensures { (places_in ps.new ≡ deemed_up_to (is_one ticks.now) (places_in ps.old) (bidders * 8)) × Room (places_in ps.new) }
{
    let n = bidders * 8;
    for k in 0..n {
        deem_at(ps, k, ticks[k % 8]);
    }
}

// ---- Step 4: what is held and kept of each product stands beside the places

// The kept tranches of all products are returned.
fn sum_all(
    ps: &[[u32; WIDTH]; 256],
    held: &mut [u32; 8],
    kept: &mut [u32; 8],
    bidders: usize,
) -> u32
    requires { Empty bidders held.old kept.old }
    ensures { Summed (places_in ps.now) held.new kept.new bidders result }
{
    let n = bidders * 8;
    let mut all: u32 = 0;
    for k in 0..n {
        let r = table::record(ps, k);
        let h = r.held();
        let x = r.kept();
        let p = k % 8;
        held[p] = held[p] + h;
        kept[p] = kept[p] + x;
        all += x;
    }
    all
}

fn lower(held: &mut [u32; 8], kept: &mut [u32; 8], p: usize, by: u32)
    requires { AsMuch held.old kept.old p by }
    ensures { (held.new ≡ less_of held.old p by) × (kept.new ≡ less_of kept.old p by) }
{
    held[p] = held[p] - by;
    kept[p] = kept[p] - by;
}

fn is_over(held: u32, kept: u32, target: u16, tick: u8) -> bool
    requires { held ≤ 20000000 }
    ensures { result ≡ (not (eqb tick 1) && (above (standing held target) && ltb 0 kept)) }
{
    let above = held::is_above(held::standing_of(held, target));
    (tick != 1) & (above & (0 < kept))
}

// The first product that didn't tick, is above target and has a kept tranche. None before `from` is one.
fn first_over(
    held: &[u32; 8],
    kept: &[u32; 8],
    targets: &[u16; 8],
    ticks: &[u8; 8],
    from: usize,
    products: usize,
) -> Option<usize>
    requires { Looking held.now kept.now targets.now ticks.now from products }
    ensures { result ≡ first_up_to (over_by held.now kept.now targets.now ticks.now) products }
{
    for p in from..products {
        if is_over(held[p], kept[p], targets[p], ticks[p]) {
            return Some(p);
        }
    }
    None
}

// ---- The tranche outbid

// Turns, of which the lowest is outbid first: "denied switches first, then the highest exit price".
const SWITCH: u64 = 0;

const NOBODY: Next = Next {
    at: 0,
    turn: NOTHING,
};

fn turn_of(r: Record) -> u64
    ensures { Timed result r }
{
    if 0 < r.denied.0 {
        return SWITCH;
    }
    if 0 < r.retained.total() {
        return 4294967296 - r.retained.highest() as u64;
    }
    NOTHING
}

fn known_if(next: Next, sure: bool) -> Next
    ensures { result ≡ cond sure next nobody }
{
    if sure {
        return next;
    }
    NOBODY
}

// A bidder with another of the same kind and price left is next again: its turn is as it was.
fn known_again(next: Next, r: Record) -> Next
    ensures { Again next r result }
{
    known_if(next, turn_of(r) == next.turn)
}

// "ties by earliest draw". Looked for only where it is not known.
fn next_turn(ps: &[[u32; WIDTH]; 256], order: &[u8], p: usize, bidders: usize, known: Next) -> Next
    requires { Asked bidders order.now (places_in ps.now) p known }
    ensures { Soonest bidders (drawn order.now) (places_in ps.now) p result }
{
    if known.turn < NOTHING {
        return known;
    }
    let mut best = NOBODY;
    for i in 0..bidders {
        let b = table::bidder_at(order, i, bidders);
        let r = table::record(ps, b * 8 + p);
        let turn = turn_of(r);
        best = best.sooner(i, turn);
    }
    best
}

// What one outbid tranche changes: a place, its owner's free eligibility, and the count; and who is known to be next.
#[derive(Clone, Copy)]
struct Loss {
    pub at: usize,
    pub place: Place,
    pub owner: usize,
    pub freed: u16,
    pub more: u32,
    pub next: Next,
}

fn lose(ps: &[[u32; WIDTH]; 256], order: &[u8], p: usize, bidders: usize, known: Next) -> Loss
    requires { Asked bidders order.now (places_in ps.now) p known }
    ensures { Lost bidders (drawn order.now) (places_in ps.now) p result }
{
    let s = next_turn(ps, order, p, bidders, known);
    // Nothing is left to outbid there. No book that stands leads here.
    if s.turn == NOTHING {
        let l = table::place_at(ps, 0);
        return Loss {
            at: 0,
            place: l,
            owner: 0,
            freed: 0,
            more: 0,
            next: s,
        };
    }
    let b = table::bidder_at(order, s.at, bidders);
    let at = b * 8 + p;
    let l = table::place_at(ps, at);
    if s.turn == SWITCH {
        // "An outbid denied switch becomes one free eligibility of its owner."
        let place = l.outbid_switch();
        let next = known_again(s, place.holds);
        return Loss {
            at,
            place,
            owner: b,
            freed: 1,
            more: 1,
            next,
        };
    }
    let place = l.outbid_withdrawal();
    // "An outbid withdrawal is gone."
    let freed = 0;
    let next = known_again(s, place.holds);
    Loss {
        at,
        place,
        owner: b,
        freed,
        more: 1,
        next,
    }
}

// Each bidder's free eligibility after step 4, and the tranches outbid.
#[derive(Clone, Copy)]
pub struct Freed {
    pub free: [Tranches; 32],
    pub count: u32,
}

// "while held exceeds target and a kept tranche remains, one is outbid". A product is done with before the next is looked at: what is
// outbid there changes nothing of those before it.
pub fn outbid_all(
    ps: &mut [[u32; WIDTH]; 256],
    targets: &[u16; 8],
    ticks: &[u8; 8],
    order: &[u8],
    products: usize,
    bidders: usize,
) -> Freed
    requires { Prepared products bidders order.now (places_in ps.old) }
    ensures { outbid (places_in ps.new) result.free result.count ≡ outbid_all products bidders (target_on targets.now) (is_one ticks.now) (drawn order.now) (places_in ps.old) (replicate 32 (tranches 0)) }
{
    let mut held = [0u32; 8];
    let mut kept = [0u32; 8];
    let mut free = [Tranches(0); 32];
    let mut count: u32 = 0;
    let mut from: usize = 0;
    let mut next = NOBODY;
    let most = sum_all(ps, &mut held, &mut kept, bidders);
    for _ in 0..most {
        let q = first_over(&held, &kept, targets, ticks, from, products);
        let Some(p) = q else {
            return Freed { free, count };
        };
        let known = known_if(next, p == from);
        let o = lose(ps, order, p, bidders, known);
        let at = o.at;
        let place = o.place;
        let owner = o.owner;
        let more = o.more;
        let freed = o.freed;
        table::put(ps, at, place);
        lower(&mut held, &mut kept, p, more);
        let f = free[owner];
        let has = f.0 + freed;
        free[owner] = Tranches(has);
        count += more;
        from = p;
        next = o.next;
    }
    Freed { free, count }
}
