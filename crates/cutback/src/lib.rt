// Document 02, request 3: "Volume cutback after round 1": whether it may be done, the auction that it leaves, and the helper.
#![tactic(auto)]

ghost use Rattle.std.specs.Prelude.{◌≡◌, ◌%◌, ◌<◌, min, length, replicate};
ghost use Rattle.rules.specs.Count.{sum_up_to, list_of};
ghost use Rattle.rules.specs.Allowed.{limits};
ghost use Rattle.rules.specs.Units.{tranches};
ghost use Rattle.rules.specs.Settings.{setup, target_of, cap_of, start_of};
ghost use Rattle.rules.specs.Lots.{no_lots};
ghost use Rattle.rules.specs.Held.{record_at, set_to};
ghost use Rattle.rules.specs.Accept.{at};
ghost use Rattle.rules.specs.Round.{not_chosen};
ghost use Rattle.rules.specs.Cutback.{given_for, numbers_fit, may_cut, free_cut, cut_back};
ghost use Rattle.rules.specs.Calls.{suggested_call};
ghost use Rattle.rules.specs.Layout.{loaded, stored};
ghost use Rattle.book.specs.Lent.{Long, Lent};
ghost use Rattle.table.specs.Rows.{places_in};
ghost use Rattle.prices.specs.Outlook.{Listed};
ghost use Rattle.cutback.specs.Cuttable.{last_of, Cuttable, limited_to, Cutting};

use prices::Lanes;
use rules::{Limits, Lots, OPEN, Place, Quote, Refusal, STOPPED, Tranches};
use std::array;
use table::WIDTH;

// ---- 20: "any condition on the cutback above not met"

// "If round 1 leaves the auction open": the round that a cutback belongs to.
pub const ROUND: u16 = 2;

// A revised target, "none larger than before and none 0, targets still ranked": the target before it is last.
pub fn target_limits(s: &[u8], last: u32, p: usize) -> Limits
    requires { Long s.now × (p < 8) }
    ensures { result ≡ limits 1 (min (target_of (setup (loaded s.now)) p) last) }
{
    let had = book::target(s, p);
    let own = Limits {
        least: 1,
        most: had.0 as u32,
    };
    own.under(last)
}

// A revised cap, the same and "caps at most targets".
pub fn cap_limits(s: &[u8], target: Tranches, p: usize) -> Limits
    requires { Long s.now × (p < 8) }
    ensures { result ≡ limits 1 (min (cap_of (setup (loaded s.now)) p) target.0) }
{
    let had = book::cap(s, p);
    let own = Limits {
        least: 1,
        most: had.0 as u32,
    };
    own.under(target.0 as u32)
}

// No target is above this: the first product has none before it.
pub const ANY: u32 = 65535;

fn last_of(targets: [Tranches; 8], p: usize) -> u32
    requires { p < 8 }
    ensures { result ≡ last_of targets p }
{
    if p == 0 {
        return ANY;
    }
    targets[p - 1].0 as u32
}

// Past the products in use both 0.
fn numbers_fit(s: &[u8], targets: [Tranches; 8], caps: [Tranches; 8], p: usize) -> bool
    requires { Long s.now × (p < 8) }
    ensures { result ≡ numbers_fit (setup (loaded s.now)) targets caps p }
{
    let target = targets[p];
    let cap = caps[p];
    if p >= book::products(s) {
        return (target.0 == 0) & (cap.0 == 0);
    }
    let last = last_of(targets, p);
    target_limits(s, last, p).holds(target.0 as u32) & cap_limits(s, target, p).holds(cap.0 as u32)
}

// The volume that they make.
pub fn volume(targets: [Tranches; 8]) -> u32
    ensures { result ≡ sum_up_to (given_for targets) 8 }
{
    let mut sum: u32 = 0;
    for target in targets {
        sum += target.0 as u32;
    }
    sum
}

// "If round 1 leaves the auction open and no round 2 card is filed, the manager may give revised targets and product caps".
// "The statewide cap stays, so a new volume below it is refused." Past the products in use the targets are 0, or do not fit.
pub fn may_cut(s: &[u8], targets: [Tranches; 8], caps: [Tranches; 8]) -> bool
    requires { Lent s.now }
    ensures { result ≡ may_cut (loaded s.now) targets caps }
{
    let fit = (0..8usize).all(|p| numbers_fit(s, targets, caps, p));
    let statewide = book::statewide(s);
    (book::round(s) == ROUND)
        & ((book::filed(s) == 0) & (fit & (statewide.0 as u32 <= volume(targets))))
}

// ---- The cutback

// The revised targets, at the starting prices; no override is given.
fn lanes_of(s: &[u8], targets: [Tranches; 8]) -> Lanes
    requires { Long s.now }
    ensures { Listed result (given_for targets) (start_of (setup (loaded s.now))) (start_of (setup (loaded s.now))) × (result.overrides ≡ replicate 8 not_chosen) }
{
    let price = array::from_fn(|p| Quote {
        price: book::start(s, p),
    });
    Lanes {
        target: targets.map(|given| given.0),
        price,
        before: price,
        overrides: [None; 8],
    }
}

// "A bidder above a reduced cap is set to the cap".
fn set_to_caps(s: &[u8], caps: [Tranches; 8], ps: &mut [[u32; WIDTH]; 256])
    requires { Long s.now × (length ps.old ≡ 256) }
    ensures { places_in ps.new ≡ list_of (λ k. at (set_to (record_at (loaded s.now).records k) (given_for caps (k % 8))) no_lots 0 0 0) 256 }
{
    for k in 0..256 {
        let own = book::record(s, k);
        let cap = caps[k % 8];
        let holds = own.set_to(cap);
        let place = Place {
            holds,
            leaving: Lots::none(),
            moving: Tranches(0),
            rise: Tranches(0),
            priority: 0,
        };
        table::put(ps, k, place);
    }
}

// "and the difference becomes its free eligibility": the tranches of bidder b above the caps are added to what is free.
fn free_after(s: &[u8], caps: [Tranches; 8], b: usize) -> Tranches
    requires { Cuttable s.now × (b < 32) }
    ensures { result ≡ tranches (free_cut (loaded s.now) caps b) }
{
    let products = book::products(s);
    let free = book::free(s, b);
    let mut sum = free.0 as u32;
    for p in 0..products {
        let own = book::record(s, b * 8 + p);
        let cap = caps[p];
        sum += own.above(cap);
    }
    Tranches(sum as u16)
}

fn freed(s: &[u8], caps: [Tranches; 8]) -> [Tranches; 32]
    requires { Cuttable s.now }
    ensures { result ≡ list_of (λ b. tranches (free_cut (loaded s.now) caps b)) 32 }
{
    array::from_fn(|b| free_after(s, caps, b))
}

// The phase and the prices are written by its caller; "overrides and their marks dropped".
fn reduce(
    s: &mut [u8],
    ps: &[[u32; WIDTH]; 256],
    free: [Tranches; 32],
    targets: [Tranches; 8],
    caps: [Tranches; 8],
)
    requires { Long s.old }
    ensures { s.new ≡ stored (limited_to (loaded s.old) (places_in ps.now) free targets caps) }
{
    let _ = storing::as_stored(s);
    storing::limits(s, targets, caps);
    storing::no_marks(s);
    storing::free(s, free);
    storing::records(s, ps);
}

// "Step 5's stop applies again"; otherwise "Round 2 prices are worked out afresh from the starting prices and the reduced book".
pub fn cut_back(s: &mut [u8], targets: [Tranches; 8], caps: [Tranches; 8])
    requires { Cutting s.old targets caps }
    ensures { s.new ≡ stored (cut_back (loaded s.old) targets caps) }
{
    let free = freed(s, caps);
    let mut ps = [[0u32; WIDTH]; 256];
    set_to_caps(s, caps, &mut ps);
    let lanes = lanes_of(s, targets);
    let start = lanes.price;
    let held = table::held_all(&ps, book::bidders(s));
    let next = prices::foresee(s, &held, lanes);
    let stops = next.stops;
    let price = next.price;
    let before = next.before;
    reduce(s, &ps, free, targets, caps);
    if stops {
        storing::phase(s, STOPPED);
        storing::prices(s, start, start);
        return;
    }
    storing::phase(s, OPEN);
    storing::prices(s, price, before);
}

// ---- The helper

// "more than 51,200 tranches bid" have no volume.
pub const MOST_BID: u32 = 51200;

// "tranches bid times 100 over the target ratio in hundredths, rounded down"; 31, "a ratio of 0 or more than 51,200 tranches bid".
pub fn suggested_volume(bid: u32, ratio: u32) -> Result<u32, Refusal>
    ensures { result ≡ suggested_call bid ratio }
{
    if ratio == 0 {
        return Err(Refusal::Suggestion);
    }
    if bid > MOST_BID {
        return Err(Refusal::Suggestion);
    }
    Ok(bid * 100 / ratio)
}
