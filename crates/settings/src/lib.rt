// Whether the settings of an auction are within their limits: document 01, "Settings". The limits stand in the crate rules,
// specs/Settings.antt. They are judged by a search for the first that is not allowed, which is also what is said of it.
#![tactic(auto)]

mod opening;

ghost use Rattle.std.specs.Prelude.{◌≡◌, ℕ, Bool, false, not, ◌&&◌, ◌≤◌, ◌<◌};
ghost use Rattle.rules.specs.Count.{sum_up_to, all_up_to};
ghost use Rattle.rules.specs.Allowed.{limits, allows};
ghost use Rattle.rules.specs.Settings.{target_of, item_within, bidder_within, row_within, least_decrement, statewide_within, within_limits};
ghost use Rattle.settings.specs.Ranges.{used, ranked, rising, target_limits, cap_limits, start_limits, eligibility_limits, percent_limits, decrement_limits};

pub use opening::{settings_fit, setup_of};
use rules::{Decrements, Limits, Setup};

// ---- What each setting may be

// "Entries past the number of products, bidders or rows in use are 0."
fn in_use(i: usize, n: u8, own: Limits) -> Limits
    ensures { result ≡ used i n own }
{
    if i < n as usize {
        return own;
    }
    Limits { least: 0, most: 0 }
}

// "Target 1 to 200"; "ranked by target, never rising": no target is above that of the product before.
fn ranked(t: Setup, p: usize) -> Limits
    requires { p < 8 }
    ensures { result ≡ ranked t p }
{
    let own = Limits {
        least: 1,
        most: 200,
    };
    if p == 0 {
        return own;
    }
    let before = t.item[p - 1];
    own.under(before.target.0 as u32)
}

fn target_limits(t: Setup, p: usize) -> Limits
    requires { p < 8 }
    ensures { result ≡ target_limits t p }
{
    in_use(p, t.terms.products, ranked(t, p))
}

// "product load cap 1 to the target"
fn cap_limits(t: Setup, p: usize) -> Limits
    requires { p < 8 }
    ensures { result ≡ cap_limits t p }
{
    let x = t.item[p];
    let own = Limits {
        least: 1,
        most: x.target.0 as u32,
    };
    in_use(p, t.terms.products, own)
}

// "starting price 1 to 99,999"
fn start_limits(t: Setup, p: usize) -> Limits
    ensures { result ≡ start_limits t p }
{
    let own = Limits {
        least: 1,
        most: 99999,
    };
    in_use(p, t.terms.products, own)
}

// "Statewide cap 1 to the sum of targets"
fn statewide_limits(t: Setup) -> Limits
    requires { t.terms.products ≤ 8 }
    ensures { result ≡ limits 1 (sum_up_to (target_of t) t.terms.products) }
{
    let n = t.terms.products as usize;
    let mut sum: u32 = 0;
    for p in 0..n {
        let x = t.item[p];
        sum += x.target.0 as u32;
    }
    Limits {
        least: 1,
        most: sum,
    }
}

// "each with initial eligibility 1 to the statewide cap"
fn eligibility_limits(t: Setup, b: usize) -> Limits
    ensures { result ≡ eligibility_limits t b }
{
    let own = Limits {
        least: 1,
        most: t.terms.statewide.0 as u32,
    };
    in_use(b, t.terms.bidders, own)
}

// "percentages strictly rise, at most 60,000, the first 0"
fn rising(d: Decrements, i: usize) -> Limits
    requires { i < 8 }
    ensures { result ≡ rising d i }
{
    if i == 0 {
        return Limits { least: 0, most: 0 };
    }
    let before = d.row[i - 1];
    Limits {
        least: before.percent as u32 + 1,
        most: 60000,
    }
}

fn percent_limits(d: Decrements, i: usize) -> Limits
    requires { i < 8 }
    ensures { result ≡ percent_limits d i }
{
    in_use(i, d.rows, rising(d, i))
}

// "a decrement of 50 to 500 basis points"
const LEAST_DECREMENT: u16 = 50;

fn decrement_limits(least: u16, d: Decrements, i: usize) -> Limits
    ensures { result ≡ decrement_limits least d i }
{
    let own = Limits {
        least: least as u32,
        most: 500,
    };
    in_use(i, d.rows, own)
}

// ---- The first that is not

#[derive(Clone, Copy)]
pub enum What {
    Target,
    Cap,
    Start,
    Statewide,
    Eligibility,
    Percentage,
    Decrement,
}

// A setting of a product, a bidder or a row, and whether it is one that is not allowed.
#[derive(Clone, Copy)]
pub struct Fault {
    pub found: bool,
    pub what: What,
    pub at: usize,
    pub given: u32,
    pub allowed: Limits,
}

impl Fault {
    fn of(what: What, at: usize, given: u32, allowed: Limits) -> Fault
        ensures { result.found ≡ not (allows allowed given) }
    {
        Fault {
            found: !allowed.holds(given),
            what,
            at,
            given,
            allowed,
        }
    }

    fn none() -> Fault
        ensures { result.found ≡ false }
    {
        Fault {
            found: false,
            what: What::Target,
            at: 0,
            given: 0,
            allowed: Limits { least: 0, most: 0 },
        }
    }
}

// The first of n that is found.
fn first<F: Fn(usize) -> Fault>(n: usize, fault: F) -> Fault
    requires { (i : ℕ) → i < n → F.pre fault i }
    ensures { (within : ℕ → Bool) → ((i : ℕ) → (f : Fault) → i < n → F.post fault i f → f.found ≡ not (within i)) → result.found ≡ not (all_up_to within n) }
{
    for i in 0..n {
        let f = fault(i);
        if f.found {
            return f;
        }
    }
    Fault::none()
}

fn item_fault(t: Setup, p: usize) -> Fault
    requires { p < 8 }
    ensures { result.found ≡ not (item_within t p) }
{
    let x = t.item[p];
    let target = Fault::of(What::Target, p, x.target.0 as u32, target_limits(t, p));
    if target.found {
        return target;
    }
    let cap = Fault::of(What::Cap, p, x.cap.0 as u32, cap_limits(t, p));
    if cap.found {
        return cap;
    }
    Fault::of(What::Start, p, x.start, start_limits(t, p))
}

fn items_fault(t: Setup) -> Fault
    ensures { result.found ≡ not (all_up_to (item_within t) 8) }
{
    first(8, |p| item_fault(t, p))
}

fn statewide_fault(t: Setup) -> Fault
    requires { t.terms.products ≤ 8 }
    ensures { result.found ≡ not (statewide_within t) }
{
    Fault::of(
        What::Statewide,
        0,
        t.terms.statewide.0 as u32,
        statewide_limits(t),
    )
}

fn bidder_fault(t: Setup, b: usize) -> Fault
    requires { b < 32 }
    ensures { result.found ≡ not (bidder_within t b) }
{
    let x = t.eligibility[b];
    Fault::of(What::Eligibility, b, x.0 as u32, eligibility_limits(t, b))
}

fn bidders_fault(t: Setup) -> Fault
    ensures { result.found ≡ not (all_up_to (bidder_within t) 32) }
{
    first(32, |b| bidder_fault(t, b))
}

// Whatever the least decrement of the table.
fn row_fault(least: u16, d: Decrements, i: usize) -> Fault
    requires { i < 8 }
    ensures { result.found ≡ not (row_within least d i) }
{
    let x = d.row[i];
    let percentage = Fault::of(What::Percentage, i, x.percent as u32, percent_limits(d, i));
    if percentage.found {
        return percentage;
    }
    Fault::of(
        What::Decrement,
        i,
        x.decrement.0 as u32,
        decrement_limits(least, d, i),
    )
}

fn rows_fault(least: u16, d: Decrements) -> Fault
    ensures { result.found ≡ not (all_up_to (row_within least d) 8) }
{
    first(8, |i| row_fault(least, d, i))
}

// In the order of the document. The sum of targets is over the products in use.
pub fn fault_of(t: Setup) -> Fault
    requires { t.terms.products ≤ 8 }
    ensures { result.found ≡ not (all_up_to (item_within t) 8 && (statewide_within t && (all_up_to (bidder_within t) 32 && all_up_to (row_within least_decrement t.decrements) 8))) }
{
    let items = items_fault(t);
    if items.found {
        return items;
    }
    let statewide = statewide_fault(t);
    if statewide.found {
        return statewide;
    }
    let bidders = bidders_fault(t);
    if bidders.found {
        return bidders;
    }
    let decrements = t.decrements;
    rows_fault(LEAST_DECREMENT, decrements)
}

// The counts come first: "1 to 8 products"; "Bidders 1 to 32"; one of the two units; "1 to 8 pairs".
pub fn within_limits(t: Setup) -> bool
    ensures { result ≡ within_limits t }
{
    let n = t.terms.products;
    let m = t.terms.bidders;
    let counts = ((1 <= n) & (n <= 8)) & (((1 <= m) & (m <= 32)) & (t.terms.unit <= 1));
    if !counts {
        return false;
    }
    let rows = t.decrements.rows;
    let fault = fault_of(t);
    ((1 <= rows) & (rows <= 8)) & !fault.found
}
