// Document 01, "Standing means": the clauses on prices, records and eligibility. What each says is in the crate rules,
// specs/Legal.antt.
ghost use Rattle.std.specs.Prelude.{◌≡◌, cond, ◌<◌};
ghost use Rattle.rules.specs.Count.{all_up_to};
ghost use Rattle.rules.specs.Units.{amount_of};
ghost use Rattle.rules.specs.Legal.{product_stands, record_zero, record_within, bidder_stands};
ghost use Rattle.rules.specs.Layout.{loaded};
ghost use Rattle.book.specs.Lent.{Lent};
ghost use Rattle.held.specs.Sums.{Counted};
ghost use Rattle.legal.specs.Pass.{ColumnOf, ColumnsOf};

use rules::{Price, Record, Tranches};
use std::array;

fn product_stands(s: &[u8], held: &[u32; 8], kept: &[u32; 8], p: usize) -> bool
    requires { Counted s.now held.now kept.now × (p < 8) }
    ensures { result ≡ product_stands (loaded s.now) p }
{
    let x = book::price(s, p).amount();
    let q = book::before(s, p).amount();
    let mark = book::mark(s, p);
    if p >= book::products(s) {
        return (x == 0) & ((q == 0) & (mark == 0));
    }
    // "1 <= p <= q, q at most the starting price"
    let start = book::start(s, p).amount();
    // "q > p where held exceeds target (in the open phase) or a tranche is kept"; "kept tranches only where held equals target"
    let fell = x < q;
    let open = book::phase(s) == rules::OPEN;
    let ticked = held::ticked(s, held, p);
    let some = kept[p] > 0;
    // "its mark only on products above target in an open round from 2"
    let may = open & ((2 <= book::round(s)) & ticked);
    let marked = !(mark > 0) | ((mark <= 1) & may);
    let due = (!(open & ticked) | fell) & ((!some | (fell & held::met(s, held, p))) & marked);
    (1 <= x) & ((x <= q) & ((q <= start) & due))
}

pub fn products_stand(s: &[u8], held: &[u32; 8], kept: &[u32; 8]) -> bool
    requires { Counted s.now held.now kept.now }
    ensures { result ≡ all_up_to (product_stands (loaded s.now)) 8 }
{
    (0..8usize).all(|p| product_stands(s, held, kept, p))
}

// "retained exits above p, at most q", lot by lot, "ordered as on a card"; "each bidder within product caps"; past the bidders or products
// in use 0
fn record_stands(used: bool, p: Price, q: Price, cap: Tranches, r: Record) -> bool
    ensures { result ≡ cond used (record_within (amount_of p) (amount_of q) cap.0 r) (record_zero r) }
{
    if used {
        let fit = r.retained.exits_fit(p.amount(), q.amount());
        return fit & (r.held() <= cap.0 as u32);
    }
    r.is_zero()
}

// What one pass over a product's records finds: what is held and kept of it, and whether they stand.
#[derive(Clone, Copy)]
pub struct Column {
    pub held: u32,
    pub kept: u32,
    pub stands: bool,
}

fn column_of(s: &[u8], p: usize) -> Column
    requires { Lent s.now × (p < 8) }
    ensures { ColumnOf (loaded s.now) p result }
{
    let n = book::bidders(s);
    let used = p < book::products(s);
    let price = book::price(s, p);
    let before = book::before(s, p);
    let cap = book::cap(s, p);
    let mut held: u32 = 0;
    let mut kept: u32 = 0;
    let mut ok = true;
    for b in 0..n {
        let r = book::record(s, b * 8 + p);
        held += r.held();
        kept += r.kept();
        ok = ok & record_stands(used, price, before, cap, r);
    }
    for b in n..32 {
        ok = ok & book::record(s, b * 8 + p).is_zero();
    }
    Column {
        held,
        kept,
        stands: ok,
    }
}

// The same of each product, and whether all records stand.
#[derive(Clone, Copy)]
pub struct Columns {
    pub held: [u32; 8],
    pub kept: [u32; 8],
    pub stand: bool,
}

pub fn columns_of(s: &[u8]) -> Columns
    requires { Lent s.now }
    ensures { ColumnsOf (loaded s.now) result }
{
    let columns: [Column; 8] = array::from_fn(|p| column_of(s, p));
    Columns {
        held: columns.map(|c| c.held),
        kept: columns.map(|c| c.kept),
        stand: columns.iter().all(|c| c.stands),
    }
}

// "and, with f, within initial eligibility"
fn bidder_stands(s: &[u8], b: usize) -> bool
    requires { Lent s.now × (b < 32) }
    ensures { result ≡ bidder_stands (loaded s.now) b }
{
    let f = book::free(s, b);
    if b >= book::bidders(s) {
        return f.0 == 0;
    }
    let m = book::products(s);
    let mut sum: u32 = 0;
    for p in 0..m {
        let own = book::record(s, b * 8 + p);
        sum += own.held();
    }
    let most = book::initial(s, b);
    sum + f.0 as u32 <= most.0 as u32
}

pub fn bidders_stand(s: &[u8]) -> bool
    requires { Lent s.now }
    ensures { result ≡ all_up_to (bidder_stands (loaded s.now)) 32 }
{
    (0..32usize).all(|b| bidder_stands(s, b))
}
