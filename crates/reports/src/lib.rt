// Document 01, "Report and result": what one bidder is told, and what is awarded.
#![tactic(auto)]

ghost use Rattle.std.specs.Prelude.{◌≡◌, false, ℕ, ◌<◌, max, replicate};
ghost use Rattle.rules.specs.Count.{list_of};
ghost use Rattle.rules.specs.Units.{price_of, quote, going_price, tranches};
ghost use Rattle.rules.specs.Held.{held_in, record_at};
ghost use Rattle.rules.specs.Bid.{record_of};
ghost use Rattle.rules.specs.Report.{going_on, report_on, report_refused, price_if, exit_if, highest_lot, highest_in, highest_up_to, paid_on, result_of, result_refused};
ghost use Rattle.rules.specs.Layout.{loaded};
ghost use Rattle.book.specs.Lent.{Long, Lent};

use rules::{
    Awarded, GoingPrice, Lot, Lots, Phase, Price, Quote, Range, Record, Refusal, Report, Reported,
    Tranches,
};
use std::array;

fn no_quotes() -> [Quote; 8]
    ensures { result ≡ replicate 8 (quote 0 0) }
{
    [Quote {
        price: Price::of(0, 0),
    }; 8]
}

// ---- The report

// The bidder's own records.
fn own_records(s: &[u8], b: usize) -> [Record; 8]
    requires { Long s.now × (b < 32) }
    ensures { result ≡ list_of (record_of (loaded s.now) b) 8 }
{
    array::from_fn(|p| book::record(s, b * 8 + p))
}

fn no_prices() -> [GoingPrice; 8]
    ensures { result ≡ replicate 8 (going_price 0 0 false) }
{
    [GoingPrice {
        price: Price::of(0, 0),
        overridden: false,
    }; 8]
}

// All going prices, each "with whether it was overridden".
fn going_prices(s: &[u8]) -> [GoingPrice; 8]
    requires { Long s.now }
    ensures { result ≡ list_of (going_on (loaded s.now)) 8 }
{
    array::from_fn(|p| GoingPrice {
        price: book::price(s, p),
        overridden: book::mark(s, p) > 0,
    })
}

pub fn report_on(s: &[u8], b: usize) -> Reported
    requires { Lent s.now × (b < 32) }
    ensures { result ≡ report_on (loaded s.now) b }
{
    let free = book::free(s, b);
    let phase = Phase::of(book::phase(s));
    let range = Range::of(held::excess(s));
    let records = own_records(s, b);
    let prices = going_prices(s);
    Reported {
        report: Ok(Report { free, phase, range }),
        records,
        prices,
    }
}

// A refused report answers why beside all-zero arrays.
pub fn refused_report(why: Refusal) -> Reported
    ensures { result ≡ report_refused why }
{
    let records = [Record::none(); 8];
    let prices = no_prices();
    Reported {
        report: Err(why),
        records,
        prices,
    }
}

// ---- The result

// The higher of two prices of one unit.
fn higher(x: Price, y: Price) -> Price
    ensures { (u m n : ℕ) → x ≡ price_of u m → y ≡ price_of u n → result ≡ price_of u (max m n) }
{
    if x.amount() < y.amount() {
        return y;
    }
    x
}

// The price where there is a tranche at it, and else 0 of its unit.
fn price_if(n: Tranches, x: Price) -> Price
    ensures { (u m : ℕ) → x ≡ price_of u m → result ≡ price_of u (price_if n.0 m) }
{
    if n.0 > 0 {
        return x;
    }
    Price::of(x.unit(), 0)
}

// A lot's price, in that unit; 0 where it is not used.
fn exit_of(unit: u8, l: Lot) -> Price
    ensures { result ≡ price_of unit (exit_if l) }
{
    let exit = Price::of(unit, l.exit);
    if l.count.0 > 0 {
        return exit;
    }
    Price::of(unit, 0)
}

// The highest price of the lots, each looked at.
fn highest_lot(unit: u8, l: Lots) -> Price
    ensures { result ≡ price_of unit (highest_lot l) }
{
    let one = exit_of(unit, l.one);
    let two = exit_of(unit, l.two);
    let three = exit_of(unit, l.three);
    let four = exit_of(unit, l.four);
    higher(one, higher(two, higher(three, four)))
}

// The highest price at which a record holds a tranche.
fn highest_in(price: Price, before: Price, r: Record) -> Price
    ensures { (u p q : ℕ) → price ≡ price_of u p → before ≡ price_of u q → result ≡ price_of u (highest_in p q r) }
{
    let g = price_if(r.going, price);
    let d = price_if(r.denied, before);
    higher(g, higher(d, highest_lot(price.unit(), r.retained)))
}

fn highest(s: &[u8], p: usize) -> Price
    requires { Lent s.now × (p < 8) }
    ensures { result ≡ price_of (loaded s.now).terms.unit (highest_up_to (loaded s.now) p (loaded s.now).terms.bidders) }
{
    let n = book::bidders(s);
    let price = book::price(s, p);
    let before = book::before(s, p);
    let mut most = Price::of(book::unit(s), 0);
    for b in 0..n {
        let r = book::record(s, b * 8 + p);
        most = higher(most, highest_in(price, before, r));
    }
    most
}

// "the highest price of any held tranche, or the going price if none is held"
fn paid_on(s: &[u8], p: usize) -> Price
    requires { Lent s.now × (p < 8) }
    ensures { result ≡ price_of (loaded s.now).terms.unit (paid_on (loaded s.now) p) }
{
    let most = highest(s, p);
    if most.amount() == 0 {
        return book::price(s, p);
    }
    most
}

fn paid_prices(s: &[u8]) -> [Quote; 8]
    requires { Lent s.now }
    ensures { result ≡ list_of (λ p. quote (loaded s.now).terms.unit (paid_on (loaded s.now) p)) 8 }
{
    array::from_fn(|p| Quote {
        price: paid_on(s, p),
    })
}

// "g + d + r for each bidder and product"
fn awards(s: &[u8]) -> [Tranches; 256]
    requires { Long s.now }
    ensures { result ≡ list_of (λ k. tranches (held_in (record_at (loaded s.now).records k))) 256 }
{
    array::from_fn(|k| book::held(s, k))
}

pub fn result_of(s: &[u8]) -> Awarded
    requires { Lent s.now }
    ensures { result ≡ result_of (loaded s.now) }
{
    let tranches = awards(s);
    let prices = paid_prices(s);
    Awarded {
        award: Ok(()),
        tranches,
        prices,
    }
}

// A refused result answers why beside all-zero arrays.
pub fn refused_result(why: Refusal) -> Awarded
    ensures { result ≡ result_refused why }
{
    let tranches = [Tranches(0); 256];
    let prices = no_quotes();
    Awarded {
        award: Err(why),
        tranches,
        prices,
    }
}
