// The settings that a manager gives: whether they are within their limits, in one unit, and as they stand in the state.
ghost use Rattle.std.specs.Prelude.{◌≡◌, true, cond, ◌<◌, ltb, eqb};
ghost use Rattle.rules.specs.Count.{list_of};
ghost use Rattle.rules.specs.Settings.{item_of, setup_of, product_at, one_unit, settings_fit};
ghost use Rattle.rules.specs.Units.{unit_number, unit_of};

use crate::within_limits;
use rules::{Decrements, Item, Product, Settings, Setup, Terms};

fn item_of(p: Product) -> Item
    ensures { result ≡ item_of p }
{
    let target = p.target;
    let cap = p.cap;
    let start = p.start;
    Item {
        target,
        cap,
        start: start.amount(),
    }
}

fn items_of(s: Settings) -> [Item; 8]
    ensures { result ≡ list_of (λ p. item_of (product_at s p)) 8 }
{
    s.product.map(|p| item_of(p))
}

pub fn setup_of(s: Settings) -> Setup
    ensures { result ≡ setup_of s }
{
    let unit = s.unit;
    let statewide = s.statewide;
    let terms = Terms {
        unit: unit.number(),
        products: s.products,
        bidders: s.bidders,
        statewide,
    };
    let item = items_of(s);
    let eligibility = s.eligibility;
    let row = s.row;
    let decrements = Decrements { rows: s.rows, row };
    Setup {
        terms,
        item,
        eligibility,
        decrements,
    }
}

// Past this test an amount alone says the price: every starting price in use is of the auction's unit.
fn unit_fits(s: Settings, p: usize) -> bool
    requires { p < 8 }
    ensures { result ≡ cond (ltb p s.products) (eqb (unit_of (product_at s p).start) (unit_number s.unit)) true }
{
    if p >= s.products as usize {
        return true;
    }
    let x = s.product[p];
    let start = x.start;
    let unit = s.unit;
    start.unit() == unit.number()
}

pub fn one_unit(s: Settings) -> bool
    ensures { result ≡ one_unit s }
{
    (0..8usize).all(|p| unit_fits(s, p))
}

// Where this is false, opening answers 15, "a setting outside the above".
pub fn settings_fit(s: Settings) -> bool
    ensures { result ≡ settings_fit s }
{
    if !one_unit(s) {
        return false;
    }
    within_limits(setup_of(s))
}
