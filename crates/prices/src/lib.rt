// "Next price of a product above target", and what step 5 goes by: the standings above zero and the stop. All is worked out of what is
// handed in, so that a round and a cutback write the book once, when it is known.
#![tactic(auto)]

ghost use Rattle.std.specs.Prelude.{◌≡◌, ℕ, ◌≤◌, ◌<◌, get_or};
ghost use Rattle.rules.specs.Held.{standing, above_zero};
ghost use Rattle.rules.specs.Layout.{loaded};
ghost use Rattle.book.specs.Lent.{Lent};
ghost use Rattle.prices.specs.Outlook.{NextOf, WorkedOut, Foresees};

use rules::{BasisPoints, GoingPrice, Price, Quote};
use std::array;

// "Next price of a product above target", by the manager's decrement where one is given; "Other prices stay." The standing above zero,
// or 0, is handed in.
fn next_price(
    s: &[u8],
    given: Option<BasisPoints>,
    over: u32,
    target: u16,
    going: Price,
) -> GoingPrice
    requires { Lent s.now }
    ensures { (held : ℕ) → over ≡ above_zero (standing held target) → NextOf (loaded s.now).decrements given held target going result }
{
    if over == 0 {
        return GoingPrice {
            price: going,
            overridden: false,
        };
    }
    // "percentage = 100 x standing / target, rounded down". A product that is not in use has no target.
    let mut percent: u64 = 0;
    if target > 0 {
        percent = 100 * over as u64 / target as u64;
    }
    // "its decrement is that of the last row not above it"
    let n = book::rows(s);
    let mut decrement = BasisPoints(0);
    for i in 0..n {
        let row = book::row(s, i);
        if row.percent as u64 <= percent {
            decrement = row.decrement;
        }
    }
    GoingPrice {
        price: going.fall(given.unwrap_or(decrement)),
        overridden: given.is_some(),
    }
}

// A product's standing above zero, or 0, its next price, and the price before its latest fall.
#[derive(Clone, Copy)]
pub struct Next {
    pub over: u32,
    pub going: GoingPrice,
    pub before: Price,
}

fn work_out(
    s: &[u8],
    given: Option<BasisPoints>,
    held: u32,
    target: u16,
    going: Price,
    last: Price,
) -> Next
    requires { Lent s.now × (held ≤ 20000000) }
    ensures { WorkedOut (loaded s.now).decrements given held target going last result }
{
    let over = held::above_zero(held::standing_of(held, target));
    let next = next_price(s, given, over, target, going);
    if over == 0 {
        return Next {
            over: 0,
            going: next,
            before: last,
        };
    }
    Next {
        over,
        going: next,
        before: going,
    }
}

// Each product's target, its going price, the price before its latest fall, and the override given for it.
#[derive(Clone, Copy)]
pub struct Lanes {
    pub target: [u16; 8],
    pub price: [Quote; 8],
    pub before: [Quote; 8],
    pub overrides: [Option<BasisPoints>; 8],
}

// The standings above zero, summed; whether the auction stops; and the prices and marks if it goes on.
#[derive(Clone, Copy)]
pub struct Outlook {
    pub over: u64,
    pub stops: bool,
    pub price: [Quote; 8],
    pub before: [Quote; 8],
    pub mark: [u8; 8],
}

// Of what is held of each product.
pub fn foresee(s: &[u8], held: &[u32; 8], l: Lanes) -> Outlook
    requires { Lent s.now × ((q : ℕ) → q < 8 → get_or held.now q 0 ≤ 20000000) }
    ensures { Foresees (loaded s.now) held.now l result }
{
    let products = book::products(s);
    let next: [Next; 8] = array::from_fn(|p| {
        work_out(
            s,
            l.overrides[p],
            held[p],
            l.target[p],
            l.price[p].price,
            l.before[p].price,
        )
    });
    let mut over: u64 = 0;
    for p in 0..products {
        over += next[p].over as u64;
    }
    // "a product above target is at price 1"
    let bottom = (0..products).any(|p| (next[p].over > 0) & (l.price[p].price.amount() == 1));
    // "or this was round 4,095"
    let stops = bottom | (book::round(s) == 4095);
    Outlook {
        over,
        stops,
        price: array::from_fn(|p| Quote {
            price: next[p].going.price,
        }),
        before: array::from_fn(|p| Quote {
            price: next[p].before,
        }),
        mark: array::from_fn(|p| next[p].going.overridden as u8),
    }
}
