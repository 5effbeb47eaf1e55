// The rules of a bid on one product, of a bidder with the record r and the line l there. Document 01, "Rules of a bid" and
// numbers 8, 9, 11, 12 and 13.
ghost use Rattle.std.specs.Prelude.{◌≡◌, ◌&&◌, ℕ, ◌-◌, ◌≤◌, ◌<◌, leb, ltb};
ghost use Rattle.rules.specs.Allowed.{allows};
ghost use Rattle.rules.specs.Units.{amount_of};
ghost use Rattle.rules.specs.Bid.{reduction, increase, default_line};
ghost use Rattle.bids.specs.Lines.{kept_first, kept_with, number_of};

use rules::{Limits, Line, Lots, Price, Record, Tranches};

// a less b, and 0 where b is more.
pub fn less(a: u32, b: u32) -> u32
    ensures { (result ≡ a - b) × (result ≤ a) }
{
    a.saturating_sub(b)
}

// "Reduction R = g - b if positive, else 0."
pub fn reduction(r: Record, l: Line) -> u32
    ensures { (result ≡ reduction r l) × (result ≤ 65535) }
{
    less(r.going.0 as u32, l.tranches.0 as u32)
}

// "Increase I = b - g if positive, else 0."
pub fn increase(r: Record, l: Line) -> u32
    ensures { (result ≡ increase r l) × (result ≤ 65535) }
{
    less(l.tranches.0 as u32, r.going.0 as u32)
}

// 12: what the exit price of a used lot may be, p < x <= q; nothing where no price is above p.
pub fn exit_limits(p: Price, q: Price) -> Limits
    ensures { (x : ℕ) → x < 4294967296 → allows result x ≡ (ltb (amount_of p) x && leb x (amount_of q)) }
{
    let last = p.amount();
    let most = q.amount();
    if last == 4294967295 {
        return Limits { least: 1, most: 0 };
    }
    Limits {
        least: last + 1,
        most,
    }
}

// Which rules each product passed keeps.
#[derive(Clone, Copy)]
pub struct Kept {
    // 8: b + d + r is not above the product cap.
    pub caps: bool,
    // 9: no reduction on a product that didn't tick.
    pub ticks: bool,
    // 11: the sum of the lots withdrawn is not above R.
    pub leaves: bool,
    // 12: each price, the order and the zero lots.
    pub exits: bool,
    // 13: a product that is not increased is numbered 0.
    pub others: bool,
    // 13: any product is numbered 0.
    pub plain: bool,
}

impl Kept {
    // No product is passed yet.
    pub fn at_first() -> Kept
        ensures { result ≡ kept_first }
    {
        Kept {
            caps: true,
            ticks: true,
            leaves: true,
            exits: true,
            others: true,
            plain: true,
        }
    }

    // One product more, at the prices p and q.
    pub fn with(self, r: Record, l: Line, cap: Tranches, tick: bool, p: Price, q: Price) -> Kept
        ensures { result ≡ kept_with self r l cap.0 tick (amount_of p) (amount_of q) }
    {
        let reduced = reduction(r, l);
        let rises = increase(r, l) > 0;
        let withdrawn = l.withdrawn.total();
        let fit = l.withdrawn.exits_fit(p.amount(), q.amount());
        let retained = r.retained.total();
        Kept {
            caps: self.caps & (l.tranches.0 as u32 + r.denied.0 as u32 + retained <= cap.0 as u32),
            ticks: self.ticks & (tick | (reduced == 0)),
            leaves: self.leaves & (withdrawn <= reduced),
            exits: self.exits & fit,
            others: self.others & (rises | (l.priority == 0)),
            plain: self.plain & (l.priority == 0),
        }
    }
}

// 13: the priority number of an increased product, and 0 for any other product and for a number above 8.
pub fn number(r: Record, l: Line) -> usize
    ensures { (result ≡ number_of r l) × (result ≤ 8) }
{
    if (increase(r, l) > 0) & (l.priority <= 8) {
        return l.priority as usize;
    }
    0
}

// "No card: the default bid is 0 on each ticked product, all withdrawn at exit price q, and b = g elsewhere." It "is one lot at q".
pub fn default_line(tick: bool, q: Price, r: Record) -> Line
    ensures { result ≡ default_line tick (amount_of q) r }
{
    if !tick {
        return Line {
            tranches: Tranches(r.going.0),
            withdrawn: Lots::none(),
            priority: 0,
        };
    }
    Line {
        tranches: Tranches(0),
        withdrawn: Lots::single(r.going, q.amount()),
        priority: 0,
    }
}
