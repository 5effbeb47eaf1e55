// "What is held" of document 01, and the part of "Calculating", step 5, that only reads: excess supply and the stop.
// Every sum is of u16 fields, at most 32 or 8 of them, and is taken where it cannot wrap whatever the state holds.
// Of two forms of a function the one that ends in `_by` is handed what is held of each product, and the other sums it (`sums`).
#![tactic(auto)]

ghost use Rattle.std.specs.Prelude.{◌≡◌, ◌≤◌, ◌<◌, length, eqb};
ghost use Rattle.rules.specs.Settings.{setup, target_of};
ghost use Rattle.rules.specs.Held.{held, standing, below, above, standing_of, ticked, above_zero, excess};
ghost use Rattle.rules.specs.Round.{stops};
ghost use Rattle.rules.specs.Layout.{loaded};
ghost use Rattle.book.specs.Lent.{Lent};
ghost use Rattle.held.specs.Ticks.{Ticks};
ghost use Rattle.held.specs.Sums.{held_on, AllHeld, Summed};

use std::array;

// "Held is g + d + r over all bidders."
pub fn held(s: &[u8], p: usize) -> u32
    requires { Lent s.now × (p < 8) }
    ensures { (result ≡ held (loaded s.now).records (loaded s.now).terms.bidders p) × (result ≤ 12582720) }
{
    let n = book::bidders(s);
    let mut sum: u32 = 0;
    for b in 0..n {
        let r = book::record(s, b * 8 + p);
        sum += r.held();
    }
    sum
}

// What is held of each product.
pub fn sums(s: &[u8]) -> [u32; 8]
    requires { Lent s.now }
    ensures { AllHeld (loaded s.now) result }
{
    array::from_fn(|p| held(s, p))
}

// "Standing of a product: held minus target, negative while it is short."
pub fn standing_of(held: u32, target: u16) -> i32
    requires { held ≤ 20000000 }
    ensures { result ≡ standing held target }
{
    held as i32 - target as i32
}

pub fn is_below(standing: i32) -> bool
    ensures { result ≡ below standing }
{
    standing < 0
}

pub fn is_above(standing: i32) -> bool
    ensures { result ≡ above standing }
{
    standing > 0
}

fn standing_by(s: &[u8], held: &[u32; 8], p: usize) -> i32
    requires { Summed s.now held.now × (p < 8) }
    ensures { (result ≡ standing_of (loaded s.now) p) × (above_zero (standing_of (loaded s.now) p) ≤ 12582720) }
{
    standing_of(held[p], book::target(s, p).0)
}

// "A product ticked exactly when its standing after the last calculation was above zero."
pub fn ticked(s: &[u8], held: &[u32; 8], p: usize) -> bool
    requires { Summed s.now held.now × (p < 8) }
    ensures { result ≡ ticked (loaded s.now) p }
{
    standing_by(s, held, p) > 0
}

// 1 for each product that ticked.
pub fn ticks_by(s: &[u8], held: &[u32; 8]) -> [u8; 8]
    requires { Summed s.now held.now }
    ensures { (length result ≡ 8) × Ticks result (loaded s.now) }
{
    array::from_fn(|p| ticked(s, held, p) as u8)
}

pub fn ticks(s: &[u8]) -> [u8; 8]
    requires { Lent s.now }
    ensures { (length result ≡ 8) × Ticks result (loaded s.now) }
{
    ticks_by(s, &sums(s))
}

// The exact case: as much is held as the target.
pub fn met(s: &[u8], held: &[u32; 8], p: usize) -> bool
    requires { Summed s.now held.now × (p < 8) }
    ensures { result ≡ eqb (held_on (loaded s.now) p) (target_of (setup (loaded s.now)) p) }
{
    standing_by(s, held, p) == 0
}

// A standing above zero as a number, and 0 for any other.
pub fn above_zero(standing: i32) -> u32
    ensures { result ≡ above_zero standing }
{
    if standing > 0 {
        return standing as u32;
    }
    0
}

// "Total excess supply = the standings above zero, summed, plus all f."
pub fn excess_by(s: &[u8], held: &[u32; 8]) -> u32
    requires { Summed s.now held.now }
    ensures { (result ≡ excess (loaded s.now)) × (result ≤ 102758880) }
{
    let m = book::products(s);
    let mut over: u32 = 0;
    for p in 0..m {
        over += above_zero(standing_by(s, held, p));
    }
    let n = book::bidders(s);
    let mut free: u32 = 0;
    for b in 0..n {
        let f = book::free(s, b);
        free += f.0 as u32;
    }
    over + free
}

pub fn excess(s: &[u8]) -> u32
    requires { Lent s.now }
    ensures { (result ≡ excess (loaded s.now)) × (result ≤ 102758880) }
{
    excess_by(s, &sums(s))
}

// "A product above target is at price 1, or this was round 4,095."
pub fn stops_by(s: &[u8], held: &[u32; 8]) -> bool
    requires { Summed s.now held.now }
    ensures { result ≡ stops (loaded s.now) }
{
    let m = book::products(s);
    let bottom = (0..m).any(|p| ticked(s, held, p) & (book::price(s, p).amount() == 1));
    bottom | (book::round(s) == 4095)
}
