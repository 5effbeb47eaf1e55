// A bid in words: what was taken of a card, beside what the bidder had.
ghost use Rattle.std.specs.Prelude.{◌<◌};

use crate::lots::{put_parts, put_told};
use crate::put_form;
use layout::STATE;
use rules::{Line, Lots, Record};
use text::{ANSWER, put, put_named};

fn put_withdrawn(out: &mut [u8; ANSWER], at: usize, unit: u8, l: Lots) -> usize {
    if l.total() == 0 {
        return at;
    }
    let a = put(out, at, b", ");
    put_told(out, a, unit, l, l, b" withdrawn at ")
}

fn put_rise(out: &mut [u8; ANSWER], at: usize, going: u16, priority: u8) -> usize {
    let a = put_named(out, at, b", up from ", going as u64);
    if priority == 0 {
        return a;
    }
    put_named(out, a, b", priority ", priority as u64)
}

// What is reduced is withdrawn, and switched where it is not.
fn put_fall(out: &mut [u8; ANSWER], at: usize, unit: u8, going: u16, bid: u16, l: Lots) -> usize {
    let a = put_named(out, at, b", down from ", going as u64);
    let b = put_withdrawn(out, a, unit, l);
    let stays = bid as u64 + l.total() as u64;
    if going as u64 <= stays {
        return b;
    }
    let numbers = [going as u64 - stays];
    put_form(out, b, b", # switched", &numbers)
}

fn put_change(out: &mut [u8; ANSWER], at: usize, unit: u8, r: Record, l: Line) -> usize {
    let g = r.going.0;
    let b = l.tranches.0;
    let withdrawn = l.withdrawn;
    if g < b {
        return put_rise(out, at, g, l.priority);
    }
    if b < g {
        return put_fall(out, at, unit, g, b, withdrawn);
    }
    if g == 0 {
        return at;
    }
    put(out, at, b", as before")
}

fn put_product(out: &mut [u8; ANSWER], at: usize, unit: u8, p: usize, r: Record, l: Line) -> usize {
    let numbers = [p as u64, l.tranches.0 as u64];
    let a = put_form(out, at, b"  product %: # bid", &numbers);
    let b = put_change(out, a, unit, r, l);
    put(out, b, b"\n")
}

fn put_products(out: &mut [u8; ANSWER], at: usize, s: &[u8; STATE], b: usize) -> usize
    requires { b < 32 }
{
    let unit = book::unit(s);
    let mut to = at;
    for p in 0..book::products(s).min(8) {
        let k = b * 8 + p;
        to = put_product(out, to, unit, p, book::record(s, k), book::line(s, k));
    }
    to
}

// What a bid comes to.
#[derive(Clone, Copy, Default)]
struct Sums {
    bid: u32,
    increased: u32,
}

impl Sums {
    fn with(self, r: Record, l: Line) -> Sums {
        let bid = l.tranches.0 as u32;
        let going = r.going.0 as u32;
        Sums {
            bid: self.bid.wrapping_add(bid),
            increased: self.increased.wrapping_add(bid.saturating_sub(going)),
        }
    }
}

fn sums_of(s: &[u8; STATE], b: usize) -> Sums
    requires { b < 32 }
{
    let mut sums = Sums::default();
    for p in 0..book::products(s).min(8) {
        let k = b * 8 + p;
        sums = sums.with(book::record(s, k), book::line(s, k));
    }
    sums
}

// "Free eligibility not used lapses."
fn put_sums(out: &mut [u8; ANSWER], at: usize, sums: Sums, free: u32) -> usize {
    let bid = [sums.bid as u64];
    let a = put_form(out, at, b"  in all # bid", &bid);
    if free <= sums.increased {
        return put(out, a, b"\n");
    }
    let numbers = [(free - sums.increased) as u64];
    put_form(out, a, b"; # of the free eligibility lapses\n", &numbers)
}

// The card that bidder b has filed, product by product.
pub fn put_filed(out: &mut [u8; ANSWER], at: usize, s: &[u8; STATE], b: usize) -> usize {
    if 32 <= b {
        return at;
    }
    let numbers = [b as u64, book::round(s) as u64];
    let a = put_form(out, at, b"  bidder &, round #\n", &numbers);
    let c = put_products(out, a, s, b);
    put_sums(out, c, sums_of(s, b), book::free(s, b).0 as u32)
}

// ---- A card apart from any auction

fn put_priority(out: &mut [u8; ANSWER], at: usize, priority: u8) -> usize {
    if priority == 0 {
        return at;
    }
    put_named(out, at, b", priority ", priority as u64)
}

fn put_alone(out: &mut [u8; ANSWER], at: usize, p: usize, l: Line) -> usize {
    let numbers = [p as u64, l.tranches.0 as u64];
    let mut to = put_form(out, at, b"  product #: # bid", &numbers);
    let withdrawn = l.withdrawn;
    if 0 < withdrawn.total() {
        let a = put(out, to, b", ");
        to = put_parts(out, a, withdrawn, withdrawn, b" withdrawn at ");
    }
    let b = put_priority(out, to, l.priority);
    put(out, b, b"\n")
}

// The lines of a card that was read, for so many products.
pub fn put_read(
    out: &mut [u8; ANSWER],
    at: usize,
    bidder: u8,
    round: u16,
    lines: [Line; 8],
    products: usize,
) -> usize {
    let numbers = [bidder as u64, round as u64];
    let mut to = put_form(out, at, b"  bidder #, round #\n", &numbers);
    for p in 0..products.min(8) {
        to = put_alone(out, to, p, lines[p]);
    }
    to
}
