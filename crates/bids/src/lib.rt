// "Rules of a bid" of document 01: a bid is judged by numbers 8 to 13, each over all products before the next.
// Every sum is of u16 fields, at most 32 of them, and is taken in a u32 whatever the state and the card hold.
#![tactic(auto)]

mod line;

ghost use Rattle.std.specs.Prelude.{◌≡◌, ◌&&◌, cond, ℕ, ◌+◌, ◌-◌, ◌<◌, ltb};
ghost use Rattle.rules.specs.Answers.{answer_from};
ghost use Rattle.rules.specs.Bid.{record_of, on_product, judged};
ghost use Rattle.rules.specs.Layout.{loaded};
ghost use Rattle.book.specs.Lent.{Lent};
ghost use Rattle.bids.specs.Tally.{Judging, Numbering, Small, Tallied, Numbers, once_each, summed};

pub use line::{Kept, default_line, exit_limits, increase, less, reduction};
use rules::{Line, Record, Refusal};

// ---- One pass over the products

// The sums of "Rules of a bid" over the products passed.
#[derive(Clone, Copy)]
pub struct Sums {
    pub going: u32,
    pub bid: u32,
    pub reduced: u32,
    pub increased: u32,
    pub withdrawn: u32,
    // How many products are increased.
    pub rising: u32,
}

impl Sums {
    fn with(self, r: Record, l: Line) -> Sums
        requires { Small 8 self }
        ensures { (result ≡ summed self r l) × ((m : ℕ) → Small m self → Small (m + 1) result) }
    {
        let increase = line::increase(r, l);
        let withdrawn = l.withdrawn.total();
        Sums {
            going: self.going + r.going.0 as u32,
            bid: self.bid + l.tranches.0 as u32,
            reduced: self.reduced + line::reduction(r, l),
            increased: self.increased + increase,
            withdrawn: self.withdrawn + withdrawn,
            rising: self.rising + (increase > 0) as u32,
        }
    }

    // "Increases use free eligibility first; the others, s in all, are switches."
    pub fn switches(self, f: u32) -> u32
        ensures { result ≡ self.increased - f }
    {
        line::less(self.increased, f)
    }

    // "Withdrawals over all products total w = sum of R - s."
    pub fn withdrawals(self, switches: u32) -> u32
        ensures { result ≡ self.reduced - switches }
    {
        line::less(self.reduced, switches)
    }
}

#[derive(Clone, Copy)]
pub struct Tally {
    pub sums: Sums,
    pub kept: Kept,
}

pub fn tally_of(s: &[u8], ticks: &[u8; 8], b: usize, lines: [Line; 8]) -> Tally
    requires { Judging s.now ticks.now b }
    ensures { Tallied (loaded s.now).terms.products (loaded s.now) b lines result.sums result.kept }
{
    let m = book::products(s);
    let mut sums = Sums {
        going: 0,
        bid: 0,
        reduced: 0,
        increased: 0,
        withdrawn: 0,
        rising: 0,
    };
    let mut kept = Kept::at_first();
    for p in 0..m {
        let cap = book::cap(s, p);
        let tick = ticks[p] == 1;
        let price = book::price(s, p);
        let before = book::before(s, p);
        let r = book::record(s, b * 8 + p);
        let l = lines[p];
        sums = sums.with(r, l);
        kept = kept.with(r, l, cap, tick, price, before);
    }
    Tally { sums, kept }
}

// ---- 13: "increased products .. numbered 1 to k once each"

// How many increased products have each priority number, 1 to 8; at 0 stands what is not numbered so.
pub fn numbers_of(s: &[u8], b: usize, lines: [Line; 8]) -> [u8; 9]
    requires { Lent s.now × (b < 32) }
    ensures { Numbers (loaded s.now).terms.products (record_of (loaded s.now) b) (on_product lines) result }
{
    let m = book::products(s);
    let mut counts = [0u8; 9];
    for p in 0..m {
        let l = lines[p];
        let k = line::number(book::record(s, b * 8 + p), l);
        counts[k] = counts[k] + 1;
    }
    counts
}

// ---- A bid in an auction

// 13: where s is 0 every priority is 0; else "increased products .. numbered 1 to k once each, others 0".
fn priorities_fit(s: &[u8], b: usize, lines: [Line; 8], t: Tally, switches: u32) -> bool
    requires { Numbering s.now b t.sums.rising }
    ensures { result ≡ cond (ltb 0 switches) (t.kept.others && once_each (loaded s.now) b lines t.sums.rising) t.kept.plain }
{
    let x = t.sums;
    let y = t.kept;
    if switches == 0 {
        return y.plain;
    }
    let counts = numbers_of(s, b, lines);
    let n = x.rising as usize;
    let once = (0..n).all(|k| counts[k + 1] == 1);
    y.others & once
}

// The first rule that the bid breaks.
pub fn judge(s: &[u8], ticks: &[u8; 8], b: usize, lines: [Line; 8]) -> Result<(), Refusal>
    requires { Judging s.now ticks.now b }
    ensures { result ≡ answer_from (judged (loaded s.now) b lines) }
{
    let t = tally_of(s, ticks, b, lines);
    let x = t.sums;
    let y = t.kept;
    let f = book::free(s, b).0 as u32;
    let switches = x.switches(f);
    let w = x.withdrawals(switches);
    if !y.caps {
        return Err(Refusal::AboveCap);
    }
    if !y.ticks {
        return Err(Refusal::Reduced);
    }
    if x.going + f < x.bid {
        return Err(Refusal::AboveEligibility);
    }
    if !(y.leaves & (x.withdrawn == w)) {
        return Err(Refusal::Withdrawn);
    }
    if !y.exits {
        return Err(Refusal::ExitPrice);
    }
    if !priorities_fit(s, b, lines, t, switches) {
        return Err(Refusal::Priorities);
    }
    Ok(())
}
