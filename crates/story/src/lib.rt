// What a calculation did, one bidder and one product at a time, told from the state before it and the state after it. Document 01 lets
// kept tranches stand only where held equals target, so on a product that ticked none stands before, and those that stand after are the
// round's own; on any other product nothing is kept anew, and what is gone was deemed bid or outbid.
#![tactic(auto)]

ghost use Rattle.std.specs.Prelude.{◌≡◌, ◌<◌, true};
ghost use Rattle.book.specs.Lent.{Lent};

use layout::STATE;
use rules::{Lot, Lots, Record, Tranches};

// Whether a state's counts are those that its sections have room for, as in every state that stands.
pub fn is_counted(s: &[u8; STATE]) -> bool
    ensures { result ≡ true → Lent s.now }
{
    (book::products(s) <= 8) & (book::bidders(s) <= 32) & (book::rows(s) <= 8)
}

// What is held of a product; 0 where the counts are none.
pub fn held_of(s: &[u8; STATE], p: usize) -> u32
    requires { p < 8 }
{
    if !is_counted(s) {
        return 0;
    }
    held::held(s, p)
}

// Total excess supply; 0 where the counts are none.
pub fn excess_of(s: &[u8; STATE]) -> u32 {
    if !is_counted(s) {
        return 0;
    }
    held::excess(s)
}

pub fn is_above(s: &[u8; STATE], p: usize) -> bool
    requires { p < 8 }
{
    let target = book::target(s, p);
    (target.0 as u32) < held_of(s, p)
}

// Whether some product is above target. Past the products in use nothing is held in a state that stands.
pub fn some_above(s: &[u8; STATE]) -> bool {
    (0..8).any(|p| is_above(s, p))
}

// The denied switches that stand, over all bidders and products; 0 where the counts are none.
pub fn denied_of(s: &[u8; STATE]) -> u32 {
    if !is_counted(s) {
        return 0;
    }
    let mut sum = 0u32;
    for k in 0..256 {
        sum += book::record(s, k).denied.0 as u32;
    }
    sum
}

// Of one bidder on one product.
#[derive(Clone, Copy)]
pub struct Moves {
    // Bid, by card or default.
    pub bid: u32,
    // Withdrawn, by card or default, and retained of that, lot by lot; nothing where the product did not tick.
    pub withdrawn: Lots,
    pub retained: Lots,
    // Switches denied.
    pub denied: u32,
    // Of the increase, cancelled by denied switches.
    pub cancelled: u32,
    // Denied switches deemed bid at the going price.
    pub deemed: u32,
    // Denied switches outbid, which are free eligibility again.
    pub freed: u32,
    // Withdrawals that were retained before, and outbid of that, lot by lot; nothing where the product ticked.
    pub stood: Lots,
    pub gone: Lots,
}

// What was bid: the card's tranches; "the default bid is 0 on each ticked product .. and b = g elsewhere".
fn bid_of(filed: bool, carded: u32, ticked: bool, going: u32) -> u32 {
    if filed {
        return carded;
    }
    if ticked {
        return 0;
    }
    going
}

// What was withdrawn on a product that ticked: the card's lots; "The default bid is one lot at q."
fn withdrawn_on(s: &[u8; STATE], b: usize, p: usize) -> Lots
    requires { (b < 32) × (p < 8) }
{
    let k = b * 8 + p;
    if book::has_filed(s, b) {
        return book::line(s, k).withdrawn;
    }
    Lots::single(book::record(s, k).going, book::before(s, p).amount())
}

fn on_ticked(bid: u32, withdrawn: Lots, after: Record) -> Moves {
    let retained = after.retained;
    Moves {
        bid,
        withdrawn,
        retained,
        denied: after.denied.0 as u32,
        cancelled: bid.saturating_sub(after.going.0 as u32),
        deemed: 0,
        freed: 0,
        stood: Lots::none(),
        gone: Lots::none(),
    }
}

// What is gone of a lot, at its price.
fn gone_of(before: Lot, after: Lot) -> Lot {
    if before.count.0 <= after.count.0 {
        return Lot::none();
    }
    Lot {
        count: Tranches(before.count.0 - after.count.0),
        exit: before.exit,
    }
}

fn all_gone(before: Lots, after: Lots) -> Lots {
    Lots {
        one: gone_of(before.one, after.one),
        two: gone_of(before.two, after.two),
        three: gone_of(before.three, after.three),
        four: gone_of(before.four, after.four),
    }
}

// "a bidder with denied switches there and an increase left is deemed to bid them all": then more is going than was.
fn deemed_of(before: Record, after: Record) -> u32 {
    if before.going.0 < after.going.0 {
        return before.denied.0 as u32;
    }
    0
}

fn on_other(bid: u32, before: Record, after: Record) -> Moves {
    let deemed = deemed_of(before, after);
    let left = before.denied.0.saturating_sub(after.denied.0) as u32;
    let stood = before.retained;
    let stands = after.retained;
    Moves {
        bid,
        withdrawn: Lots::none(),
        retained: Lots::none(),
        denied: 0,
        cancelled: bid
            .wrapping_add(deemed)
            .saturating_sub(after.going.0 as u32),
        deemed,
        freed: left.saturating_sub(deemed),
        stood,
        gone: all_gone(stood, stands),
    }
}

pub fn moves_of(before: &[u8; STATE], after: &[u8; STATE], b: usize, p: usize) -> Moves
    requires { (b < 32) × (p < 8) }
{
    let withdrawn = withdrawn_on(before, b, p);
    let k = b * 8 + p;
    let was = book::record(before, k);
    let is = book::record(after, k);
    let line = book::line(before, k);
    let ticked = is_above(before, p);
    let bid = bid_of(
        book::has_filed(before, b),
        line.tranches.0 as u32,
        ticked,
        was.going.0 as u32,
    );
    if ticked {
        return on_ticked(bid, withdrawn, is);
    }
    on_other(bid, was, is)
}
