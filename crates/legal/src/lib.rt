// Document 01, "Standing means": whether lent bytes are a state that may stand. What each clause says is in the crate rules,
// specs/Legal.antt.
#![tactic(auto)]

mod holdings;
mod phases;

ghost use Rattle.std.specs.Prelude.{◌≡◌, ◌&&◌};
ghost use Rattle.rules.specs.Count.{all_up_to};
ghost use Rattle.rules.specs.Legal.{product_stands, record_stands, bidder_stands, slot_stands, phase_stands, stands};
ghost use Rattle.rules.specs.Layout.{loaded};
ghost use Rattle.book.specs.Lent.{Long, Lent};
ghost use Rattle.held.specs.Sums.{Summed};
ghost use Rattle.bids.specs.Tally.{Judging};

use rules::Line;
use std::array;

// "filed cards pass 6 to 13", and a slot that is not filed is 0, as the lines past the products are
fn slot_stands(s: &[u8], ticks: &[u8; 8], b: usize) -> bool
    requires { Judging s.now ticks.now b }
    ensures { result ≡ slot_stands (loaded s.now) b }
{
    let filed = book::has_filed(s, b);
    let m = book::products(s);
    let lines: [Line; 8] = array::from_fn(|p| book::line(s, b * 8 + p));
    let zero = (0..8usize).all(|p| (filed & (p < m)) | lines[p].is_zero());
    if !filed {
        return zero;
    }
    (b < book::bidders(s)) & (bids::judge(s, ticks, b, lines).is_ok() & zero)
}

fn slots_stand(s: &[u8], held: &[u32; 8]) -> bool
    requires { Summed s.now held.now }
    ensures { result ≡ all_up_to (slot_stands (loaded s.now)) 32 }
{
    let ticks = held::ticks_by(s, held);
    (0..32usize).all(|b| slot_stands(s, &ticks, b))
}

fn body_stands(s: &[u8]) -> bool
    requires { Lent s.now }
    ensures { result ≡ (all_up_to (product_stands (loaded s.now)) 8 && (all_up_to (record_stands (loaded s.now)) 256 && (all_up_to (bidder_stands (loaded s.now)) 32 && (all_up_to (slot_stands (loaded s.now)) 32 && phase_stands (loaded s.now))))) }
{
    let c = holdings::columns_of(s);
    let held = c.held;
    let kept = c.kept;
    let products = holdings::products_stand(s, &held, &kept);
    let bidders = holdings::bidders_stand(s);
    let slots = slots_stand(s, &held);
    products & (c.stand & (bidders & (slots & phases::phase_stands(s, &held, &kept))))
}

// "settings within limits, round 1 to 4,095", and all the rest
pub fn stands(s: &[u8]) -> bool
    requires { Long s.now }
    ensures { result ≡ stands (loaded s.now) }
{
    if !settings::within_limits(book::setup(s)) {
        return false;
    }
    let round = book::round(s);
    ((1 <= round) & (round <= 4095)) & body_stands(s)
}
