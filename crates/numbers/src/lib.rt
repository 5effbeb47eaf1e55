// "Numbers answered": the first refusal that applies, for each call that is lent a state and needs one that stands. Where none applies the call does
// its work.
#![tactic(auto)]

ghost use Rattle.std.specs.Prelude.{◌≡◌};
ghost use Rattle.rules.specs.Answers.{answer_from};
ghost use Rattle.rules.specs.Round.{overrides_fit};
ghost use Rattle.rules.specs.Calls.{count_number, calculate_number, plain_number, cutback_number, report_number, result_number};
ghost use Rattle.numbers.specs.State.{state_number};

use layout::STATE;
use rules::{BasisPoints, CLOSED, OPEN, Refusal, Tranches};

// 1, 2, and 3 for an issued state, which has no auction.
pub fn state_number(s: &[u8]) -> Result<(), Refusal>
    ensures { result ≡ answer_from (state_number s.now) }
{
    if s.len() != STATE {
        return Err(Refusal::StateLength);
    }
    if state::is_zero(s) {
        return Err(Refusal::NotOpen);
    }
    if legal::stands(s) {
        return Ok(());
    }
    Err(Refusal::NotStanding)
}

// Count: 1, 2, 3.
pub fn count_number(s: &[u8]) -> Result<(), Refusal>
    ensures { result ≡ answer_from (count_number s.now) }
{
    state_number(s)?;
    if book::phase(s) == OPEN {
        return Ok(());
    }
    Err(Refusal::NotOpen)
}

// "an override outside 1 to 1,000": every one given is judged, also one that would do nothing.
fn overrides_fit(overrides: [Option<BasisPoints>; 8]) -> bool
    ensures { result ≡ overrides_fit overrides }
{
    (0..8usize).all(|p| rules::override_fits(overrides[p]))
}

// Calculate: 1, 2, 3, 14, 19.
#[tactic(auto, using(std::proofs::lemmas::Bool::Decides::nat_tests))]
pub fn calculate_number(
    s: &[u8],
    draw: &[u8],
    overrides: [Option<BasisPoints>; 8],
) -> Result<(), Refusal>
    ensures { result ≡ answer_from (calculate_number s.now draw.now overrides) }
{
    state_number(s)?;
    if book::phase(s) != OPEN {
        return Err(Refusal::NotOpen);
    }
    if !table::draw_fits(draw, book::bidders(s)) {
        return Err(Refusal::Draw);
    }
    if overrides_fit(overrides) {
        return Ok(());
    }
    Err(Refusal::Override)
}

// Calculate with the plain engine: 1, 2, 3, 14, 19, 23. The order holds "each product once", as the draw each bidder.
#[tactic(auto, using(std::proofs::lemmas::Bool::Decides::nat_tests))]
pub fn plain_number(
    s: &[u8],
    draw: &[u8],
    overrides: [Option<BasisPoints>; 8],
    order: &[u8],
) -> Result<(), Refusal>
    ensures { result ≡ answer_from (plain_number s.now draw.now overrides order.now) }
{
    calculate_number(s, draw, overrides)?;
    if table::draw_fits(order, book::products(s)) {
        return Ok(());
    }
    Err(Refusal::Order)
}

// Cutback: 1, 2, 3, 20.
pub fn cutback_number(s: &[u8], targets: [Tranches; 8], caps: [Tranches; 8]) -> Result<(), Refusal>
    ensures { result ≡ answer_from (cutback_number s.now targets caps) }
{
    state_number(s)?;
    if book::phase(s) != OPEN {
        return Err(Refusal::NotOpen);
    }
    if cutback::may_cut(s, targets, caps) {
        return Ok(());
    }
    Err(Refusal::Cutback)
}

// Report: 1, 2, 3 (issued), 6, 18.
#[tactic(auto, using(std::proofs::lemmas::Bool::Decides::nat_tests))]
pub fn report_number(s: &[u8], bidder: u8) -> Result<(), Refusal>
    ensures { result ≡ answer_from (report_number s.now bidder) }
{
    state_number(s)?;
    if bidder as usize >= book::bidders(s) {
        return Err(Refusal::NoBidder);
    }
    if (book::phase(s) == OPEN) & (book::round(s) == 1) {
        return Err(Refusal::RoundOne);
    }
    Ok(())
}

// Result: 1, 2, 16, also of an issued state, which `state_number` answers 3.
#[tactic(auto, using(std::proofs::lemmas::Bool::Decides::nat_tests))]
pub fn result_number(s: &[u8]) -> Result<(), Refusal>
    ensures { result ≡ answer_from (result_number s.now) }
{
    match state_number(s) {
        Ok(()) => {
            if book::phase(s) == CLOSED {
                return Ok(());
            }
            Err(Refusal::NotClosed)
        }
        Err(Refusal::NotOpen) => Err(Refusal::NotClosed),
        Err(e) => Err(e),
    }
}
