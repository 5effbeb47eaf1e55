// After the number and the words of a refusal: `: REMARK`, what is wrong and what would be allowed. A place is found by the tests that the
// number is judged by, so that no limit stands here. Each function puts its remark at a place of the answer and gives the place after it;
// where it has nothing to say the place itself, or None where the next one may have something to say. The line's end is left to the caller.
#![tactic(auto)]

mod bidding;
mod cards;
mod cutting;
mod drawing;
mod exits;
mod opening;
mod phases;

pub use bidding::of_card;
pub use cards::{of_read, of_write};
pub use cutting::{of_cutback, of_volume};
pub use drawing::of_round;
pub use opening::of_opening;
pub use phases::{of_phase, of_report};
use rules::Limits;
use text::{ANSWER, put};
use view::put_form;

// `; LEAST to MOST is allowed`
fn put_allowed(out: &mut [u8; ANSWER], at: usize, allowed: Limits) -> usize {
    if allowed.most < allowed.least {
        return put(out, at, b"; nothing is allowed");
    }
    let numbers = [allowed.least as u64, allowed.most as u64];
    if allowed.least == allowed.most {
        return put_form(out, at, b"; # is allowed", &numbers);
    }
    put_form(out, at, b"; # to # is allowed", &numbers)
}

// A number that its limits do not hold, by its form; nothing where they do.
fn put_outside(
    out: &mut [u8; ANSWER],
    at: usize,
    form: &[u8],
    numbers: &[u64],
    x: u32,
    allowed: Limits,
) -> Option<usize> {
    if allowed.holds(x) {
        return None;
    }
    let a = put_form(out, at, form, numbers);
    Some(put_allowed(out, a, allowed))
}

// The number of the last of n, which are counted from 0.
fn last_of(n: usize) -> u64 {
    n.saturating_sub(1) as u64
}
