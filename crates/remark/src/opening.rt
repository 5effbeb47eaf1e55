// A setting outside its limits: 15.
use crate::{of_phase, put_allowed};
use layout::STATE;
use rules::{Settings, Setup};
use settings::{What, fault_of, setup_of};
use text::ANSWER;
use view::put_form;

// The first that is not allowed. Counts that are outside their limits are not said: no line of the desk has them.
fn put_setting(out: &mut [u8; ANSWER], at: usize, t: Setup) -> usize {
    if 8 < t.terms.products {
        return at;
    }
    let f = fault_of(t);
    if !f.found {
        return at;
    }
    let given = [f.given as u64];
    let placed = [f.at as u64, f.given as u64];
    let what = f.what;
    let a = match what {
        What::Target => put_form(out, at, b": product %, target #", &placed),
        What::Cap => put_form(out, at, b": product %, cap #", &placed),
        What::Start => put_form(out, at, b": product %, starting price #", &placed),
        What::Statewide => put_form(out, at, b": statewide cap #", &given),
        What::Eligibility => put_form(out, at, b": bidder &, eligibility #", &placed),
        What::Percentage => put_form(out, at, b": row #, percentage #", &placed),
        What::Decrement => put_form(out, at, b": row #, decrement #", &placed),
    };
    let allowed = f.allowed;
    put_allowed(out, a, allowed)
}

pub fn of_opening(
    out: &mut [u8; ANSWER],
    at: usize,
    n: u8,
    s: &[u8; STATE],
    given: Settings,
) -> usize {
    if n == 15 {
        return put_setting(out, at, setup_of(given));
    }
    of_phase(out, at, n, s)
}
