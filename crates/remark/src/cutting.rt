// A cutback and its helper: 20 and 31.
ghost use Rattle.std.specs.Prelude.{◌<◌};

use crate::{of_phase, put_allowed, put_outside};
use card::up_to;
use cutback::{ANY, MOST_BID, ROUND, cap_limits, target_limits, volume};
use layout::STATE;
use rules::Tranches;
use text::{ANSWER, put};
use view::put_form;

fn put_round(out: &mut [u8; ANSWER], at: usize, s: &[u8; STATE]) -> Option<usize> {
    let round = book::round(s);
    if round == ROUND {
        return None;
    }
    Some(put_form(
        out,
        at,
        b": this is round #, and a cutback belongs to round #",
        &[round as u64, ROUND as u64],
    ))
}

fn put_filed(out: &mut [u8; ANSWER], at: usize, s: &[u8; STATE]) -> Option<usize> {
    let b = (0..32).find(|b| book::has_filed(s, *b))?;
    Some(put_form(out, at, b": bidder & has filed", &[b as u64]))
}

fn put_product(
    out: &mut [u8; ANSWER],
    at: usize,
    s: &[u8; STATE],
    target: Tranches,
    cap: Tranches,
    last: u32,
    p: usize,
) -> Option<usize>
    requires { p < 8 }
{
    let target_allowed = target_limits(s, last, p);
    let cap_allowed = cap_limits(s, target, p);
    put_outside(
        out,
        at,
        b": product %, target #",
        &[p as u64, target.0 as u64],
        target.0 as u32,
        target_allowed,
    )
    .or_else(|| {
        put_outside(
            out,
            at,
            b": product %, cap #",
            &[p as u64, cap.0 as u64],
            cap.0 as u32,
            cap_allowed,
        )
    })
}

fn put_products(
    out: &mut [u8; ANSWER],
    at: usize,
    s: &[u8; STATE],
    targets: [Tranches; 8],
    caps: [Tranches; 8],
) -> Option<usize> {
    let mut last = ANY;
    for p in 0..book::products(s).min(8) {
        let target = targets[p];
        let said = put_product(out, at, s, target, caps[p], last, p);
        if said.is_some() {
            return said;
        }
        last = target.0 as u32;
    }
    None
}

fn put_volume(out: &mut [u8; ANSWER], at: usize, s: &[u8; STATE], targets: [Tranches; 8]) -> usize {
    let numbers = [volume(targets) as u64, book::statewide(s).0 as u64];
    put_form(
        out,
        at,
        b": # tranches in all, and the statewide cap is #",
        &numbers,
    )
}

// The first in this order; what is left is the volume.
fn put_condition(
    out: &mut [u8; ANSWER],
    at: usize,
    s: &[u8; STATE],
    targets: [Tranches; 8],
    caps: [Tranches; 8],
) -> usize {
    put_round(out, at, s)
        .or_else(|| put_filed(out, at, s))
        .or_else(|| put_products(out, at, s, targets, caps))
        .unwrap_or_else(|| put_volume(out, at, s, targets))
}

pub fn of_cutback(
    out: &mut [u8; ANSWER],
    at: usize,
    n: u8,
    s: &[u8; STATE],
    targets: [Tranches; 8],
    caps: [Tranches; 8],
) -> usize {
    if n == 20 {
        return put_condition(out, at, s, targets, caps);
    }
    of_phase(out, at, n, s)
}

pub fn of_volume(out: &mut [u8; ANSWER], at: usize, n: u8, bid: u32, ratio: u32) -> usize {
    if n != 31 {
        return at;
    }
    if ratio == 0 {
        return put(out, at, b": the ratio is 0");
    }
    let numbers = [bid as u64];
    let a = put_form(out, at, b": # bid", &numbers);
    put_allowed(out, a, up_to(MOST_BID))
}
