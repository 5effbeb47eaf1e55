// What is known of every round that stands: its place in the journal, the going prices, and what was held after it.
ghost use Rattle.std.specs.Prelude.{◌<◌};

use layout::STATE;

// Rounds go from 1 to 4,095.
pub const ROUNDS: usize = 4096;

// Of each product a run of rounds.
pub const SERIES: usize = 8 * ROUNDS;

// What is known of a round of a product.
fn known<T: Copy>(series: &[T; SERIES], p: usize, r: usize) -> Option<T> {
    if (p < 8) & (r < ROUNDS) {
        return Some(series[p * ROUNDS + r]);
    }
    None
}

pub fn price_at(prices: &[u32; SERIES], p: usize, r: usize) -> u32 {
    known(prices, p, r).unwrap_or(0)
}

pub fn held_at(helds: &[u16; SERIES], p: usize, r: usize) -> u32 {
    u32::from(known(helds, p, r).unwrap_or(0))
}

pub fn place_at(places: &[i64; ROUNDS], r: usize) -> i64 {
    places.get(r).copied().unwrap_or(-1)
}

// ---- A cutback

fn is_open(s: &[u8; STATE]) -> bool {
    book::phase(s) == rules::OPEN
}

// One that changes no number can still change a price, since it drops overrides, or take off a mark alone; of two states of round 2 nothing else
// does, but that a round which ends it takes off the marks.
fn is_cut_on(first: &[u8; STATE], second: &[u8; STATE], p: usize) -> bool
    requires { p < 8 }
{
    let target = book::target(first, p);
    let revised = book::target(second, p);
    let cap = book::cap(first, p);
    let lower = book::cap(second, p);
    let price = book::price(first, p).amount();
    let afresh = book::price(second, p).amount();
    let dropped = is_open(first)
        & is_open(second)
        & (book::mark(first, p) != book::mark(second, p));
    (target.0 != revised.0) | (cap.0 != lower.0) | (price != afresh) | dropped
}

pub fn is_cut(first: &[u8; STATE], second: &[u8; STATE]) -> bool {
    (0..8).any(|p| is_cut_on(first, second, p))
}

// ---- What a line did, told from the states before and after it

// The going prices of a round.
pub fn note_prices(s: &[u8; STATE], r: usize, prices: &mut [u32; SERIES]) {
    if ROUNDS <= r {
        return;
    }
    for p in 0..8 {
        prices[p * ROUNDS + r] = book::price(s, p).amount();
    }
}

fn note_held(s: &[u8; STATE], r: usize, helds: &mut [u16; SERIES]) {
    if ROUNDS <= r {
        return;
    }
    for p in 0..8 {
        helds[p * ROUNDS + r] = u16::try_from(story::held_of(s, p)).unwrap_or(u16::MAX);
    }
}

fn note_place(place: i64, r: usize, places: &mut [i64; ROUNDS]) {
    if r < ROUNDS {
        places[r] = place;
    }
}

// An undone return of a later round is none.
fn is_opening(prior: &[u8; STATE], state: &[u8; STATE]) -> bool {
    (book::phase(prior) == 0) & (book::round(state) == 1)
}

fn is_cutback(prior: &[u8; STATE], state: &[u8; STATE]) -> bool {
    (book::round(prior) == 2) & (book::round(state) == 2) & is_cut(prior, state)
}

// An open round before it, and a later one or none after it. An undone round lies the other way round.
fn is_calculation(prior: &[u8; STATE], state: &[u8; STATE]) -> bool {
    if !is_open(prior) {
        return false;
    }
    if !is_open(state) {
        return true;
    }
    book::round(prior) < book::round(state)
}

// A later calculation of a round takes the place of one that was undone. A round 2 that was undone is not calculated after a cutback,
// which may stop the auction in it.
pub fn note(
    place: i64,
    prior: &[u8; STATE],
    state: &[u8; STATE],
    opened: &mut [u8; STATE],
    places: &mut [i64; ROUNDS],
    prices: &mut [u32; SERIES],
    helds: &mut [u16; SERIES],
) {
    if book::phase(state) == 0 {
        return;
    }
    if is_opening(prior, state) {
        *opened = *state;
        return;
    }
    if is_cutback(prior, state) {
        note_place(-1, 2, places);
        return;
    }
    if is_calculation(prior, state) {
        let r = book::round(prior) as usize;
        note_place(place, r, places);
        note_prices(prior, r, prices);
        note_held(state, r, helds);
    }
}

// How many rounds are calculated: all before an open one; a stop by a cutback calculates none.
pub fn calculated(s: &[u8; STATE], places: &[i64; ROUNDS]) -> usize {
    let r = book::round(s) as usize;
    if r == 0 {
        return 0;
    }
    if is_open(s) {
        return r - 1;
    }
    if place_at(places, r) < 0 {
        return r - 1;
    }
    r
}
