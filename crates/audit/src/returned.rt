// `--returned BOX`: the owner's look at a box that came back. Nothing is changed.
use crate::found::{Found, find, say_missing, say_wrong};
use crate::journal::is_issued;
use crate::{FINE, NOT_OK, UNUSABLE};
use layout::{BIDS, INITIAL, PERCENT, PHASE, RECORDS, STATE, TARGET};
use rules::Phase;
use std::rt::Files;
use text::{ANSWER, put, put_named, send};

// How many bytes are not zero.
fn left_in(bytes: &[u8]) -> u64 {
    bytes.iter().filter(|b| **b != 0).count() as u64
}

// `  WHAT: N bytes`, where there are any: the place after it.
fn put_left(out: &mut [u8; ANSWER], at: usize, what: &[u8], n: u64) -> usize {
    if n == 0 {
        return at;
    }
    let a = put(out, at, b"  ");
    let b = put(out, a, what);
    let c = put_named(out, b, b": ", n);
    if n == 1 {
        return put(out, c, b" byte\n");
    }
    put(out, c, b" bytes\n")
}

fn put_phase(out: &mut [u8; ANSWER], at: usize, number: u8) -> usize {
    match Phase::of(number) {
        Phase::Issued => at,
        Phase::Open => put(out, at, b"  phase: open\n"),
        Phase::Closed => put(out, at, b"  phase: closed\n"),
        Phase::Stopped => put(out, at, b"  phase: stopped\n"),
    }
}

// What is left of an auction, section by section.
fn put_remains(out: &mut [u8; ANSWER], state: &[u8; STATE], all: u64) -> usize {
    let a = put_named(out, 0, b"not issued: ", all);
    let b = if all == 1 {
        put(out, a, b" byte is not zero\n")
    } else {
        put(out, a, b" bytes are not zero\n")
    };
    let mut to = put_phase(out, b, state[PHASE]);
    let sections: [(&[u8], &[u8]); 6] = [
        (
            b"phase, unit, counts, round, statewide cap, who has filed",
            &state[PHASE..TARGET],
        ),
        (
            b"products: targets, caps, prices, marks",
            &state[TARGET..INITIAL],
        ),
        (b"bidders: eligibilities", &state[INITIAL..PERCENT]),
        (b"rows: percentages, decrements", &state[PERCENT..RECORDS]),
        (b"records of bidders", &state[RECORDS..BIDS]),
        (b"cards filed", &state[BIDS..]),
    ];
    for (what, bytes) in sections {
        to = put_left(out, to, what, left_in(bytes));
    }
    to
}

// A file that a desk keeps beside a box: said where it is there.
fn put_beside(
    rt: &impl Files,
    out: &mut [u8; ANSWER],
    at: usize,
    path: &[u8],
    ending: &[u8],
    what: &[u8],
) -> usize {
    if !store::is_beside(rt, path, ending) {
        return at;
    }
    let a = put(out, at, b"  beside it: ");
    put(out, a, what)
}

fn put_found(out: &mut [u8; ANSWER], state: &[u8; STATE]) -> usize {
    let all = left_in(state);
    if all == 0 {
        return put(out, 0, b"issued: every byte is zero\n");
    }
    put_remains(out, state, all)
}

// What a desk keeps beside a box, by the ending of its name.
const BESIDE: &[(&[u8], &[u8])] = &[
    (
        b".before",
        b"its name with .before, the state before the last calculation or return\n",
    ),
    (
        b".names",
        b"its name with .names, the names of an auction's bidders and products\n",
    ),
    (
        b".journal",
        b"its name with .journal, the calls of an auction\n",
    ),
];

fn tell<R: Files + Print>(rt: &R, path: &[u8], state: &[u8; STATE], out: &mut [u8; ANSWER]) -> u8 {
    let mut n = put_found(out, state);
    for (ending, what) in BESIDE {
        n = put_beside(rt, out, n, path, ending, what);
    }
    if !send(rt, out, n) {
        return UNUSABLE;
    }
    if is_issued(state) {
        return FINE;
    }
    NOT_OK
}

pub fn inspect<R: Files + Print>(rt: &R, path: &[u8]) -> u8 {
    let mut state = [0u8; STATE];
    let mut out = io::large_buffer();
    match find(rt, path, &mut state, &mut out) {
        Ok(Found::State) => tell(rt, path, &state, &mut out),
        Ok(Found::Missing) => say_missing(rt, &mut out),
        Ok(Found::Wrong) => say_wrong(rt, &mut out),
        Err(status) => status,
    }
}
