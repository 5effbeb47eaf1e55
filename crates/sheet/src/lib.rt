// `--sheet BOX [JOURNAL]`: one page of an auction, to be printed or mailed, made from the box's journal. The journal is played twice:
// first to see that it plays, and which calculation of each round stands; then to tell of each round from the states before and after it.
#![tactic(auto)]

mod ends;
mod head;
mod rounds;
mod style;

use audit::{FINE, Fault, NOT_OK, Played, UNUSABLE, begun, is_issued, play_next, put_fault};
use layout::STATE;
use names::NAMES;
use paper::{ROUNDS, SERIES, flush, is_lost, note, place_at};
use std::io::{ErrorKind, Read, Seek};
use std::rt::Files;
use store::Loaded;
use text::{ANSWER, Aside, put, put_named, warn};

// Above so many rounds only those are told of in which something was kept, cancelled, deemed bid or outbid, with the first and the last.
const MANY: usize = 60;

// ---- What is wrong, in a line for the person who asked

fn warn_part(rt: &impl Aside, told: &[u8; ANSWER], n: usize) {
    if let Some(part) = told.get(..n) {
        warn(rt, part);
    }
}

fn refuse(rt: &impl Aside, words: &[u8], status: u8) -> u8 {
    let mut told = io::large_buffer();
    let a = put(&mut told, 0, b"desk: no sheet: ");
    let n = put(&mut told, a, words);
    warn_part(rt, &told, n);
    status
}

fn refuse_fault(rt: &impl Aside, played: Played, out: &[u8; ANSWER]) -> u8 {
    let mut told = io::large_buffer();
    let a = put_named(&mut told, 0, b"desk: no sheet: line ", played.lines);
    let b = put(&mut told, a, b" of the journal: ");
    let n = put_fault(&mut told, b, played.fault, out);
    warn_part(rt, &told, n);
    if matches!(played.fault, Fault::Unread) {
        return UNUSABLE;
    }
    NOT_OK
}

fn refuse_torn(rt: &impl Aside, lines: u64) -> u8 {
    let mut told = io::large_buffer();
    let a = put_named(&mut told, 0, b"desk: no sheet: after line ", lines);
    let n = put(
        &mut told,
        a,
        b" of the journal a part of a line is left, of a call that was not finished\n",
    );
    warn_part(rt, &told, n);
    NOT_OK
}

// ---- The first time

fn play<F: Read + Seek>(
    file: &mut F,
    held: &[u8; STATE],
    state: &mut [u8; STATE],
    prior: &mut [u8; STATE],
    opened: &mut [u8; STATE],
    places: &mut [i64; ROUNDS],
    prices: &mut [u32; SERIES],
    helds: &mut [u16; SERIES],
    out: &mut [u8; ANSWER],
) -> Played {
    let mut before = [0u8; STATE];
    let mut place = 0;
    let mut played = begun();
    for _ in 0..u64::MAX {
        let turn = play_next(file, place, played, held, state, prior, &mut before, out);
        played = turn.played;
        if turn.ended {
            return played;
        }
        note(place, prior, state, opened, places, prices, helds);
        place = turn.place;
    }
    played
}

// ---- The second time

fn is_told(prior: &[u8; STATE], state: &[u8; STATE], r: usize, rounds: usize) -> bool {
    (rounds <= MANY) | (r == 1) | (r == rounds) || rounds::has_events(prior, state)
}

// Tells of a line where it is the calculation of a round that stands. `first` is the state after round 1.
fn tell(
    rt: &impl Print,
    page: &mut [u8; ANSWER],
    at: usize,
    names: &[u8; NAMES],
    place: i64,
    prior: &[u8; STATE],
    state: &[u8; STATE],
    first: &mut [u8; STATE],
    places: &[i64; ROUNDS],
    rounds: usize,
) -> usize {
    let r = book::round(prior) as usize;
    if rounds < r {
        return at;
    }
    if place_at(places, r) != place {
        return at;
    }
    let mut to = at;
    if r == 2 {
        to = rounds::put_cutback(rt, page, to, names, first, prior);
    }
    if is_told(prior, state, r, rounds) {
        to = rounds::put_round(rt, page, to, names, prior, state);
    }
    if r == 1 {
        *first = *state;
    }
    to
}

// A journal that has become another between the two times is none.
fn tell_all<F: Read + Seek>(
    rt: &impl Print,
    file: &mut F,
    page: &mut [u8; ANSWER],
    at: usize,
    names: &[u8; NAMES],
    last: &[u8; STATE],
    lines: u64,
    places: &[i64; ROUNDS],
    rounds: usize,
    first: &mut [u8; STATE],
    out: &mut [u8; ANSWER],
) -> usize {
    let mut state = [0u8; STATE];
    let mut prior = [0u8; STATE];
    let mut before = [0u8; STATE];
    let mut to = at;
    let mut place = 0;
    let mut played = begun();
    for _ in 0..u64::MAX {
        let turn = play_next(
            file,
            place,
            played,
            last,
            &mut state,
            &mut prior,
            &mut before,
            out,
        );
        played = turn.played;
        if turn.ended {
            if played.lines == lines {
                return to;
            }
            return paper::lost();
        }
        to = tell(
            rt, page, to, names, place, &prior, &state, first, places, rounds,
        );
        place = turn.place;
    }
    to
}

// ---- The page

fn put_many(page: &mut [u8; ANSWER], at: usize, rounds: usize) -> usize {
    if rounds <= MANY {
        return at;
    }
    paper::one(
        page,
        at,
        b"<p>Of the # rounds those are shown in which something was retained, denied, cancelled, deemed bid or outbid, with the first and the last. In the others every bid was taken as it was; their prices and what was held stand above.</p>\n",
        rounds as u64,
    )
}

fn put_charts(
    rt: &impl Print,
    page: &mut [u8; ANSWER],
    at: usize,
    names: &[u8; NAMES],
    opened: &[u8; STATE],
    last: &[u8; STATE],
    rounds: usize,
    prices: &[u32; SERIES],
    helds: &[u16; SERIES],
) -> usize {
    let told = rounds.min(ROUNDS - 1) as u16;
    let shown = if book::phase(last) == rules::OPEN {
        book::round(last)
    } else {
        told
    };
    let mut to = put(
        page,
        at,
        b"<section id=\"charts\">\n<h2>Prices by round</h2>\n",
    );
    to = paper::put_price_chart(rt, page, to, names, last, shown, prices);
    if 0 < rounds {
        to = put(
            page,
            to,
            b"<h2>Held against target by round</h2>\n<p class=\"lead\">Tranches held after each round; the target is the dashed line.</p>\n",
        );
        to = paper::put_held_charts(rt, page, to, names, opened, last, told, helds);
    }
    to = put(page, to, b"</section>\n");
    if MANY < rounds {
        to = paper::put_brief(
            rt,
            page,
            to,
            names,
            book::products(last),
            rounds,
            prices,
            helds,
        );
    }
    flush(rt, page, to)
}

fn put_rounds<F: Read + Seek>(
    rt: &impl Print,
    file: &mut F,
    page: &mut [u8; ANSWER],
    at: usize,
    names: &[u8; NAMES],
    last: &[u8; STATE],
    lines: u64,
    places: &[i64; ROUNDS],
    rounds: usize,
    out: &mut [u8; ANSWER],
) -> usize {
    let mut first = [0u8; STATE];
    let mut to = put(page, at, b"<section id=\"rounds\">\n<h2>Rounds</h2>\n");
    if rounds == 0 {
        to = put(page, to, b"<p>No round is calculated yet.</p>\n");
    }
    to = put_many(page, to, rounds);
    to = tell_all(
        rt, file, page, to, names, last, lines, places, rounds, &mut first, out,
    );
    if rounds == 1 {
        if book::round(last) == 2 {
            to = rounds::put_cutback(rt, page, to, names, &first, last);
        }
    }
    to = put(page, to, b"</section>\n");
    flush(rt, page, to)
}

fn write_page<R: Print + Aside, F: Read + Seek>(
    rt: &R,
    file: &mut F,
    path: &[u8],
    names: &[u8; NAMES],
    played: Played,
    returned: bool,
    opened: &[u8; STATE],
    last: &[u8; STATE],
    places: &[i64; ROUNDS],
    prices: &[u32; SERIES],
    helds: &[u16; SERIES],
    out: &mut [u8; ANSWER],
) -> u8 {
    let mut page = io::large_buffer();
    let rounds = paper::calculated(last, places);
    let lines = played.lines;
    let mut to = head::put_head(&mut page, 0, path, last, rounds, returned, played);
    to = head::put_settings(rt, &mut page, to, names, opened);
    to = flush(rt, &page, to);
    to = put_charts(
        rt, &mut page, to, names, opened, last, rounds, prices, helds,
    );
    to = put_rounds(
        rt, file, &mut page, to, names, last, lines, places, rounds, out,
    );
    to = ends::put_end(rt, &mut page, to, names, last);
    to = head::put_foot(&mut page, to, played);
    to = flush(rt, &page, to);
    if is_lost(to) {
        return refuse(rt, b"it could not be written whole\n", UNUSABLE);
    }
    FINE
}

// ---- The box and its journal

// The names belong to the auction that is in the box.
fn names_of(rt: &impl Files, path: &[u8], held: &[u8; STATE], state: &[u8; STATE]) -> [u8; NAMES] {
    let mut names = names::none();
    if *held == *state {
        paper::read_names(rt, path, &mut names);
    }
    names
}

fn page_of<R: Files + Print + Aside>(
    rt: &R,
    file: &mut R::File,
    path: &[u8],
    held: &[u8; STATE],
    played: Played,
    returned: bool,
    opened: &[u8; STATE],
    last: &[u8; STATE],
    places: &[i64; ROUNDS],
    prices: &mut [u32; SERIES],
    helds: &[u16; SERIES],
    out: &mut [u8; ANSWER],
) -> u8 {
    if is_issued(last) {
        return refuse(rt, b"the journal has no auction\n", NOT_OK);
    }
    if book::phase(last) == rules::OPEN {
        paper::note_prices(last, book::round(last) as usize, prices);
    }
    let names = names_of(rt, path, held, last);
    write_page(
        rt, file, path, &names, played, returned, opened, last, places, prices, helds, out,
    )
}

fn sheet_of<R: Files + Print + Aside>(
    rt: &R,
    file: &mut R::File,
    path: &[u8],
    named: bool,
    held: &[u8; STATE],
) -> u8 {
    let mut out = io::large_buffer();
    let mut state = [0u8; STATE];
    let mut prior = [0u8; STATE];
    let mut opened = [0u8; STATE];
    let mut places = [-1i64; ROUNDS];
    let mut prices = [0u32; SERIES];
    let mut helds = [0u16; SERIES];
    let played = play(
        file,
        held,
        &mut state,
        &mut prior,
        &mut opened,
        &mut places,
        &mut prices,
        &mut helds,
        &mut out,
    );
    if !matches!(played.fault, Fault::None) {
        return refuse_fault(rt, played, &out);
    }
    if played.torn {
        return refuse_torn(rt, played.lines);
    }
    if !named && *held != state {
        return refuse(
            rt,
            b"the box is not what its journal leaves; desk --check BOX says more\n",
            NOT_OK,
        );
    }
    // of a journal that a return closed the auction is the one before it
    let returned = is_issued(&state);
    if returned {
        state = prior;
    }
    page_of(
        rt,
        file,
        path,
        held,
        played,
        returned,
        &opened,
        &state,
        &places,
        &mut prices,
        &helds,
        &mut out,
    )
}

fn open_named<R: Files>(rt: &R, path: &[u8], journal: &[u8]) -> std::io::Result<R::File> {
    if journal.is_empty() {
        return store::open_journal(rt, path);
    }
    store::open_read(rt, journal)
}

fn refuse_unread(rt: &impl Aside, kind: ErrorKind, journal: &[u8]) -> u8 {
    if kind == ErrorKind::NotFound {
        if journal.is_empty() {
            return refuse(rt, b"the box has no journal\n", NOT_OK);
        }
        return refuse(rt, b"there is no such journal\n", UNUSABLE);
    }
    refuse(rt, b"the journal cannot be read\n", UNUSABLE)
}

fn of_journal<R: Files + Print + Aside>(
    rt: &R,
    path: &[u8],
    journal: &[u8],
    held: &[u8; STATE],
) -> u8 {
    match open_named(rt, path, journal) {
        Ok(mut file) => sheet_of(rt, &mut file, path, !journal.is_empty(), held),
        Err(e) => refuse_unread(rt, e.kind(), journal),
    }
}

// Nothing but a file is ever opened as a box: a pipe would be waited for.
fn is_no_file(rt: &impl Files, path: &[u8]) -> bool {
    let seen = store::seen(rt, path);
    seen.found & (seen.mode & look::KIND != look::FILE)
}

pub fn sheet<R: Files + Print + Aside>(rt: &R, path: &[u8], journal: &[u8]) -> u8 {
    let mut held = [0u8; STATE];
    if is_no_file(rt, path) {
        return refuse(rt, b"the box is no file\n", UNUSABLE);
    }
    match store::load(rt, path, &mut held) {
        Loaded::Whole => of_journal(rt, path, journal, &held),
        Loaded::Missing => {
            if !journal.is_empty() | store::is_beside(rt, path, b".journal") {
                return of_journal(rt, path, journal, &held);
            }
            refuse(rt, b"there is no such box\n", UNUSABLE)
        }
        Loaded::Wrong => refuse(
            rt,
            b"the file has another length than a box: it is none\n",
            UNUSABLE,
        ),
        Loaded::Unread(_) => refuse(rt, b"the box cannot be read\n", UNUSABLE),
    }
}
