// `--check BOX [JOURNAL]`: the calls of a journal are made again from an issued box; every answer and every sum has to be the journal's,
// and the box what they leave. Nothing is changed.
use crate::found::{Found, find, say, say_missing, say_wrong};
use crate::{FINE, NOT_OK, UNUSABLE};
use calls::{Made, make};
use check::same;
use layout::STATE;
use std::io::{ErrorKind, Read, Seek, SeekFrom};
use std::rt::Files;
use store::{Act, Kind, SUM};
use text::{ANSWER, Cursor, put, put_named, read_again, send, word};

// ---- One line

// What is wrong with a line.
#[derive(Clone, Copy)]
pub enum Fault {
    None,
    // The journal cannot be read on.
    Unread,
    NotALine,
    Begun,
    NotACall,
    // With the length of the answer that it gets now.
    Refused(usize),
    OtherAnswer,
    OtherSum,
}

// The text begins after the sum and a space.
const TEXT: usize = SUM + 1;

// Whether the first line of the answer is the one that the journal has.
fn is_said(answer: &[u8], said: &[u8]) -> bool {
    answer.starts_with(said) && matches!(answer.get(said.len()), Some(b'\n'))
}

// A call made again. `prior` is the state before it.
fn play_call(
    said: &[u8],
    given: &[u8],
    state: &mut [u8; STATE],
    prior: &[u8; STATE],
    before: &mut [u8; STATE],
    out: &mut [u8; ANSWER],
) -> Result<(), Fault> {
    let span = word(given, Cursor { at: 0 });
    let a = span.from;
    let e = span.to;
    match make(
        &given[a..e],
        given,
        Cursor { at: e },
        Kind::Filed,
        state,
        out,
    ) {
        Made::Done(act, n) => {
            if matches!(act, Act::Calculation | Act::Return) {
                *before = *prior;
            }
            if is_said(&out[..n.min(ANSWER)], said) {
                return Ok(());
            }
            Err(Fault::OtherAnswer)
        }
        Made::Said(n) => Err(Fault::Refused(n)),
        Made::Other => Err(Fault::NotACall),
    }
}

// A line's text made again: `void` takes back the line before it, `undo` the last calculation or return and what came after.
fn play_text(
    said: &[u8],
    given: &[u8],
    state: &mut [u8; STATE],
    prior: &mut [u8; STATE],
    before: &mut [u8; STATE],
    out: &mut [u8; ANSWER],
) -> Result<(), Fault> {
    if same(said, b"found") {
        return Err(Fault::Begun);
    }
    if same(said, b"void") {
        *state = *prior;
        return Ok(());
    }
    *prior = *state;
    if same(given, b"undo") {
        *state = *before;
        return Ok(());
    }
    play_call(said, given, state, prior, before, out)
}

fn play_line(
    line: &[u8],
    sum: &[u8; SUM],
    state: &mut [u8; STATE],
    prior: &mut [u8; STATE],
    before: &mut [u8; STATE],
    out: &mut [u8; ANSWER],
) -> Result<(), Fault> {
    let text = line.get(TEXT..).ok_or(Fault::NotALine)?;
    // no answer has a colon
    let k = text.iter().position(|b| *b == b':').ok_or(Fault::NotALine)?;
    if text.len() - k < 3 {
        return Err(Fault::NotALine);
    }
    play_text(
        &text[..k],
        &text[k + 2..text.len() - 1],
        state,
        prior,
        before,
        out,
    )?;
    if store::fits(line, 0, line.len(), sum, state) {
        return Ok(());
    }
    Err(Fault::OtherSum)
}

// ---- All lines

// How far the journal was played.
#[derive(Clone, Copy)]
pub struct Played {
    // Whole lines, and the last of them after which the state was the box's.
    pub lines: u64,
    pub fitting: u64,
    pub fault: Fault,
    // The last sum, and whether bytes are left that are no whole line.
    pub sum: [u8; SUM],
    pub torn: bool,
}

pub fn begun() -> Played {
    let sum = store::no_sum();
    Played {
        lines: 0,
        fitting: 0,
        fault: Fault::None,
        sum,
        torn: false,
    }
}

// What was read from the place of the next line on: it is played, and the place after it found.
#[derive(Clone, Copy)]
pub struct Turn {
    pub played: Played,
    pub ended: bool,
    pub place: i64,
}

fn after_line<F: Seek>(
    file: &mut F,
    place: i64,
    line: &[u8],
    played: Played,
    held: &[u8; STATE],
    state: &mut [u8; STATE],
    prior: &mut [u8; STATE],
    before: &mut [u8; STATE],
    out: &mut [u8; ANSWER],
) -> Turn {
    let fault = play_line(line, &played.sum, state, prior, before, out)
        .err()
        .unwrap_or(Fault::None);
    let lines = std::num::wrapping_add_u64(played.lines, 1);
    let mut fitting = played.fitting;
    if same(state, held) {
        fitting = lines;
    }
    let next = store::sum_at(line, 0, line.len());
    let _ = file.seek(SeekFrom::Start(place.cast_unsigned()));
    let after = match file.seek(SeekFrom::Current(line.len() as i64)) {
        Ok(at) => at.cast_signed(),
        Err(_) => return faulty_at(played, Fault::Unread),
    };
    Turn {
        played: Played {
            lines,
            fitting,
            fault,
            sum: next,
            torn: false,
        },
        ended: !matches!(fault, Fault::None),
        place: after,
    }
}

fn ended_at(played: Played, torn: bool) -> Turn {
    Turn {
        played: Played { torn, ..played },
        ended: true,
        place: 0,
    }
}

// The next line cannot be played.
fn faulty_at(played: Played, fault: Fault) -> Turn {
    Turn {
        played: Played {
            lines: std::num::wrapping_add_u64(played.lines, 1),
            fault,
            torn: false,
            ..played
        },
        ended: true,
        place: 0,
    }
}

// No line that a desk writes is as long as this.
const LONGEST: usize = 4096;

// The first line of what was read, where there is a whole one.
fn play_first<F: Seek>(
    file: &mut F,
    place: i64,
    bytes: &[u8],
    played: Played,
    held: &[u8; STATE],
    state: &mut [u8; STATE],
    prior: &mut [u8; STATE],
    before: &mut [u8; STATE],
    out: &mut [u8; ANSWER],
) -> Turn {
    let Some(k) = bytes.iter().position(|b| *b == b'\n') else {
        if LONGEST <= bytes.len() {
            return faulty_at(played, Fault::NotALine);
        }
        return ended_at(played, bytes.len() != 0);
    };
    after_line(
        file,
        place,
        &bytes[..k + 1],
        played,
        held,
        state,
        prior,
        before,
        out,
    )
}

pub fn play_next<F: Read + Seek>(
    file: &mut F,
    place: i64,
    played: Played,
    held: &[u8; STATE],
    state: &mut [u8; STATE],
    prior: &mut [u8; STATE],
    before: &mut [u8; STATE],
    out: &mut [u8; ANSWER],
) -> Turn {
    let mut room = io::buffer();
    let _ = file.seek(SeekFrom::Start(place.cast_unsigned()));
    let n = match read_again(file, &mut room) {
        Ok(n) => n,
        Err(_) => return faulty_at(played, Fault::Unread),
    };
    play_first(
        file,
        place,
        &room[..n],
        played,
        held,
        state,
        prior,
        before,
        out,
    )
}

fn play_all<F: Read + Seek>(
    file: &mut F,
    held: &[u8; STATE],
    state: &mut [u8; STATE],
    prior: &mut [u8; STATE],
    out: &mut [u8; ANSWER],
) -> Played {
    let mut before = [0u8; STATE];
    let mut place = 0;
    let mut played = begun();
    for _ in 0..u64::MAX {
        let turn = play_next(file, place, played, held, state, prior, &mut before, out);
        played = turn.played;
        if turn.ended {
            return played;
        }
        place = turn.place;
    }
    played
}

// ---- What is said

pub fn put_fault(told: &mut [u8; ANSWER], at: usize, fault: Fault, out: &[u8]) -> usize {
    match fault {
        Fault::None => at,
        Fault::Unread => put(told, at, b"the journal cannot be read from here on\n"),
        Fault::NotALine => put(told, at, b"this is no line of a journal\n"),
        Fault::Begun => put(
            told,
            at,
            b"the journal was begun on a box that was not issued; what follows cannot be played\n",
        ),
        Fault::NotACall => put(told, at, b"what was given is no call\n"),
        Fault::Refused(n) => {
            let a = put(told, at, b"the call is not accepted: ");
            match out.get(..n) {
                Some(why) => put(told, a, why),
                None => a,
            }
        }
        Fault::OtherAnswer => put(told, at, b"the answer is another\n"),
        Fault::OtherSum => put(
            told,
            at,
            b"the sum is another: this line, the sum before it or the state is not what it was\n",
        ),
    }
}

fn say_fault(rt: &impl Print, played: Played, out: &[u8; ANSWER]) -> u8 {
    let mut told = io::large_buffer();
    let a = put_named(&mut told, 0, b"error line ", played.lines);
    let b = put(&mut told, a, b": ");
    let n = put_fault(&mut told, b, played.fault, out);
    send(rt, &told, n);
    NOT_OK
}

fn put_lines(out: &mut [u8; ANSWER], played: Played) -> usize {
    let a = put_named(out, 0, b"ok ", played.lines);
    let b = if played.lines == 1 {
        put(out, a, b" line\n  last sum ")
    } else {
        put(out, a, b" lines\n  last sum ")
    };
    let c = put(out, b, &played.sum);
    let d = put(out, c, b"\n");
    if played.torn {
        return put(
            out,
            d,
            b"  a part of a line is left after them, of a call that was not finished\n",
        );
    }
    d
}

fn say_end(rt: &impl Print, out: &mut [u8; ANSWER], played: Played, what: &[u8]) -> u8 {
    let a = put_lines(out, played);
    let n = put(out, a, what);
    if send(rt, out, n) {
        return FINE;
    }
    UNUSABLE
}

fn say_other(rt: &impl Print, out: &mut [u8; ANSWER], played: Played) -> u8 {
    let a = put_named(
        out,
        0,
        b"error the box is not what the journal leaves after line ",
        played.lines,
    );
    let b = if played.fitting == 0 {
        put(out, a, b"; it is not in it\n")
    } else {
        let c = put_named(out, a, b"; it is what line ", played.fitting);
        put(out, c, b" leaves\n")
    };
    send(rt, out, b);
    NOT_OK
}

pub fn is_issued(state: &[u8; STATE]) -> bool {
    state.iter().all(|b| *b == 0)
}

// The states that the last line and the one before it leave, beside the box.
fn compare(
    rt: &impl Print,
    played: Played,
    closed: bool,
    held: &[u8; STATE],
    state: &[u8; STATE],
    prior: &[u8; STATE],
    out: &mut [u8; ANSWER],
) -> u8 {
    if !matches!(played.fault, Fault::None) {
        return say_fault(rt, played, out);
    }
    if closed && is_issued(state) {
        return say_end(rt, out, played, b"  closed by a return\n");
    }
    if same(held, state) {
        return say_end(rt, out, played, b"  the box is what the last line leaves\n");
    }
    if same(held, prior) {
        return say_end(
            rt,
            out,
            played,
            b"  the box is what the line before the last leaves: the last call was not finished\n",
        );
    }
    say_other(rt, out, played)
}

fn check_open<R: Files + Print>(
    rt: &R,
    journal: R::File,
    closed: bool,
    held: &[u8; STATE],
    out: &mut [u8; ANSWER],
) -> u8 {
    let mut file = journal;
    let mut state = [0u8; STATE];
    let mut prior = [0u8; STATE];
    let played = play_all(&mut file, held, &mut state, &mut prior, out);
    drop(file);
    compare(rt, played, closed, held, &state, &prior, out)
}

// Without a journal a box is as it was issued, or cannot be checked.
fn check_without(rt: &impl Print, held: &[u8; STATE], out: &mut [u8; ANSWER]) -> u8 {
    if is_issued(held) {
        say(
            rt,
            out,
            b"ok 0 lines\n  there is no journal, and every byte of the box is zero\n",
        );
        return FINE;
    }
    say(rt, out, b"error the box has no journal\n");
    NOT_OK
}

fn check_unread(rt: &impl Print, out: &mut [u8; ANSWER]) -> u8 {
    say(rt, out, b"error the journal cannot be read\n");
    UNUSABLE
}

fn check_state<R: Files + Print>(
    rt: &R,
    path: &[u8],
    journal: &[u8],
    held: &[u8; STATE],
    out: &mut [u8; ANSWER],
) -> u8 {
    if journal.len() != 0 {
        return match store::open_read(rt, journal) {
            Ok(named) => check_open(rt, named, true, held, out),
            Err(_) => check_unread(rt, out),
        };
    }
    match store::open_journal(rt, path) {
        Ok(own) => check_open(rt, own, false, held, out),
        Err(e) => {
            if e.kind() == ErrorKind::NotFound {
                return check_without(rt, held, out);
            }
            check_unread(rt, out)
        }
    }
}

pub fn check<R: Files + Print>(rt: &R, path: &[u8], journal: &[u8]) -> u8 {
    let mut held = [0u8; STATE];
    let mut out = io::large_buffer();
    match find(rt, path, &mut held, &mut out) {
        Ok(Found::State) => check_state(rt, path, journal, &held, &mut out),
        // a first opening that was cut off has left a journal, and no box yet
        Ok(Found::Missing) => {
            if journal.len() != 0 || store::is_beside(rt, path, b".journal") {
                return check_state(rt, path, journal, &held, &mut out);
            }
            say_missing(rt, &mut out)
        }
        Ok(Found::Wrong) => say_wrong(rt, &mut out),
        Err(status) => status,
    }
}
