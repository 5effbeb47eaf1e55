// A line, answered: its first word names the command.
ghost use Rattle.calls.specs.Lines.{Left, first_word};
ghost use Rattle.std.specs.Prelude.{◌⊎◌, ◌≡◌};

use asked::ends;
use calls::{Made, make};
use layout::STATE;
use looks::look;
use names::{NAMES, Naming};
use rules::Phase;
use std::fs::File;
use std::rt::Files;
use store::{Act, Kind, Numbered, Undo, copy_before, keep, number_on, put_reason, save_names};
use text::{ANSWER, Cursor, control_at, put, put_named, word, wrong_number};
use view::put_form;

// What is served: what the box's file is, where it lies, and the names that are given beside it.
#[derive(Clone, Copy)]
pub struct Desk<'a> {
    pub kind: Kind,
    pub path: &'a [u8],
    pub names: [u8; NAMES],
}

// What comes after an answer.
#[derive(Clone, Copy)]
pub enum Next {
    Goes,
    // It is a question, and the line is done only if it is answered by yes.
    Asks,
    // Whether the run ends from now on at the first line that is not answered ok.
    Bails(bool),
    Quits,
    // The box can be relied on no more.
    Breaks,
}

// How long the answer is, and what comes after it.
#[derive(Clone, Copy)]
pub struct Said {
    pub n: usize,
    pub next: Next,
}

fn told(n: usize) -> Said {
    Said {
        n,
        next: Next::Goes,
    }
}

// ---- Questions

fn ask_calculation(out: &mut [u8; ANSWER], state: &[u8; STATE]) -> usize {
    match console::count(state) {
        Ok(n) => {
            if n == 0 {
                return 0;
            }
            let a = put(out, 0, b"not filed yet, by bidder: ");
            let b = view::put_missing(out, a, state);
            put(
                out,
                b,
                b"\n  a default bid will stand for each of them. Calculate all the same? (yes or no)\n",
            )
        }
        Err(_) => 0,
    }
}

fn ask_return(out: &mut [u8; ANSWER], state: &[u8; STATE]) -> usize {
    match Phase::of(book::phase(state)) {
        Phase::Issued | Phase::Closed => 0,
        Phase::Open => {
            let a = put_named(
                out,
                0,
                b"the auction is open, in round ",
                book::round(state) as u64,
            );
            put(
                out,
                a,
                b"\n  a return makes every byte of it zero. Return all the same? (yes or no)\n",
            )
        }
        Phase::Stopped => put(
            out,
            0,
            b"the auction is stopped, not closed\n  a return makes every byte of it zero. Return all the same? (yes or no)\n",
        ),
    }
}

// The question that a person is asked before a call that is about to be kept: its length, or 0 where there is none.
fn question(act: Act, out: &mut [u8; ANSWER], state: &[u8; STATE]) -> usize {
    match act {
        Act::Calculation => ask_calculation(out, state),
        Act::Return => ask_return(out, state),
        Act::Plain | Act::Opening | Act::Undo => 0,
    }
}

// ---- A call kept

// A call that is done on a copy is kept, or first asked about.
fn settle<R: Files<File = File> + Numbered>(
    rt: &R,
    asks: bool,
    act: Act,
    n: usize,
    desk: &Desk,
    given: &[u8],
    state: &mut [u8; STATE],
    work: [u8; STATE],
    out: &mut [u8; ANSWER],
) -> Said
    ensures { (state.new ≡ state.old) ⊎ (state.new ≡ work) }
{
    if asks {
        let q = question(act, out, state);
        if q != 0 {
            return Said {
                n: q,
                next: Next::Asks,
            };
        }
    }
    let done = keep(rt, desk.kind, desk.path, act, given, n, state, work, out);
    if done.ends {
        return Said {
            n: done.said,
            next: Next::Breaks,
        };
    }
    told(done.said)
}

// What was put back is said after the answer's first line.
fn undone(told: Said, out: &mut [u8; ANSWER], state: &[u8; STATE]) -> Said {
    if out[0] != b'o' {
        return told;
    }
    Said {
        n: view::put_back(out, told.n, state),
        ..told
    }
}

// `undo`: the state before the last calculation or return comes back.
fn undo<R: Files<File = File> + Numbered>(
    rt: &R,
    line: &[u8],
    c: Cursor,
    desk: &Desk,
    state: &mut [u8; STATE],
    out: &mut [u8; ANSWER],
) -> Said {
    let more = ends(line, c, out);
    if more != 0 {
        return told(more);
    }
    match desk.kind {
        Kind::Filed => {}
        Kind::Loose => {
            return told(put(
                out,
                0,
                b"error nothing to undo: a copy is kept beside a box file only\n",
            ));
        }
        Kind::Wrong => return told(calls::other_length(desk.kind, state, out)),
    }
    let mut copy = [0u8; STATE];
    match copy_before(rt, desk.path, state, &mut copy) {
        Undo::Copy => {}
        Undo::Nothing => {
            return told(put(
                out,
                0,
                b"error nothing to undo: no calculation or return since the last undo or opening\n",
            ));
        }
        Undo::Strange => {
            return told(put(
                out,
                0,
                b"error nothing is undone: the copy beside the box is no state of a box\n",
            ));
        }
    }
    let n = put(out, 0, b"ok\n");
    let told = settle(rt, false, Act::Undo, n, desk, b"undo", state, copy, out);
    undone(told, out, state)
}

// ---- Names

// The names of an auction go with it: an issued box has none.
fn forget(names: &mut [u8; NAMES], state: &[u8; STATE]) {
    if let Phase::Issued = Phase::of(book::phase(state)) {
        *names = names::none();
    }
}

// Why no name can be given: the length of what is said, or 0.
fn unnamed(kind: Kind, state: &[u8; STATE], out: &mut [u8; ANSWER]) -> usize {
    match number_on(kind, state) {
        0 => 0,
        3 => put(
            out,
            0,
            b"error names belong to an auction; open one first\n",
        ),
        n => calls::refused(n, state, out),
    }
}

// Beside a box file the names are kept: 0, or the system's number for what failed.
fn keep_names<R: Files<File = File> + Numbered>(
    rt: &R,
    desk: &Desk,
    names: &[u8; NAMES],
    out: &mut [u8; ANSWER],
) -> i32 {
    match desk.kind {
        Kind::Loose | Kind::Wrong => 0,
        Kind::Filed => {
            let n = names::put_file(out, names);
            save_names(rt, desk.path, &out[..n.min(ANSWER)])
        }
    }
}

fn not_kept(why: i32, out: &mut [u8; ANSWER]) -> usize {
    let a = put(out, 0, b"error the names were not written: ");
    let b = put_reason(out, a, why);
    put(out, b, b"; nothing is changed\n")
}

// `ok`, and the number with its name, which is put beside it when the answer is written.
fn put_given(given: Naming, out: &mut [u8; ANSWER]) -> usize {
    let numbers = [given.number as u64];
    if given.bidder {
        return put_form(out, 0, b"ok\n  bidder &\n", &numbers);
    }
    put_form(out, 0, b"ok\n  product %\n", &numbers)
}

// `name bidder B NAME`, `name product P NAME`: a name that cannot be kept is not given.
fn name<R: Files<File = File> + Numbered>(
    rt: &R,
    line: &[u8],
    c: Cursor,
    desk: &mut Desk,
    state: &[u8; STATE],
    out: &mut [u8; ANSWER],
) -> usize {
    let given = names::asked_for(line, c, out);
    if given.said != 0 {
        return given.said;
    }
    let none = unnamed(desk.kind, state, out);
    if none != 0 {
        return none;
    }
    let mut with = desk.names;
    let wrong = names::take(
        line,
        given,
        book::bidders(state),
        book::products(state),
        &mut with,
        out,
    );
    if wrong != 0 {
        return wrong;
    }
    let why = keep_names(rt, desk, &with, out);
    if why != 0 {
        return not_kept(why, out);
    }
    desk.names = with;
    put_given(given, out)
}

fn show_names(
    line: &[u8],
    c: Cursor,
    desk: &Desk,
    state: &[u8; STATE],
    out: &mut [u8; ANSWER],
) -> usize {
    let more = ends(line, c, out);
    if more != 0 {
        return more;
    }
    let none = unnamed(desk.kind, state, out);
    if none != 0 {
        return none;
    }
    names::show(out, &desk.names)
}

// ---- Commands

fn quit(line: &[u8], c: Cursor, out: &mut [u8; ANSWER]) -> Said {
    let more = ends(line, c, out);
    if more != 0 {
        return told(more);
    }
    Said {
        n: put(out, 0, b"ok\n"),
        next: Next::Quits,
    }
}

// `bail on`, `bail off`
fn bail(line: &[u8], c: Cursor, out: &mut [u8; ANSWER]) -> Said {
    let span = word(line, c);
    let a = span.from;
    let e = span.to;
    let bails = match &line[a..e] {
        b"on" => true,
        b"off" => false,
        _ => return told(text::wrong(out, b"bail is on or off", a)),
    };
    let more = ends(line, Cursor { at: e }, out);
    if more != 0 {
        return told(more);
    }
    Said {
        n: put(out, 0, b"ok\n"),
        next: Next::Bails(bails),
    }
}

// A command that makes no call, by its word.
fn without_call<R: Files<File = File> + Numbered>(
    rt: &R,
    w: &[u8],
    at: usize,
    line: &[u8],
    c: Cursor,
    desk: &mut Desk,
    state: &mut [u8; STATE],
    out: &mut [u8; ANSWER],
) -> Said
    ensures { Left w.now state.old state.new }
{
    match w {
        b"undo" => undo(rt, line, c, desk, state, out),
        b"name" => told(name(rt, line, c, desk, state, out)),
        b"names" => told(show_names(line, c, desk, state, out)),
        b"bail" => bail(line, c, out),
        b"quit" | b"exit" => quit(line, c, out),
        _ => told(look(w, at, line, c, desk.kind, state, out)),
    }
}

// A command: its word, the place of that, and what was given from the word on.
fn command<R: Files<File = File> + Numbered>(
    rt: &R,
    w: &[u8],
    at: usize,
    given: &[u8],
    line: &[u8],
    c: Cursor,
    asks: bool,
    desk: &mut Desk,
    state: &mut [u8; STATE],
    out: &mut [u8; ANSWER],
) -> Said
    ensures { Left w.now state.old state.new }
{
    let mut work = *state;
    match make(w, line, c, desk.kind, &mut work, out) {
        Made::Done(act, n) => {
            let told = settle(rt, asks, act, n, desk, given, state, work, out);
            forget(&mut desk.names, state);
            told
        }
        Made::Said(n) => told(n),
        Made::Other => without_call(rt, w, at, line, c, desk, state, out),
    }
}

// Answers a line. Nothing is said to an empty one, or to one that begins with #.
pub fn answer<R: Files<File = File> + Numbered>(
    rt: &R,
    line: &[u8],
    asks: bool,
    desk: &mut Desk,
    state: &mut [u8; STATE],
    out: &mut [u8; ANSWER],
) -> Said
    ensures { Left (first_word line.now) state.old state.new }
{
    let span = word(line, Cursor { at: 0 });
    let a = span.from;
    let e = span.to;
    if a == e {
        return told(0);
    }
    if line[a] == b'#' {
        return told(0);
    }
    let bad = control_at(line);
    if bad < line.len() {
        return told(wrong_number(
            out,
            b"a control character, byte ",
            line[bad] as u64,
            b"",
            bad,
        ));
    }
    command(
        rt,
        &line[a..e],
        a,
        &line[a..],
        line,
        Cursor { at: e },
        asks,
        desk,
        state,
        out,
    )
}
