// The whole program: its options, the box that it names, and what is done with it.
use crate::host::Host;
use crate::line::Desk;
use crate::shell::{Manner, serve, tell};
use audit::{Found, UNUSABLE, check, find, inspect, say, say_unread};
use layout::STATE;
use names::{NAMES, put_names};
use rules::Phase;
use std::env::FillError;
use std::rt::{Env, Files};
use store::{EINVAL, ENAMETOOLONG, Filled, Kind, drop_names, load_names, number_on};
use text::{ANSWER, Aside, put, put_named, put_status};

// ---- The box that is found

// What a box is, after its name.
fn put_box(out: &mut [u8; ANSWER], at: usize, kind: Kind, state: &[u8; STATE]) -> usize {
    match number_on(kind, state) {
        0 => put_auction(out, at, state),
        1 => {
            let a = put_named(
                out,
                at,
                b"of another length: no call will do; a box has ",
                STATE as u64,
            );
            put(out, a, b" bytes")
        }
        3 => put(out, at, b"issued"),
        _ => put(
            out,
            at,
            b"neither issued nor standing: no call but return will do; desk --check BOX says more",
        ),
    }
}

fn put_auction(out: &mut [u8; ANSWER], at: usize, state: &[u8; STATE]) -> usize {
    let round = book::round(state) as u64;
    match Phase::of(book::phase(state)) {
        Phase::Closed => put_named(out, at, b"closed in round ", round),
        Phase::Stopped => put_named(out, at, b"stopped in round ", round),
        _ => {
            let a = put_named(out, at, b"open, round ", round);
            let b = put(out, a, b", ");
            view::put_waiting(out, b, state)
        }
    }
}

// `desk: BOX: `, and what it is, to the person at the desk.
fn tell_box(
    rt: &impl Aside,
    desk: &Desk,
    is_new: bool,
    state: &[u8; STATE],
    out: &mut [u8; ANSWER],
) {
    let a = put(out, 0, b"desk: ");
    let b = put(out, a, desk.path);
    let c = put(out, b, b": ");
    let d = if is_new {
        put(out, c, b"no such file: a new box")
    } else {
        put_box(out, c, desk.kind, state)
    };
    let n = put(out, d, b"\n");
    let mut shown = io::large_buffer();
    let k = put_names(&mut shown, out, 0, n, &desk.names);
    tell(rt, &shown, k);
}

// The names that are kept beside a box whose auction stands. Of any other box, such as one whose return was cut off, they go.
fn names_beside<R: Files + Aside>(
    rt: &R,
    path: &[u8],
    state: &[u8; STATE],
    out: &mut [u8; ANSWER],
) -> [u8; NAMES] {
    let mut names = names::none();
    match number_on(Kind::Filed, state) {
        0 => {}
        3 => {
            drop_names(rt, path);
            return names;
        }
        _ => return names,
    }
    let mut room = io::large_buffer();
    match load_names(rt, path, &mut room) {
        Filled::Failed(_) => {
            text::warn(rt, b"desk: the names beside the box cannot be read\n");
            names
        }
        Filled::Bytes(n) => {
            let line = names::take_file(
                &room[..n.min(ANSWER)],
                book::bidders(state),
                book::products(state),
                &mut names,
                out,
            );
            if line != 0 {
                let a = put_named(out, 0, b"desk: the names beside the box: line ", line);
                let b = put(out, a, b" gives none and is passed over\n");
                tell(rt, out, b);
            }
            names
        }
    }
}

// A box that is not there is issued. One of another length is served too, so that each call answers its refusal.
fn serve_box(rt: &impl Host, manner: Manner, path: &[u8]) -> u8 {
    let mut state = [0u8; STATE];
    let mut out = io::large_buffer();
    let found = match find(rt, path, &mut state, &mut out) {
        Ok(found) => found,
        Err(status) => return status,
    };
    let desk = match found {
        Found::State | Found::Missing => Desk {
            kind: Kind::Filed,
            path,
            names: names_beside(rt, path, &state, &mut out),
        },
        Found::Wrong => Desk {
            kind: Kind::Wrong,
            path,
            names: names::none(),
        },
    };
    let is_new = matches!(found, Found::Missing);
    tell_box(rt, &desk, is_new, &state, &mut out);
    serve(rt, manner, desk, &mut state)
}

// ---- The options

// What is to be done with the box.
#[derive(Clone, Copy)]
enum Task {
    Serve,
    Check,
    Returned,
}

// What was asked for, and which arguments name the box and, for a check, a journal.
#[derive(Clone, Copy)]
struct Options {
    task: Task,
    tells: bool,
    echoes: bool,
    bails: bool,
    wrong: bool,
    boxed: Option<usize>,
    journal: Option<usize>,
}

fn nothing_asked() -> Options {
    Options {
        task: Task::Serve,
        tells: false,
        echoes: false,
        bails: false,
        wrong: false,
        boxed: None,
        journal: None,
    }
}

// An argument that is no option names the box, and after it a journal.
fn with_name(o: Options, i: usize) -> Options {
    let mut with = o;
    if o.boxed.is_none() {
        with.boxed = Some(i);
    } else if o.journal.is_none() {
        with.journal = Some(i);
    } else {
        with.wrong = true;
    }
    with
}

fn with_argument(o: Options, i: usize, argument: &[u8]) -> Options {
    if !argument.starts_with(b"-") {
        return with_name(o, i);
    }
    let mut with = o;
    match argument {
        b"--bail" => with.bails = true,
        b"--echo" => with.echoes = true,
        b"--tell" => with.tells = true,
        b"--check" => with.task = Task::Check,
        b"--returned" => with.task = Task::Returned,
        _ => with.wrong = true,
    }
    with
}

fn options_given(rt: &impl Env) -> Options {
    let mut o = nothing_asked();
    for i in 1..10 {
        let mut room = io::buffer();
        let n = match rt.arg(i, &mut room) {
            Ok(n) => n,
            Err(FillError::TooLong) => 0,
            Err(FillError::NotPresent) => return o,
        };
        o = with_argument(o, i, &room[..n]);
    }
    o.wrong = true;
    o
}

// ---- The program

fn serve_named(rt: &impl Host, o: Options) -> u8 {
    let manner = Manner {
        echoes: o.echoes,
        bails: o.bails,
        asks: rt.is_typed(),
    };
    let mut out = io::large_buffer();
    if o.journal.is_some() {
        say(rt, &mut out, b"error one box at most can be named\n");
        return UNUSABLE;
    }
    let Some(boxed) = o.boxed else {
        if manner.asks {
            text::warn(
                rt,
                b"desk: no box file: what is done here ends with this desk\n",
            );
        }
        let mut state = [0u8; STATE];
        let desk = Desk {
            kind: Kind::Loose,
            path: b"",
            names: names::none(),
        };
        return serve(rt, manner, desk, &mut state);
    };
    let mut path = io::buffer();
    let n = match rt.arg(boxed, &mut path) {
        Ok(n) => n,
        Err(FillError::TooLong) => return say_unread(rt, &mut out, ENAMETOOLONG),
        Err(FillError::NotPresent) => return say_unread(rt, &mut out, EINVAL),
    };
    if n == 0 {
        say(rt, &mut out, b"error the name of the box is empty\n");
        return UNUSABLE;
    }
    serve_box(rt, manner, &path[..n])
}

// An argument that is longer than the room counts as an empty one.
fn check_named(rt: &impl Host, boxed: usize, journal: Option<usize>) -> u8 {
    let mut path = io::buffer();
    let n = rt.arg(boxed, &mut path).unwrap_or(0);
    let Some(journal) = journal else {
        return check(rt, &path[..n], b"");
    };
    let mut named = io::buffer();
    let j = rt.arg(journal, &mut named).unwrap_or(0);
    check(rt, &path[..n], &named[..j])
}

fn inspect_named(rt: &impl Host, boxed: usize) -> u8 {
    let mut path = io::buffer();
    let n = rt.arg(boxed, &mut path).unwrap_or(0);
    inspect(rt, &path[..n])
}

fn done(rt: &impl Host, o: Options) -> u8 {
    let mut out = io::large_buffer();
    if o.wrong {
        say(
            rt,
            &mut out,
            b"error no such option, or too many names; ./desk --help says what there is\n",
        );
        return UNUSABLE;
    }
    match (o.task, o.boxed) {
        (Task::Serve, _) => serve_named(rt, o),
        (_, None) => {
            say(rt, &mut out, b"error which box? its name is missing\n");
            UNUSABLE
        }
        (Task::Check, Some(boxed)) => check_named(rt, boxed, o.journal),
        (Task::Returned, Some(boxed)) => inspect_named(rt, boxed),
    }
}

pub fn run(rt: &impl Host) {
    let o = options_given(rt);
    let status = done(rt, o);
    if o.tells {
        put_status(rt, status);
    }
}
