// The loop: a line of standard input is answered as soon as it is read. A run leaves what its lines, one after the other, leave.
ghost use Rattle.std.specs.Prelude.{◌≤◌, ◌<◌, length, ◌≡◌};
ghost use Rattle.calls.specs.Lines.{Served};

use crate::host::Host;
use crate::line::{Desk, Next, Said, answer};
use audit::{FINE, NOT_OK, UNUSABLE};
use layout::STATE;
use names::{NAMES, put_names};
use rules::Phase;
use std::io::Read;
use store::{Kind, number_on};
use text::{
    ANSWER, Aside, Cursor, Input, join_lines, keep_rest, next_end, put, put_named, read_again,
    send, skip_on, word,
};

// Room for a line of 2,048 bytes and its end.
const LINE: usize = 2049;

// How a run goes: whether each line is written before its answer, whether it ends at the first that is not answered ok, and whether a
// person types, who is asked before what cannot be undone.
#[derive(Clone, Copy)]
pub struct Manner {
    pub echoes: bool,
    pub bails: bool,
    pub asks: bool,
}

// How it has gone so far: whether a line was answered, the status that the run would end with, whether it ends now, whether it bails, and
// how long the line is that a question stands for; 0 where none does.
#[derive(Clone, Copy)]
pub struct Course {
    pub begun: bool,
    pub status: u8,
    pub ended: bool,
    pub bails: bool,
    pub asked: usize,
}

impl Course {
    pub fn new(bails: bool) -> Course {
        Course {
            begun: false,
            status: FINE,
            ended: false,
            bails,
            asked: 0,
        }
    }

    fn goes(self) -> Course {
        Course {
            begun: true,
            ended: false,
            asked: 0,
            ..self
        }
    }

    fn broken(self) -> Course {
        Course {
            status: UNUSABLE,
            ended: true,
            ..self.goes()
        }
    }

    // A line was not answered ok.
    fn fallen(self) -> Course {
        Course {
            status: NOT_OK,
            ended: self.bails,
            ..self.goes()
        }
    }

    fn quits(self) -> Course {
        Course {
            ended: true,
            ..self.goes()
        }
    }

    fn with_bail(self, bails: bool) -> Course {
        Course {
            bails,
            ..self.goes()
        }
    }

    fn asks(self, n: usize) -> Course {
        Course {
            asked: n,
            ..self.goes()
        }
    }
}

// A run: what it serves, how it goes, how it has gone so far, and the line that a question stands for.
#[derive(Drop)]
pub struct Run<'a> {
    pub desk: Desk<'a>,
    pub manner: Manner,
    pub course: Course,
    pub held: [u8; LINE],
}

// Whether an answer is `ok`, or none.
fn is_ok(out: &[u8; ANSWER], n: usize) -> bool {
    n == 0 || out.starts_with(b"ok")
}

// So much of an answer, and the rest of its last line, has room in another one with its names.
const PART: usize = 16384;

// Where the part of an answer ends that begins at a place.
fn part_end(out: &[u8; ANSWER], from: usize, n: usize) -> usize
    requires { (from < n) × (n ≤ 65536) }
    ensures { (from < result) × (result ≤ n) }
{
    if n - from <= PART {
        return n;
    }
    let at = from + PART;
    match out[at..n].iter().position(|b| *b == b'\n') {
        Some(i) => at + i + 1,
        None => n,
    }
}

// Writes the answer with the names beside its numbers, part by part: whether all was taken.
fn send_named(rt: &impl Print, out: &[u8; ANSWER], n: usize, names: &[u8; NAMES]) -> bool {
    if ANSWER < n {
        return false;
    }
    let mut shown = io::large_buffer();
    let mut from = 0;
    while from < n {
        let to = part_end(out, from, n);
        let k = put_names(&mut shown, out, from, to, names);
        if !send(rt, &shown, k) {
            return false;
        }
        from = to;
    }
    true
}

// Writes the answer, and takes in what it was. `length` is that of the line.
fn take_in(
    rt: &impl Print,
    course: Course,
    told: Said,
    length: usize,
    names: &[u8; NAMES],
    out: &[u8; ANSWER],
) -> Course {
    if !send_named(rt, out, told.n, names) {
        return course.broken();
    }
    match told.next {
        Next::Asks => course.asks(length),
        Next::Bails(bails) => course.with_bail(bails),
        Next::Quits => course.quits(),
        Next::Breaks => course.broken(),
        Next::Goes => {
            if is_ok(out, told.n) {
                course.goes()
            } else {
                course.fallen()
            }
        }
    }
}

// ---- A line echoed

fn is_remark(line: &[u8]) -> bool {
    let span = word(line, Cursor { at: 0 });
    matches!(line.get(span.from), Some(b'#'))
}

fn is_empty(line: &[u8]) -> bool {
    let span = word(line, Cursor { at: 0 });
    span.from == span.to
}

// A byte that would do something to a terminal is shown as a question mark.
fn shown(byte: u8) -> u8 {
    match byte {
        b'\t' => byte,
        0..=31 | 127 => b'?',
        _ => byte,
    }
}

fn put_shown(out: &mut [u8; ANSWER], at: usize, line: &[u8]) -> usize {
    let mut to = at;
    for byte in line {
        to = put(out, to, &[shown(*byte)]);
    }
    put(out, to, b"\n")
}

// A command stands after `> `, a remark or an empty line as it is.
fn echo(rt: &impl Print, line: &[u8], out: &mut [u8; ANSWER]) -> bool {
    if is_remark(line) || is_empty(line) {
        let n = put_shown(out, 0, line);
        return send(rt, out, n);
    }
    let a = put(out, 0, b"> ");
    let n = put_shown(out, a, line);
    send(rt, out, n)
}

// ---- A line answered

// The line that a question stands for is kept.
fn hold(line: &[u8], held: &mut [u8; LINE]) {
    let n = line.len().min(LINE);
    held[..n].copy_from_slice(&line[..n]);
}

fn respond_to(
    rt: &impl Host,
    line: &[u8],
    asks: bool,
    desk: &mut Desk,
    course: Course,
    state: &mut [u8; STATE],
    out: &mut [u8; ANSWER],
) -> Course
    ensures { Served state.old state.new }
{
    let told = answer(rt, line, asks, desk, state, out);
    take_in(rt, course, told, line.len(), &desk.names, out)
}

fn respond_no(rt: &impl Print, course: Course, out: &mut [u8; ANSWER]) -> Course {
    let n = put(out, 0, b"not done\n");
    if send(rt, out, n) {
        return course.goes();
    }
    course.broken()
}

// Whether a line says yes to the question that stands, or no; none where it is a line like any other, which drops the question.
fn reply_of(line: &[u8]) -> Option<bool> {
    let span = word(line, Cursor { at: 0 });
    match &line[span.from..span.to] {
        b"yes" | b"y" => Some(true),
        b"no" | b"n" | b"" => Some(false),
        _ => None,
    }
}

fn respond(
    rt: &impl Host,
    run: &mut Run,
    line: &[u8],
    state: &mut [u8; STATE],
    out: &mut [u8; ANSWER],
)
    ensures { Served state.old state.new }
{
    if run.manner.echoes && !echo(rt, line, out) {
        run.course = run.course.broken();
        return;
    }
    let asked = run.course.asked;
    if asked != 0 {
        match reply_of(line) {
            // the line that was asked about is done without asking again
            Some(true) => {
                let course = run.course.goes();
                let n = asked.min(LINE);
                run.course = respond_to(
                    rt,
                    &run.held[..n],
                    false,
                    &mut run.desk,
                    course,
                    state,
                    out,
                );
                return;
            }
            Some(false) => {
                run.course = respond_no(rt, run.course, out);
                return;
            }
            None => {}
        }
    }
    hold(line, &mut run.held);
    run.course = respond_to(
        rt,
        line,
        run.manner.asks,
        &mut run.desk,
        run.course,
        state,
        out,
    );
}

// ---- The lines of the input

// Three bytes before the first line may say only how text is written: they are made spaces.
fn unmark(buf: &mut [u8], begun: bool)
    ensures { length buf.new ≡ length buf.old }
{
    if !begun && buf.starts_with(&[0xef, 0xbb, 0xbf]) {
        buf[..3].fill(b' ');
    }
}

// The line from one place to another, made one where it goes over several. The rest of one that was too long is not answered again.
fn one_line(
    rt: &impl Host,
    run: &mut Run,
    buf: &mut [u8],
    skip: bool,
    from: usize,
    to: usize,
    state: &mut [u8; STATE],
    out: &mut [u8; ANSWER],
)
    requires { (from ≤ to) × (to ≤ length buf.old) }
    ensures { (length buf.new ≡ length buf.old) × Served state.old state.new }
{
    if skip {
        run.course = run.course.goes();
        return;
    }
    join_lines(buf, from, to);
    respond(rt, run, &buf[from..to], state, out);
}

// The place after a line's end: CR and LF together are one.
fn next_start(buf: &[u8], e: usize, full: usize) -> usize
    requires { (e < full) × (full ≤ length buf.now) }
    ensures { (e < result) × (result ≤ full) }
{
    if e + 1 < full && buf[e] == b'\r' && buf[e + 1] == b'\n' {
        return e + 2;
    }
    e + 1
}

// Answers each whole line of the first `full` bytes, and gives the place after the lines that were answered.
fn answer_lines(
    rt: &impl Host,
    run: &mut Run,
    buf: &mut [u8],
    full: usize,
    skipping: bool,
    state: &mut [u8; STATE],
    out: &mut [u8; ANSWER],
) -> usize
    requires { full ≤ length buf.old }
    ensures { ((result ≤ full) × (length buf.new ≡ length buf.old)) × Served state.old state.new }
{
    let mut start = 0;
    let mut skip = skipping;
    while start < full {
        let e = next_end(buf, start, full);
        if e == full {
            break;
        }
        one_line(rt, run, buf, skip, start, e, state, out);
        skip = false;
        start = next_start(buf, e, full);
        if run.course.ended {
            break;
        }
    }
    start
}

// What a line that is too long is answered; of a remark nothing is said.
fn too_long(rt: &impl Print, run: &Run, buf: &[u8], out: &mut [u8; ANSWER]) -> Course {
    let course = run.course;
    if run.manner.echoes && !echo(rt, buf, out) {
        return course.broken();
    }
    if is_remark(buf) {
        return course.goes();
    }
    let n = put(out, 0, b"error the line is longer than 2048 bytes\n");
    let told = Said {
        n,
        next: Next::Goes,
    };
    take_in(rt, course, told, 0, &run.desk.names, out)
}

// What is left in a full buffer without a line end: of a remark its mark, so that its rest is a remark too; of any other line what tells
// where it ends.
fn after_full(buf: &mut [u8], ended: bool) -> Input {
    if ended {
        return Input::ended();
    }
    if is_remark(buf) && 0 < buf.len() {
        buf[0] = b'#';
        return Input {
            end: 1,
            skipping: false,
            done: false,
        };
    }
    let n = buf.len();
    skip_on(buf, n)
}

// The end of the input: its last line may have no line end.
fn at_end(
    rt: &impl Host,
    run: &mut Run,
    buf: &mut [u8],
    from: Input,
    failed: bool,
    state: &mut [u8; STATE],
    out: &mut [u8; ANSWER],
) -> Input
    requires { from.end ≤ length buf.old }
    ensures { Served state.old state.new }
{
    if failed {
        text::warn(rt, b"desk: the input cannot be read\n");
        run.course = run.course.broken();
        return Input::ended();
    }
    if from.end != 0 {
        one_line(rt, run, buf, from.skipping, 0, from.end, state, out);
    }
    Input::ended()
}

// Answers the whole lines of the first `full` bytes, and keeps the rest.
fn answer_read(
    rt: &impl Host,
    run: &mut Run,
    buf: &mut [u8],
    full: usize,
    skipping: bool,
    state: &mut [u8; STATE],
    out: &mut [u8; ANSWER],
) -> Input
    requires { full ≤ length buf.old }
    ensures { Served state.old state.new }
{
    unmark(buf, run.course.begun);
    let at = answer_lines(rt, run, buf, full, skipping, state, out);
    if run.course.ended {
        return Input::ended();
    }
    keep_rest(buf, at, full, skipping)
}

// ---- What a person is shown before a line

fn put_prompt(out: &mut [u8; ANSWER], kind: Kind, state: &[u8; STATE]) -> usize {
    match number_on(kind, state) {
        0 => match Phase::of(book::phase(state)) {
            Phase::Closed => put(out, 0, b"closed> "),
            Phase::Stopped => put(out, 0, b"stopped> "),
            _ => {
                let a = put_named(out, 0, b"round ", book::round(state) as u64);
                put(out, a, b"> ")
            }
        },
        3 => put(out, 0, b"issued> "),
        1 => put(out, 0, b"box> "),
        _ => put(out, 0, b"neither> "),
    }
}

// To standard error, so that the answers alone are on standard output.
fn prompt(rt: &impl Aside, asked: usize, kind: Kind, state: &[u8; STATE], out: &mut [u8; ANSWER]) {
    let n = if asked == 0 {
        put_prompt(out, kind, state)
    } else {
        put(out, 0, b"yes or no> ")
    };
    tell(rt, out, n);
}

// The first n bytes that were gathered, to the person at the desk.
pub fn tell(rt: &impl Aside, out: &[u8; ANSWER], n: usize) {
    text::warn(rt, &out[..n.min(ANSWER)]);
}

// Reads once, and answers each line that is then whole.
fn turned<R: Host, I: Read>(
    rt: &R,
    run: &mut Run,
    input: &mut I,
    buf: &mut [u8],
    from: Input,
    state: &mut [u8; STATE],
    out: &mut [u8; ANSWER],
) -> Input
    ensures { Served state.old state.new }
{
    let end = from.end;
    if buf.len() <= end {
        run.course = too_long(rt, run, buf, out);
        return after_full(buf, run.course.ended);
    }
    if run.manner.asks && end == 0 {
        prompt(rt, run.course.asked, run.desk.kind, state, out);
    }
    let got = read_again(input, &mut buf[end..]);
    let failed = got.is_err();
    let n = got.unwrap_or(0);
    if n == 0 {
        return at_end(rt, run, buf, from, failed, state, out);
    }
    answer_read(rt, run, buf, end + n, from.skipping, state, out)
}

// The status of a run. Of one that a person typed only a box, an input or an output that could not be used is told.
fn status_of(manner: Manner, course: Course) -> u8 {
    if manner.asks && course.status == NOT_OK {
        return FINE;
    }
    course.status
}

// Serves the lines of standard input: the status. A proved loop has to end, and nothing says that an input does: so it counts its turns,
// up to a number that no run uses up.
pub fn serve(rt: &impl Host, manner: Manner, desk: Desk, state: &mut [u8; STATE]) -> u8
    ensures { Served state.old state.new }
{
    let mut input = rt.reader();
    let mut out = io::large_buffer();
    let mut buf = [0u8; LINE];
    let mut run = Run {
        desk,
        manner,
        course: Course::new(manner.bails),
        held: [0u8; LINE],
    };
    let mut at = Input::begun();
    'turns: for _ in 0..u64::MAX {
        at = turned(rt, &mut run, &mut input, &mut buf, at, state, &mut out);
        if at.done {
            return status_of(manner, run.course);
        }
    }
    UNUSABLE
}
