// The journal beside a box: a line `SUM ANSWER: GIVEN` for each accepted call that changed the state. SUM is SHA-256, in hexadecimal
// digits, of the sum of the line before (64 zeros before the first), of the rest of the line with its end, and of the state after it:
// so the last sum stands for the whole auction. Whole lines stay, but for those of a call that could not be saved and was not answered ok.
ghost use Rattle.std.specs.Prelude.{◌++◌, ◌≡◌, ◌≤◌, length};
ghost use Rattle.sums.specs.Sum.{sha256_digits};

use crate::files::{Filled, read_whole};
use crate::reason::number_of;
use crate::system::{go, open_read};
use layout::STATE;
use std::io::{ErrorKind, Read, Seek, SeekFrom};
use std::rt::Files;
use text::{ANSWER, put};

pub const SUM: usize = 64;

// A line that has no more than a sum, a space and its end has no text.
const LEAST: usize = SUM + 2;

// What the sum of the first line goes on from.
pub fn no_sum() -> [u8; SUM] {
    [b'0'; SUM]
}

// ---- A line written

fn sum_of(before: &[u8; SUM], text: &[u8], state: &[u8; STATE]) -> [u8; SUM]
    ensures { result ≡ sha256_digits ((before.now ++ text.now) ++ state.now) }
{
    let a = sums::with(sums::begun(), before);
    let b = sums::with(a, text);
    sums::digits(sums::with(b, state))
}

// A line with the first n bytes of an answer, and the place after it.
pub fn put_line(
    lines: &mut [u8; ANSWER],
    at: usize,
    before: &[u8; SUM],
    answer: &[u8],
    n: usize,
    given: &[u8],
    state: &[u8; STATE],
) -> usize {
    // The line's own sum takes this place below.
    let a = put(lines, at, before);
    let text = put(lines, a, b" ");
    let b = match answer.get(..n) {
        Some(part) => put(lines, text, part),
        None => text,
    };
    let c = put(lines, b, b": ");
    let d = put(lines, c, given);
    let end = put(lines, d, b"\n");
    let sum = match lines.get(a..end) {
        Some(rest) => sum_of(before, rest, state),
        None => no_sum(),
    };
    put(lines, at, &sum);
    end
}

// ---- Where a journal ends

// The place after the last line end before `to`, or 0.
pub fn after_line_end(bytes: &[u8], to: usize) -> usize
    ensures { result ≤ length bytes.now }
{
    let end = to.min(bytes.len());
    bytes[..end]
        .iter()
        .rposition(|b| *b == b'\n')
        .map_or(0, |i| i + 1)
}

// Where the line begins that ends before `end`.
fn line_before(bytes: &[u8], end: usize) -> usize
    ensures { result ≤ length bytes.now }
{
    if end == 0 {
        return 0;
    }
    after_line_end(bytes, end - 1)
}

// The sum of the line from one place to another, and the rest of it; none where that is no line.
fn line_in(bytes: &[u8], from: usize, to: usize) -> Option<(&[u8; SUM], &[u8])> {
    match bytes.get(from..to) {
        Some(line) if LEAST < line.len() => line.split_first_chunk(),
        _ => None,
    }
}

// The sum that a line begins with; without a line that of none.
pub fn sum_at(bytes: &[u8], from: usize, to: usize) -> [u8; SUM] {
    match line_in(bytes, from, to) {
        Some((sum, _)) => *sum,
        None => no_sum(),
    }
}

// Whether a line's sum is that of a state after it.
pub fn fits(bytes: &[u8], from: usize, to: usize, before: &[u8; SUM], state: &[u8; STATE]) -> bool {
    match line_in(bytes, from, to) {
        Some((has, rest)) => *has == sum_of(before, rest, state),
        None => false,
    }
}

#[derive(Clone, Copy)]
pub enum Trail {
    // There is no journal, or one without a whole line.
    None,
    // The last line leaves the box's state.
    Goes,
    // The line before the last does: the last call was not finished.
    Ahead,
    // The journal is another box's, or the box was put back.
    Other,
    // It cannot be read, by the system's number for the reason.
    Unread(i32),
}

// How a journal ends, its last sum, and the place after its last whole line.
#[derive(Clone, Copy)]
pub struct Trace {
    pub trail: Trail,
    pub sum: [u8; SUM],
    pub end: i64,
}

pub fn is_issued(state: &[u8; STATE]) -> bool {
    state.iter().all(|b| *b == 0)
}

fn trail_of(bytes: &[u8], last: usize, end: usize, state: &[u8; STATE]) -> Trail {
    if end == 0 {
        return Trail::None;
    }
    let second = line_before(bytes, last);
    let before_last = sum_at(bytes, second, last);
    if fits(bytes, last, end, &before_last, state) {
        return Trail::Goes;
    }
    if last == 0 {
        if is_issued(state) {
            return Trail::Ahead;
        }
        return Trail::Other;
    }
    let third = line_before(bytes, second);
    let before_second = sum_at(bytes, third, second);
    if fits(bytes, second, last, &before_second, state) {
        return Trail::Ahead;
    }
    Trail::Other
}

fn not_traced(trail: Trail) -> Trace {
    let sum = no_sum();
    Trace { trail, sum, end: 0 }
}

// The last bytes of an open journal, which have its last lines, by the place of the first of them.
fn trace_tail<F: Seek>(file: &mut F, from: i64, bytes: &[u8], state: &[u8; STATE]) -> Trace {
    let end = after_line_end(bytes, bytes.len());
    let last = line_before(bytes, end);
    let trail = trail_of(bytes, last, end, state);
    let sum = sum_at(bytes, last, end);
    go(file, SeekFrom::Start(from.cast_unsigned()));
    let place = go(file, SeekFrom::Current(end as i64));
    Trace {
        trail,
        sum,
        end: place,
    }
}

// Goes to where the last bytes begin that are looked at: the place, or -1.
fn to_tail<F: Seek>(file: &mut F) -> i64 {
    let from = go(file, SeekFrom::End(-65536));
    if from < 0 {
        return go(file, SeekFrom::Start(0));
    }
    from
}

fn trace_open<F: Read + Seek>(file: &mut F, state: &[u8; STATE]) -> Trace {
    let from = to_tail(file);
    let mut tail = io::large_buffer();
    match read_whole(file, &mut tail) {
        Filled::Bytes(n) => trace_tail(file, from, &tail[..n.min(ANSWER)], state),
        Filled::Failed(why) => not_traced(Trail::Unread(why)),
    }
}

pub fn traced(rt: &impl Files, journal: &[u8], state: &[u8; STATE]) -> Trace {
    match open_read(rt, journal) {
        Ok(mut file) => trace_open(&mut file, state),
        Err(e) if e.kind() == ErrorKind::NotFound => not_traced(Trail::None),
        Err(e) => not_traced(Trail::Unread(number_of(&e))),
    }
}

// Whether a line near the journal's end leaves this state.
fn is_left_in(bytes: &[u8], state: &[u8; STATE]) -> bool {
    let mut end = after_line_end(bytes, bytes.len());
    for _ in 0..100000 {
        if end == 0 {
            return false;
        }
        let from = line_before(bytes, end);
        let before = sum_at(bytes, line_before(bytes, from), from);
        if fits(bytes, from, end, &before, state) {
            return true;
        }
        end = from;
    }
    false
}

// Opens the file, reads its last bytes and closes it.
fn tail_of(rt: &impl Files, journal: &[u8], tail: &mut [u8]) -> std::io::Result<Filled> {
    let mut file = open_read(rt, journal)?;
    to_tail(&mut file);
    Ok(read_whole(&mut file, tail))
}

pub fn is_left(rt: &impl Files, journal: &[u8], state: &[u8; STATE]) -> bool {
    let mut tail = io::large_buffer();
    match tail_of(rt, journal, &mut tail) {
        Ok(Filled::Bytes(n)) => match tail.get(..n) {
            Some(read) => is_left_in(read, state),
            None => false,
        },
        _ => false,
    }
}
