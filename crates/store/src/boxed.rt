// Where the state lives, and what is done with a state that a call has changed.
ghost use Rattle.std.specs.Prelude.{cond, true, false, ◌≡◌};

use crate::files::{Filled, Loaded, equal, filled_from, load, same};
use crate::names::beside;
use crate::reason::{number_of, put_reason};
use crate::saving::{Act, Stage, Stopped, save, stop_at};
use crate::system::{Numbered, open_read};
use layout::STATE;
use std::fs::File;
use std::io::ErrorKind;
use std::rt::Files;
use text::{ANSWER, put};

// In the program alone; in a box file; or in a file of another length, which is never written.
#[derive(Clone, Copy)]
pub enum Kind {
    Loose,
    Filed,
    Wrong,
}

// Whether the state's length is wrong: then each call is lent a slice of another length, and answers for it itself.
pub fn is_wrong(kind: Kind) -> bool {
    matches!(kind, Kind::Wrong)
}

// ---- A changed state, kept

// Whether the new state is kept; how long the answer is; whether the desk has to end, since the box can be relied on no more.
#[derive(Clone, Copy)]
pub struct Outcome {
    pub kept: bool,
    pub said: usize,
    pub ends: bool,
}

fn put_not_written(out: &mut [u8; ANSWER], what: &[u8], why: i32) -> usize {
    let a = put(out, 0, b"error the box was not written: ");
    let b = put(out, a, what);
    let c = put_reason(out, b, why);
    put(out, c, b"; nothing is changed\n")
}

// Why a state was not saved.
fn put_stage(out: &mut [u8; ANSWER], stopped: Stopped) -> usize {
    let why = stopped.why;
    match stopped.stage {
        Stage::LongName => put(
            out,
            0,
            b"error the box was not written: its name is too long; nothing is changed\n",
        ),
        Stage::Busy => put(
            out,
            0,
            b"error the box was not written: another desk is saving it, or was cut off and left its file .saving; nothing is changed\n",
        ),
        Stage::Changed => put(
            out,
            0,
            b"error the box file was changed by another program; nothing is changed\n",
        ),
        Stage::ReadOnly => put(
            out,
            0,
            b"error the box was not written: it is read-only; nothing is changed\n",
        ),
        Stage::Copy => put_not_written(out, b"no copy could be kept beside it: ", why),
        Stage::Journal => put_not_written(out, b"its journal could not be written: ", why),
        Stage::Foreign => put(
            out,
            0,
            b"error nothing is undone: the copy beside the box is not of the auction in its journal\n",
        ),
        Stage::NotMade => put_not_written(out, b"no new file can be made beside it: ", why),
        Stage::NotWritten => put_not_written(
            out,
            b"the new file beside it cannot be written whole: ",
            why,
        ),
        Stage::NotPlaced => put_not_written(out, b"the new file cannot be put in its place: ", why),
        Stage::Ahead => put_not_written(
            out,
            b"and its journal has a line that could not be taken back: ",
            why,
        ),
        Stage::Unsure => {
            let a = put(
                out,
                0,
                b"error the box is written, but could not be brought to its device: ",
            );
            let b = put_reason(out, a, why);
            put(out, b, b"; the desk ends\n")
        }
    }
}

fn kept(said: usize) -> Outcome
    ensures { result.kept ≡ true }
{
    Outcome {
        kept: true,
        said,
        ends: false,
    }
}

fn not_kept(said: usize) -> Outcome
    ensures { result.kept ≡ false }
{
    Outcome {
        kept: false,
        said,
        ends: false,
    }
}

// What becomes of a save, and what is said of it.
fn outcome_of(saved: Result<(), Stopped>, n: usize, out: &mut [u8; ANSWER]) -> Outcome {
    match saved {
        Ok(()) => kept(n),
        Err(stopped) => {
            let said = put_stage(out, stopped);
            match stopped.stage {
                Stage::Unsure => Outcome {
                    kept: true,
                    said,
                    ends: true,
                },
                _ => not_kept(said),
            }
        }
    }
}

// The length of an answer's first line, without its end.
fn first_line(answer: &[u8; ANSWER], n: usize) -> usize {
    let end = n.min(ANSWER);
    answer[..end]
        .iter()
        .position(|b| *b == b'\n')
        .unwrap_or(end)
}

fn keep_filed<R: Files<File = File> + Numbered>(
    rt: &R,
    path: &[u8],
    act: Act,
    given: &[u8],
    n: usize,
    state: &[u8; STATE],
    work: &[u8; STATE],
    out: &mut [u8; ANSWER],
) -> Outcome {
    if equal(state, work) {
        if same(rt, path, state) {
            return kept(n);
        }
        return outcome_of(Err(stop_at(Stage::Changed, 0)), n, out);
    }
    let said = first_line(out, n);
    let saved = save(rt, path, act, given, out, said, state, work);
    outcome_of(saved, n, out)
}

// Saves a changed state where there is a box file, and keeps it only then: what is in memory is what is in the file. The first n bytes
// of `out` are the call's answer, and stay it where the state is kept.
pub fn keep<R: Files<File = File> + Numbered>(
    rt: &R,
    kind: Kind,
    path: &[u8],
    act: Act,
    given: &[u8],
    n: usize,
    state: &mut [u8; STATE],
    work: [u8; STATE],
    out: &mut [u8; ANSWER],
) -> Outcome
    ensures { state.new ≡ cond result.kept work state.old }
{
    let done = match kind {
        Kind::Wrong => return not_kept(0),
        Kind::Loose => kept(n),
        Kind::Filed => keep_filed(rt, path, act, given, n, state, &work, out),
    };
    if done.kept {
        *state = work;
    }
    done
}

// ---- The copy before what cannot be undone, read back

// What there is to undo.
#[derive(Clone, Copy)]
pub enum Undo {
    // The copy is in the lent state.
    Copy,
    Nothing,
    // The copy is no state that could have been.
    Strange,
}

pub fn copy_before(
    rt: &impl Files,
    path: &[u8],
    state: &[u8; STATE],
    copy: &mut [u8; STATE],
) -> Undo {
    let mut before = io::buffer();
    let b = beside(path, b".before", &mut before);
    match load(rt, &before[..b], copy) {
        Loaded::Missing => return Undo::Nothing,
        Loaded::Whole => {}
        Loaded::Wrong | Loaded::Unread(_) => return Undo::Strange,
    }
    if equal(copy, state) {
        return Undo::Nothing;
    }
    match said_of(copy) {
        0 | 3 => Undo::Copy,
        _ => Undo::Strange,
    }
}

// ---- What the console says of a state

// 1, 2, and 3 for an issued state, as a report says them; 0 where the state stands, which has a bidder 0.
fn said_of(s: &[u8]) -> u8 {
    match console::report(s, 0).report {
        Err(e) if e.number() <= 3 => e.number(),
        _ => 0,
    }
}

pub fn number_on(kind: Kind, state: &[u8; STATE]) -> u8 {
    if is_wrong(kind) {
        let other = [0u8; 1];
        return said_of(&other);
    }
    said_of(state)
}

// ---- What is beside a box

// Whether a file is there whose name is the box's with an ending.
pub fn is_beside(rt: &impl Files, path: &[u8], ending: &[u8]) -> bool {
    let mut name = io::buffer();
    let n = beside(path, ending, &mut name);
    open_read(rt, &name[..n]).is_ok()
}

// Reads the file of names beside the box: how many bytes it has, none where there is no such file.
pub fn load_names(rt: &impl Files, path: &[u8], room: &mut [u8; ANSWER]) -> Filled {
    let mut name = io::buffer();
    let n = beside(path, b".names", &mut name);
    match filled_from(rt, &name[..n], room) {
        Ok(filled) => filled,
        Err(e) if e.kind() == ErrorKind::NotFound => Filled::Bytes(0),
        Err(e) => Filled::Failed(number_of(&e)),
    }
}

// Opens the box's journal for reading.
pub fn open_journal<R: Files>(rt: &R, path: &[u8]) -> std::io::Result<R::File> {
    let mut name = io::buffer();
    let n = beside(path, b".journal", &mut name);
    open_read(rt, &name[..n])
}
