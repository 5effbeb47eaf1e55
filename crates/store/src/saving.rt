// How a changed state is saved. In this order: the copy before what cannot be undone, the journal's line, the box, what is closed or
// removed after it; each brought to its device before the next. So a loss of power leaves the box before the call or after it, and a
// journal that ends with the box's state or one line ahead of it.
use crate::files::{Loaded, equal, load, same, status_of, sync_folder, write_synced};
use crate::journal::{SUM, Trace, Trail, is_issued, is_left, no_sum, put_line, sum_at, traced};
use crate::names::{beside, beside_numbered};
use crate::reason::{EEXIST, ENAMETOOLONG, number_of};
use crate::system::{Numbered, create, go, named, open_update, rename, unlink};
use layout::STATE;
use look::Seen;
use std::fs::{File, OpenFile, Permissions};
use std::io::{ErrorKind, SeekFrom};
use std::os::unix::fs::{PermissionsExt, fchown};
use std::process::id;
use std::rt::Files;
use text::{ANSWER, write_number};

// What kind of call it was that changed the state.
#[derive(Clone, Copy)]
pub enum Act {
    // A card, or a cutback.
    Plain,
    // The first call of an auction: nothing of an earlier one is to be undone.
    Opening,
    Calculation,
    Return,
    Undo,
}

// Where saving stopped.
#[derive(Clone, Copy)]
pub enum Stage {
    LongName,
    // Another desk is saving, or was cut off while it did.
    Busy,
    Changed,
    ReadOnly,
    // The copy before what cannot be undone.
    Copy,
    Journal,
    // The copy is of another auction than the box's journal.
    Foreign,
    NotMade,
    NotWritten,
    NotPlaced,
    // The journal has a line that could not be taken back.
    Ahead,
    // The box has the new state, but its folder could not be brought to its device.
    Unsure,
}

// The stage, and the system's number for the reason.
#[derive(Clone, Copy)]
pub struct Stopped {
    pub stage: Stage,
    pub why: i32,
}

pub fn stop_at(stage: Stage, why: i32) -> Stopped {
    Stopped { stage, why }
}

// ---- New files

// A new file has the rights and, where the system allows it, the owner of the box. A box that is not there yet has none to keep.
fn like(file: &File, seen: Seen) -> std::io::Result<()> {
    if !seen.found {
        return Ok(());
    }
    let _ = fchown(file, Some(seen.owner), Some(seen.group));
    file.set_permissions(Permissions::from_mode(seen.mode % 4096))
}

fn make(rt: &impl Files<File = File>, name: &[u8], seen: Seen) -> std::io::Result<File> {
    let file = create(rt, name)?;
    if let Err(e) = like(&file, seen) {
        drop(file);
        let _ = unlink(rt, name);
        return Err(e);
    }
    Ok(file)
}

// Writes the bytes to a new file and puts it in a place. The new file's name is this process's own, and is never another's file.
fn place_by(
    rt: &impl Files<File = File>,
    name: &[u8],
    place: &[u8],
    bytes: &[u8],
    seen: Seen,
) -> Result<(), Stopped> {
    let file = match make(rt, name, seen) {
        Ok(file) => file,
        Err(e) => return Err(stop_at(Stage::NotMade, number_of(&e))),
    };
    if let Err(why) = write_synced(file, bytes) {
        let _ = unlink(rt, name);
        return Err(stop_at(Stage::NotWritten, why));
    }
    if let Err(e) = rename(rt, name, place) {
        let _ = unlink(rt, name);
        return Err(stop_at(Stage::NotPlaced, number_of(&e)));
    }
    Ok(())
}

fn process(rt: &impl Numbered) -> u64 {
    id(rt.process()) as u64
}

fn place<R: Files<File = File> + Numbered>(
    rt: &R,
    path: &[u8],
    place: &[u8],
    bytes: &[u8],
    seen: Seen,
) -> Result<(), Stopped> {
    let mut name = io::buffer();
    let n = beside_numbered(path, b".new.", process(rt), &mut name);
    if n == 0 {
        return Err(stop_at(Stage::LongName, ENAMETOOLONG));
    }
    place_by(rt, &name[..n], place, bytes, seen)
}

// ---- The copy before what cannot be undone

// A copy that is the state itself was left by a call that was not finished, or by an undo: nothing is undone by it.
fn forget_same(rt: &impl Files, before: &[u8], state: &[u8; STATE]) {
    let mut held = [0u8; STATE];
    if let Loaded::Whole = load(rt, before, &mut held) {
        if equal(&held, state) {
            let _ = unlink(rt, before);
        }
    }
}

fn make_copy<R: Files<File = File> + Numbered>(
    rt: &R,
    path: &[u8],
    before: &[u8],
    state: &[u8; STATE],
    seen: Seen,
) -> Result<(), Stopped> {
    place(rt, path, before, state, seen).map_err(|e| stop_at(Stage::Copy, e.why))?;
    sync_folder(rt, path).map_err(|why| stop_at(Stage::Copy, why))
}

fn prepare<R: Files<File = File> + Numbered>(
    rt: &R,
    act: Act,
    path: &[u8],
    before: &[u8],
    state: &[u8; STATE],
    seen: Seen,
) -> Result<(), Stopped> {
    forget_same(rt, before, state);
    match act {
        Act::Plain | Act::Undo | Act::Opening => Ok(()),
        Act::Calculation | Act::Return => make_copy(rt, path, before, state, seen),
    }
}

// ---- The journal's line

// Whether the number was free, or the system's number for what failed. No file is ever lost to the name, which is made before it is used.
fn aside_as(rt: &impl Files, journal: &[u8], n: u64) -> Result<bool, i32> {
    let mut name = io::buffer();
    let k = beside_numbered(journal, b".", n, &mut name);
    if k == 0 {
        return Err(ENAMETOOLONG);
    }
    match create(rt, &name[..k]) {
        Ok(file) => drop(file),
        Err(e) if e.kind() == ErrorKind::AlreadyExists => return Ok(false),
        Err(e) => return Err(number_of(&e)),
    }
    if let Err(e) = rename(rt, journal, &name[..k]) {
        let _ = unlink(rt, &name[..k]);
        return Err(number_of(&e));
    }
    Ok(true)
}

// A journal that is closed, or another box's, is kept under the first number that is free: BOX.journal.1, and so on.
fn set_aside(rt: &impl Files, journal: &[u8]) -> Result<(), i32> {
    for n in 1..100000 {
        if aside_as(rt, journal, n)? {
            return Ok(());
        }
    }
    Err(EEXIST)
}

// Whether the journal of that number was closed by a return from a state.
fn is_closed_from(
    rt: &impl Files,
    journal: &[u8],
    n: u64,
    state: &[u8; STATE],
    copy: &[u8; STATE],
) -> bool {
    let mut name = io::buffer();
    let k = beside_numbered(journal, b".", n, &mut name);
    let at_end = traced(rt, &name[..k], state);
    let at_copy = traced(rt, &name[..k], copy);
    matches!(at_end.trail, Trail::Goes) & matches!(at_copy.trail, Trail::Ahead)
}

// The journal that was closed by the return from a state goes on.
fn bring_back(rt: &impl Files, journal: &[u8], state: &[u8; STATE], copy: &[u8; STATE]) -> bool {
    for n in 1..1000 {
        if is_closed_from(rt, journal, n, state, copy) {
            let mut name = io::buffer();
            let k = beside_numbered(journal, b".", n, &mut name);
            return rename(rt, &name[..k], journal).is_ok();
        }
    }
    false
}

// Where lines go: into a new journal, or after the last whole line of one that is there.
#[derive(Clone, Copy)]
struct Spot {
    fresh: bool,
    end: i64,
}

// Takes a file away, where there is one.
fn removed(rt: &impl Files, name: &[u8]) -> Result<(), i32> {
    match unlink(rt, name) {
        Ok(()) => Ok(()),
        Err(e) if e.kind() == ErrorKind::NotFound => Ok(()),
        Err(e) => Err(number_of(&e)),
    }
}

// Lines of a call that could not be saved go out again: nothing was said of it.
fn take_back(rt: &impl Files, journal: &[u8], spot: Spot) -> bool {
    if spot.fresh {
        return removed(rt, journal).is_ok();
    }
    match open_update(rt, journal) {
        Ok(file) => {
            let cut = file.set_len(spot.end.cast_unsigned());
            let synced = file.sync_all();
            cut.is_ok() & synced.is_ok()
        }
        Err(_) => false,
    }
}

fn write_fresh(
    rt: &impl Files<File = File>,
    path: &[u8],
    journal: &[u8],
    lines: &[u8],
    seen: Seen,
) -> Result<(), i32> {
    let file = match make(rt, journal, seen) {
        Ok(file) => file,
        Err(e) => return Err(number_of(&e)),
    };
    write_synced(file, lines)?;
    sync_folder(rt, path)
}

fn write_after(rt: &impl Files, journal: &[u8], end: i64, lines: &[u8]) -> Result<(), i32> {
    let mut file = match open_update(rt, journal) {
        Ok(file) => file,
        Err(e) => return Err(number_of(&e)),
    };
    status_of(file.set_len(end.cast_unsigned()))?;
    go(&mut file, SeekFrom::Start(end.cast_unsigned()));
    write_synced(file, lines)
}

fn write_lines(
    rt: &impl Files<File = File>,
    path: &[u8],
    journal: &[u8],
    spot: Spot,
    lines: &[u8],
    seen: Seen,
) -> Result<(), Stopped> {
    let written = if spot.fresh {
        write_fresh(rt, path, journal, lines, seen)
    } else {
        write_after(rt, journal, spot.end, lines)
    };
    let Err(why) = written else {
        return Ok(());
    };
    if take_back(rt, journal, spot) {
        return Err(stop_at(Stage::Journal, why));
    }
    Err(stop_at(Stage::Ahead, why))
}

// How the journal ends that this call goes into. The journal of an auction whose return is undone goes on.
fn traced_for(
    rt: &impl Files,
    act: Act,
    journal: &[u8],
    state: &[u8; STATE],
    work: &[u8; STATE],
) -> Trace {
    let found = traced(rt, journal, state);
    if matches!(act, Act::Undo) && matches!(found.trail, Trail::None) {
        if bring_back(rt, journal, state, work) {
            return traced(rt, journal, state);
        }
    }
    found
}

// Whether an undo puts back a state that this journal has, and the box is where the journal ends.
fn is_known(rt: &impl Files, act: Act, trail: Trail, journal: &[u8], work: &[u8; STATE]) -> bool {
    if let Act::Undo = act {
        if begins(act, trail) {
            return false;
        }
        return is_left(rt, journal, work);
    }
    true
}

// Whether the call begins a journal: an opening does, and a call on a box that has none of its own.
fn begins(act: Act, trail: Trail) -> bool {
    matches!(act, Act::Opening) | matches!(trail, Trail::None | Trail::Other)
}

// A journal that another begins beside is set aside; of one without a whole line nothing is kept.
fn cleared(rt: &impl Files, trail: Trail, journal: &[u8]) -> Result<(), i32> {
    if let Trail::None = trail {
        return removed(rt, journal);
    }
    set_aside(rt, journal)
}

// A line that says how the journal comes to the state before the call, where it does not end there: the place after it.
fn put_first(
    lines: &mut [u8; ANSWER],
    fresh: bool,
    trail: Trail,
    sum: &[u8; SUM],
    state: &[u8; STATE],
) -> usize {
    if fresh {
        if is_issued(state) {
            return 0;
        }
        return put_line(
            lines,
            0,
            sum,
            b"found",
            5,
            b"a box without its journal",
            state,
        );
    }
    if let Trail::Ahead = trail {
        return put_line(
            lines,
            0,
            sum,
            b"void",
            4,
            b"the call before was not finished",
            state,
        );
    }
    0
}

// The sum that the call's own line goes on from.
fn sum_after(lines: &[u8; ANSWER], n: usize, sum: [u8; SUM]) -> [u8; SUM] {
    if n == 0 {
        return sum;
    }
    sum_at(lines, 0, n)
}

// Where the call's line stands.
fn log(
    rt: &impl Files<File = File>,
    path: &[u8],
    journal: &[u8],
    act: Act,
    given: &[u8],
    answer: &[u8],
    n: usize,
    state: &[u8; STATE],
    work: &[u8; STATE],
    seen: Seen,
) -> Result<Spot, Stopped> {
    let found = traced_for(rt, act, journal, state, work);
    let trail = found.trail;
    if let Trail::Unread(why) = trail {
        return Err(stop_at(Stage::Journal, why));
    }
    if !is_known(rt, act, trail, journal, work) {
        return Err(stop_at(Stage::Foreign, 0));
    }
    let fresh = begins(act, trail);
    let mut sum = found.sum;
    if fresh {
        cleared(rt, trail, journal).map_err(|why| stop_at(Stage::Journal, why))?;
        sum = no_sum();
    }
    let mut lines = io::large_buffer();
    let at = put_first(&mut lines, fresh, trail, &sum, state);
    let before = sum_after(&lines, at, sum);
    let end = put_line(&mut lines, at, &before, answer, n, given, work);
    let spot = Spot {
        fresh,
        end: found.end,
    };
    write_lines(rt, path, journal, spot, &lines[..end.min(ANSWER)], seen)?;
    Ok(spot)
}

// ---- The names of bidders and products

// The names of an auction are gone with it.
pub fn drop_names(rt: &impl Files, path: &[u8]) {
    let mut names = io::buffer();
    let n = beside(path, b".names", &mut names);
    if n != 0 {
        let _ = unlink(rt, &names[..n]);
    }
}

// Puts the file of names in its place, or takes it away where it would be empty: 0, or the system's number for what failed.
pub fn save_names<R: Files<File = File> + Numbered>(rt: &R, path: &[u8], bytes: &[u8]) -> i32 {
    let mut names = io::buffer();
    let n = beside(path, b".names", &mut names);
    if n == 0 {
        return ENAMETOOLONG;
    }
    if bytes.is_empty() {
        drop_names(rt, path);
    } else if let Err(e) = place(rt, path, &names[..n], bytes, seen(rt, path)) {
        return e.why;
    }
    match sync_folder(rt, path) {
        Ok(()) => 0,
        Err(why) => why,
    }
}

// ---- All of it

// Closes or removes what the call is the end of.
fn close(rt: &impl Files, act: Act, path: &[u8], before: &[u8], journal: &[u8]) -> Result<(), i32> {
    sync_folder(rt, path)?;
    match act {
        Act::Plain | Act::Calculation => return Ok(()),
        Act::Return => {
            let _ = set_aside(rt, journal);
            drop_names(rt, path);
        }
        // What was kept of an earlier auction ends with the next, and a copy that was put back is used up.
        Act::Opening | Act::Undo => {
            let _ = unlink(rt, before);
        }
    }
    sync_folder(rt, path)
}

// What the system says of the box.
pub fn seen(rt: &impl Files, path: &[u8]) -> Seen {
    match named(path) {
        Ok(name) => look::seen_of(rt, name),
        Err(_) => look::unseen(),
    }
}

// A box without any right to write is not replaced, not even by one who may do everything.
fn is_read_only(rt: &impl Files, path: &[u8], seen: Seen) -> bool {
    if !seen.found {
        return false;
    }
    if seen.mode & 0o222 == 0 {
        return true;
    }
    open_update(rt, path).is_err()
}

fn save_held<R: Files<File = File> + Numbered>(
    rt: &R,
    path: &[u8],
    before: &[u8],
    journal: &[u8],
    act: Act,
    given: &[u8],
    answer: &[u8],
    n: usize,
    state: &[u8; STATE],
    work: &[u8; STATE],
) -> Result<(), Stopped> {
    if !same(rt, path, state) {
        return Err(stop_at(Stage::Changed, 0));
    }
    let seen = seen(rt, path);
    if is_read_only(rt, path, seen) {
        return Err(stop_at(Stage::ReadOnly, 0));
    }
    prepare(rt, act, path, before, state, seen)?;
    let spot = log(rt, path, journal, act, given, answer, n, state, work, seen)?;
    let Err(failed) = place(rt, path, path, work, seen) else {
        return close(rt, act, path, before, journal).map_err(|why| stop_at(Stage::Unsure, why));
    };
    if take_back(rt, journal, spot) {
        return Err(failed);
    }
    Err(stop_at(Stage::Ahead, failed.why))
}

// Whether no other desk saves: its own file says so, and which process made it. Another's is never removed.
fn hold<R: Files + Numbered>(rt: &R, saving: &[u8]) -> Result<(), Stopped> {
    match create(rt, saving) {
        Ok(mut file) => {
            write_number(&mut file, process(rt));
            Ok(())
        }
        Err(e) if e.kind() == ErrorKind::AlreadyExists => Err(stop_at(Stage::Busy, 0)),
        Err(e) => Err(stop_at(Stage::NotMade, number_of(&e))),
    }
}

pub fn save<R: Files<File = File> + Numbered>(
    rt: &R,
    path: &[u8],
    act: Act,
    given: &[u8],
    answer: &[u8],
    n: usize,
    state: &[u8; STATE],
    work: &[u8; STATE],
) -> Result<(), Stopped> {
    let mut saving = io::buffer();
    let mut before = io::buffer();
    let mut journal = io::buffer();
    let s = beside(path, b".saving", &mut saving);
    let b = beside(path, b".before", &mut before);
    let j = beside(path, b".journal", &mut journal);
    if (s == 0) | (b == 0) | (j == 0) {
        return Err(stop_at(Stage::LongName, ENAMETOOLONG));
    }
    hold(rt, &saving[..s])?;
    let saved = save_held(
        rt,
        path,
        &before[..b],
        &journal[..j],
        act,
        given,
        answer,
        n,
        state,
        work,
    );
    let _ = unlink(rt, &saving[..s]);
    saved
}
