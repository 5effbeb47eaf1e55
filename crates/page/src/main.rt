#![tactic(auto)]

ghost use Rattle.std.specs.Prelude.{◌≤◌, length};

use std::rt::Env;

// An argument at the start of the room: its length, or 0 where there is none or it is longer than the room.
fn argument(rt: &impl Env, i: usize, room: &mut [u8]) -> usize
    ensures { result ≤ length room.new }
{
    match rt.arg(i, room) {
        Ok(n) => n,
        Err(_) => 0,
    }
}

// page --tell BOX [JOURNAL]
fn main(rt: HostRuntime) {
    let mut path = io::buffer();
    let n = argument(&rt, 2, &mut path);
    let mut journal = io::buffer();
    let j = argument(&rt, 3, &mut journal);
    let status = sheet::sheet(&rt, &path[..n], &journal[..j]);
    text::put_status(&rt, status);
}
