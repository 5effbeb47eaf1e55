// A box file found, checked against its journal, and looked at when it comes back. Nothing is changed here.
#![tactic(auto)]

mod found;
mod journal;
mod returned;

pub use found::{Found, find, say, say_unread};
pub use journal::{Fault, Played, Turn, begun, check, is_issued, play_next, put_fault};
pub use returned::inspect;

// The statuses that a desk ends with: every line was answered ok; one was not; the box, the input or the output could not be used.
pub const FINE: u8 = 0;

pub const NOT_OK: u8 = 1;

pub const UNUSABLE: u8 = 2;
