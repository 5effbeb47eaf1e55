// The desk: a line is answered by the call that its first word names, or by a look at the state; the loop alone writes the answer.
#![tactic(auto)]

mod host;
mod line;
mod shell;
mod start;

pub use host::Host;
pub use start::run;
