// What the program asks of the system: files, its arguments and its number, standard input, answers and words beside them.
use std::fs::File;
use std::io::{Input, IsTerminal};
use std::rt::{Env, Files, HostRuntime};
use store::Numbered;
use text::Aside;

pub trait Host: Files<File = File> + Env + Numbered + Input + Print + Aside {
    // Whether a person is at the desk.
    fn is_typed(&self) -> bool;
}

impl Host for HostRuntime {
    fn is_typed(&self) -> bool {
        self.stdin().is_terminal()
    }
}
