//! The program: it passes the runtime, its words and its two streams on, and ends with the number that comes back.
#![tactic(auto)]

use std::process::ExitCode;
use trace_program::{program, words_of};

fn main(rt: HostRuntime) -> ExitCode {
    ExitCode::from(program(&rt, words_of(&rt), rt.stdout(), rt.stderr()))
}
