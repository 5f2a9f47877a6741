//! The same program, run by the gate on a file that ends early, so that it ends with another status than 0.
#![tactic(auto)]

use std::process::ExitCode;
use trace_program::{program, words_of};

fn main(rt: HostRuntime) -> ExitCode {
    ExitCode::from(program(&rt, words_of(&rt), rt.stdout(), rt.stderr()))
}
