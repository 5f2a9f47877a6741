//! Whole runs of `trace_run::run` over one sound file, or over none, in memory. This crate has tests alone, so that they are
//! not proved together with the functions that they call.
//!
//! A run by its words, its file and what must come of it is a row: of `ROWS` in `tests` where no module below is its
//! strand, else of `ROWS` in `refusals`, `filters`, `differences`, `waits`, `calls`, `idle`, `selftests`, `splits`, `restores`
//! or `sub_buffers`; a run in which a call fails is a row of `faults`. Reports of many events and of long lines are in
//! `rounds`, and what lanes do at once in `gates`; files that change between the passes of a split are in `changes`. Files
//! in which every call fails in its turn go to `fault_tests`; hostile files, and several files at once, to `input_tests`.
#![tactic(auto)]

#[cfg(test)]
mod tests;
