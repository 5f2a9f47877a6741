//! Whole runs of `trace_run::run` in which one call of the outside fails, each call in its turn. What was written before
//! stands, and nothing else.
//!
//! A line whose output fails is a row of `LINES` in `writes`, and one whose message fails a row of `MESSAGES`. A byte that
//! cannot be read is in `reads`, where a line that needs no sub-buffer is a row of `HEADERS_ALONE`, and one after thousands of
//! lines in `late`. A creation, a write or a finish of a split that fails is a row of `FAULTS` in `splits`. Want of memory is a
//! test of its own in `memory` for each line, since the number of the allocation that fails is given from outside. `several` has
//! the calls that fail in a report of two files.
#![tactic(auto)]

#[cfg(test)]
mod late;
#[cfg(test)]
mod memory;
#[cfg(test)]
mod reads;
#[cfg(test)]
mod several;
#[cfg(test)]
mod splits;
#[cfg(test)]
mod world;
#[cfg(test)]
mod writes;
