//! Traces in memory, split and read back.

mod faults;
mod fronts;
mod items;
mod lanes;
mod passes;
mod pieces;
mod rounds;
mod runs;
mod splits;
mod traces;
mod watched;
mod whole;
