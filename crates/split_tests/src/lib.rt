//! Tests of the crates that split a trace: `split_pieces`, `split_passes` and `split_tool`.
//!
//! Lists of items, cut into pieces by their times alone, are rows of `files_of_lists` in `pieces`.
//! The pieces of two processors, each measured and packed, are a line of `ROWS` in `passes`, and passes that fail a row of its
//! `FAULTS`. A sub-buffer written out byte by byte, and the one that it is packed into, are a row of `PACKED` in `runs`. Whole
//! traces that are cut by the words of a command line and read back are a line of `ROWS` in `whole`, and folders in which a call
//! fails a row of `FAULTS` in `faults`, and files that change between the passes a row of `CHANGES` there. Names of new files, and
//! what stands in front of their sub-buffers, are in `fronts`.
#![tactic(auto)]

#[cfg(test)]
mod tests;
