//! Tests of the crates that read, pack and go through sub-buffers, from `subpage` to `time_merge`, of the tree that tells which
//! lane is next (`tournament_tree`), and of `trace_gen`. Each of them is proved without its tests, and those stand here, over
//! its public calls. What comes of lanes in rounds is tested in `round_tests`.
//!
//! The items of a sub-buffer's bytes are a row of `ROWS` in `sub_pages`, and items that are packed again one of `PACKED` in
//! `packing`. Of one lane, `cursors` has the items of a part of a file in `PARTS` and places to go to in `PLACES`; of two,
//! `merging` has their cuts in `ENDS`. Slots of a tree whose keys change are in `keys`, regions of lines in `pools`, and generated
//! files in `generated`.
#![tactic(auto)]

#[cfg(test)]
mod tests;
