//! Tests of the reports that pair items: calls with their ends (`call_pairs`, `graph_report`), and wake-ups with the switches
//! that end them (`wakeup_pairs`, `wakeup_lat`).
//!
//! What is seen, and the calls that are told of it, is a line of `ROWS` in `calls::pairs`. A call's line is a row of `ROWS` in
//! `calls::lines`. What is recorded of two processors and printed of it is a row of `ROWS` in `calls::traces`, or of one of the
//! tables there whose exits have another format. The section of latencies of what is recorded is a row of `ROWS` in
//! `wakeups::sections`, or of `IN_FULL` where all digits and the columns of latencies are shown; the ids of its events are
//! those of `wakeups::formats`. How both tell what is recorded is said in `sub_buffers`.
#![tactic(auto)]

#[cfg(test)]
mod tests;
