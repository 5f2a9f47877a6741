//! Tests of reports in rounds, from the threads that form lines (`cpu_workers`) to what a round prints (`round_print`) and to
//! whole reports (`report_rounds`). What stands below, from sub-buffers to lanes, is tested in `lane_tests`.
//!
//! What a round prints of kept lines is a row of `HORIZONS` in `rounds`, and rounds whose writes fail are rows of `WRITES`
//! there. `reports` has whole reports in `REPORTS`, and those in which a call fails in `ENDINGS`. Threads are in `workers` and,
//! round by round, in `reports::visits`.
#![tactic(auto)]

#[cfg(test)]
mod tests;
