//! Tests of the lines of a report: the filters that choose events (`filter_lang`, `filter_truth`), the lines of events
//! (`report_print`), and those of a report's lists (`report_lists`).
//!
//! A text that is a filter is a row of `TREES` in `filters::trees`, and one that is none a row of `REFUSALS`, with its place. A
//! condition goes to `TRUE` or to `FALSE` in `filters::truth`, names of events to `NAMES`, and several filters at once to
//! `SELECTIONS`. An event and its line are a line of `LINES` in `lines`, and a processor and its line one of `PLACES`; which of
//! its `EVENTS` a filter shows is a line of `CHOICES`. `lists` has a list of each kind. What is printed in a line by a print fmt
//! has its rows in `print_tests`.
#![tactic(auto)]

#[cfg(test)]
mod filters;
#[cfg(test)]
mod formats;
#[cfg(test)]
mod lines;
#[cfg(test)]
mod lists;
