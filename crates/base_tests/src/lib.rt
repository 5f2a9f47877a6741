//! Tests of the public calls on which the other crates stand: `trace_base`, `trace_outside`, `text_lines`, `noted_places`,
//! `trace_samples`, `word_values` and `trace_args`.
//!
//! A line of a field and its reading is a row of `LINES` in `field_lines`, a line of words and its reading one of `LINES` in
//! `words`, a sample sub-buffer and its items one of `PAGES` in `samples`, and a call of a file, folder or writer that fails,
//! in memory or of the system, a row of the tables in `outside`. A piece and what a tail keeps of it is a row of `PIECES` in
//! `tails`. `lines` has the lines of texts, and `places` the places of numbers in a cache. `texts` calls each function over
//! numbers, texts and lists once.
#![tactic(auto)]

#[cfg(test)]
mod field_lines;
#[cfg(test)]
mod lines;
#[cfg(test)]
mod outside;
#[cfg(test)]
mod places;
#[cfg(test)]
mod samples;
#[cfg(test)]
mod tails;
#[cfg(test)]
mod texts;
#[cfg(test)]
mod words;
