//! Whole runs of `trace_run::run` over other input than one sound file: hostile files and words, as traces cut anywhere, sizes
//! past their ends, malformed sub-buffers, fields outside of their events and texts of a million lines; and several files at
//! once. Each run must answer just what the definitions say.
//!
//! A number in a header that asks for more than the file has is a row of `EARLY` in `sizes`, and one with another answer a row
//! of `OTHERS`. A malformed sub-buffer is a row of `MALFORMED` in `sub_buffers`, and times at their end are rows of `REPORTS`
//! and of `SPLITS`. A format whose fields lie elsewhere is a row of `ROWS` in `fields`. Long texts are told as a part again and
//! again (`long`): those of a file in `texts`, those of the command line in `words`. `cuts` cuts one file after each byte.
//!
//! The words, the files and what must come of them are a row of `ROWS` in `several`, and a line at its limit a row of `LONG`;
//! `files` has what a file may be.
#![tactic(auto)]

#[cfg(test)]
mod cuts;
#[cfg(test)]
mod fields;
#[cfg(test)]
mod files;
#[cfg(test)]
mod long;
#[cfg(test)]
mod runs;
#[cfg(test)]
mod several;
#[cfg(test)]
mod sizes;
#[cfg(test)]
mod sub_buffers;
#[cfg(test)]
mod texts;
#[cfg(test)]
mod words;
