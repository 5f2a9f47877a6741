//! Tests of the header of a trace file: its sections (`dat_options`), the whole (`dat_header`), its dump (`dump_tool`), and
//! what the header of a partial file is restored to (`restore_tool`).
//!
//! What is wrong in a header, and where, is a row of `WRONG` in `headers`, and a section alone one of the tables in `sections`.
//! The size of a sub-buffer beside that of a page is a row of `SIZES` in `sub_buffer_sizes`; `dumps` has the texts of two
//! headers, section by section. A restoring in which nothing fails is a row of `ROWS` in `restores::rows`, and one in which a
//! call of the folder fails a row of `FAULTS` in `restores::faults`.
#![tactic(auto)]

#[cfg(test)]
mod dumps;
#[cfg(test)]
mod headers;
#[cfg(test)]
mod restores;
#[cfg(test)]
mod sections;
#[cfg(test)]
mod sub_buffer_sizes;
