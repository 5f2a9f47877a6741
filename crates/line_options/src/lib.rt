//! What is shown of each line of a report: the words of `report` ask for it, and lines are made by it.
#![tactic(auto)]

mod options;

pub use options::LineOptions;
