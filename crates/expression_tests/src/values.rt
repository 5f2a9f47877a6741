// What trees come to.

mod fields;
mod folds;
mod operators;
mod samples;
mod texts;
