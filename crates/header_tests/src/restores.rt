// Restorings: how the header of a partial file and the data files beside it become a whole file.
//
// `reads` counts what is read of the files. `told` has the files that a row may name, and the text in which its outcome is
// told.

mod faults;
mod reads;
mod rows;
mod told;
