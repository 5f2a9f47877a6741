use std::alloc::{AllocError, Global};
use trace_base::Words;

/// The words of a line, with a blank between any two.
pub fn words_of_line(alloc: Global, line: &str) -> Result<Words, AllocError> {
    let mut words = Words::new(alloc);
    for word in line.split(' ') {
        words.push(word)?;
    }
    Ok(words)
}
