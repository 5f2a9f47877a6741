//! Whole runs over objects in memory, for tests: [`run_line`] runs the words of a line over a folder and two outputs that may
//! fail, [`run_words`] runs words over any folder behind a gate, and answers with what it wrote. [`folder_of`] is a folder with
//! one file, and [`is_first_lines`] looks at what a run that failed wrote.
#![tactic(auto)]

use std::alloc::{Alloc, AllocError, Global};
use std::thread::Threads;
use trace_base::Words;
use trace_outside::{Folder, Gate, MemFolder, MemSink, NoGate};
use trace_run::{Status, run};
use trace_samples::words_of_line;

/// How a run ended, and what it wrote.
#[derive(Drop)]
pub struct Ran {
    pub status: Status,
    pub out: MemSink,
    pub err: MemSink,
}

/// Runs words over a folder, behind a gate.
pub fn run_words<R: Alloc<A = Global> + Threads + Sync, F: Folder, G: Gate>(
    rt: &R,
    words: &Words,
    folder: &mut F,
    gate: &G,
) -> Ran {
    let alloc = rt.alloc();
    let mut out = MemSink::new(alloc);
    let mut err = MemSink::new(alloc);
    let status = run(rt, alloc, words, folder, &mut out, &mut err, gate);
    Ran { status, out, err }
}

/// Runs the words of a line, with a blank between any two, over these outputs.
pub fn run_line<R: Alloc<A = Global> + Threads + Sync>(
    rt: &R,
    line: &str,
    folder: &mut MemFolder,
    out: &mut MemSink,
    err: &mut MemSink,
) -> Result<Status, AllocError> {
    let alloc = rt.alloc();
    let words = words_of_line(alloc, line)?;
    Ok(run(rt, alloc, &words, folder, out, err, &NoGate))
}

/// A folder with this file under the name trace.dat.
pub fn folder_of(alloc: Global, file: &[u8]) -> Result<MemFolder, AllocError> {
    let mut folder = MemFolder::new(alloc);
    folder.put("trace.dat", file)?;
    Ok(folder)
}

/// Whether the text is the first few lines of the whole one.
pub fn is_first_lines(text: &[u8], whole: &[u8]) -> bool {
    whole.starts_with(text) && (text.is_empty() || text.ends_with(b"\n"))
}
