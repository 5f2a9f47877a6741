//! The program over a runtime, its words and two writers: its files are those of the file system.
#![tactic(auto)]

ghost use Rattle.std.specs.Prelude.{◌≡◌, ◌⊎◌, IfErr, IfOk};
ghost use Rattle.run_endings.specs.Outside.{outside_seen, sink_seen};
ghost use Rattle.run_words.specs.Usage.{asked};
ghost use Rattle.trace_run.specs.Answers.{Answers, IsNumberOf};

use std::alloc::Global;
use std::io::{ErrorKind, Write};
use std::rt::{Env, Files};
use std::thread::Threads;
use std::{env, io};
use trace_base::Words;
use trace_outside::{Folder, NoGate, RealFolder, RealSink, Sink, write_all};
use trace_run::{Status, run};

/// The number with which the program ends where its words cannot be read, which no run answers.
pub const UNREADABLE_WORDS: u8 = 7;

/// Runs the program on its words, and answers the number with which it is to end: that of the run's status, or 6 or 7 where the
/// words are not there.
///
/// The output goes to `out`, and the message to `err`.
pub fn program<R, O, E>(rt: &R, words: io::Result<Words>, out: O, err: E) -> u8
where
    R: Threads + Sync + Files + AllocGlobal,
    O: Write + Drop,
    E: Write + Drop,
    ensures ran { IfOk words (λ words. IsNumberOf words result) }
    ensures unread { IfErr words (λ error. (result ≡ 6) ⊎ (result ≡ 7)) }
{
    let alloc = rt.alloc();
    let mut out = RealSink::new(out);
    let mut err = RealSink::new(err);
    match words {
        Ok(words) => {
            let mut folder = RealFolder::new(rt, alloc);
            program_on(rt, alloc, &words, &mut folder, &mut out, &mut err)
        }
        Err(error) if error.kind() == ErrorKind::OutOfMemory => {
            let _ = write_all(&mut err, b"trace-cmd: out of memory\n");
            Status::NoMemory.number()
        }
        Err(_) => {
            let _ = write_all(&mut err, b"trace-cmd: words cannot be read\n");
            UNREADABLE_WORDS
        }
    }
}

/// Runs the program on its words over this folder and these sinks, and answers the number of the run's status. The output goes to `out`,
/// and the message to `err`.
pub fn program_on<R: Threads + Sync, F: Folder, O: Sink, E: Sink>(
    rt: &R,
    alloc: Global,
    words: &Words,
    folder: &mut F,
    out: &mut O,
    err: &mut E,
) -> u8
    ensures { Answers (asked words.now) result
        (outside_seen F.Folder O.Sink folder.old out.old) (outside_seen F.Folder O.Sink folder.new out.new)
        (sink_seen E.Sink err.old) (sink_seen E.Sink err.new) }
{
    run(rt, alloc, words, folder, out, err, &NoGate).number()
}

/// The words of the command line after the program's own name.
pub fn words_of(rt: &(impl Env + AllocGlobal)) -> io::Result<Words> {
    let mut words = Words::new(rt.alloc());
    for word in env::args(rt)?.skip(1) {
        words.push(word.as_str())?;
    }
    Ok(words)
}
