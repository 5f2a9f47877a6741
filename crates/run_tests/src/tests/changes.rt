// Splits of a file that gives other bytes when its pieces are packed than when they were measured.

ghost use Rattle.std.specs.Prelude.{None};

use super::inputs::{Carried, Input, Page, Record, folder_of};
use super::{ends_as, words_of};
use std::alloc::Global;
use std::process::Abort;
use std::test::Fail;
use std::thread::Threads;
use trace_outside::{Failed, File, Folder, MemFile, MemFolder, MemSink};
use trace_run::{CutPlace, Status};

/// A file of which so many reads after the header are good. Zeros are read then.
#[derive(Drop)]
struct ChangingFile {
    file: MemFile,
    good: u64,
}

impl File for ChangingFile {
    ghost bytes = { λ f. None };

    ghost size = { λ f. ⟦<MemFile as File>⟧.size f.file };

    ghost faults = { λ f. ⟦<MemFile as File>⟧.faults f.file };

    ghost reads = { λ f. ⟦<MemFile as File>⟧.reads f.file };

    ghost size_is = { λ f. tt };

    ghost size_fits = { λ f. f.file.size_fits };

    fn len(&self) -> u64 {
        self.file.len()
    }

    fn read_at(&mut self, at: u64, into: &mut [u8]) -> Result<usize, Failed> {
        let count = self.file.read_at(at, into)?;
        if at >= 4096 {
            if self.good == 0 {
                into.fill(0);
            }
            self.good = self.good.saturating_sub(1);
        }
        Ok(count)
    }
}

/// A folder of such files.
#[derive(Drop)]
struct ChangingFolder {
    folder: MemFolder,
    good: u64,
}

impl Folder for ChangingFolder {
    type In = ChangingFile;

    type Out = MemSink;

    ghost files = { λ f. None };

    ghost counts = { λ f. ⟦<MemFolder as Folder>⟧.counts f.folder };

    ghost requested = { λ f. ⟦<MemFolder as Folder>⟧.requested f.folder };

    fn open_file(&mut self, name: &str) -> Result<ChangingFile, Failed> {
        let file = self.folder.open_file(name)?;
        let good = self.good;
        Ok(ChangingFile { file, good })
    }

    fn close_file(&mut self, file: ChangingFile) {
        let ChangingFile { file, .. } = file;
        self.folder.close_file(file);
    }

    fn create_file(&mut self, name: &str) -> Result<MemSink, Failed> {
        self.folder.create_file(name)
    }

    fn finish_file(&mut self, file: MemSink) -> Result<(), Failed> {
        self.folder.finish_file(file)
    }

    fn drop_file(&mut self, file: MemSink) {
        self.folder.drop_file(file);
    }
}

/// Two events a piece: to measure the first one its first two sub-buffers are read, and to pack it both again; for the second
/// one the third, and then the second and the third again; for the third one the third again.
const SIX: Input = Input::Processors(
    Carried::Nothing,
    &[&[
        Page::Of(
            10,
            &[
                Record::Event(0, 58, 1, 0, 0),
                Record::Event(10, 58, 2, 0, 0),
            ],
        ),
        Page::Of(30, &[Record::Event(0, 58, 3, 0, 0)]),
        Page::Of(
            40,
            &[
                Record::Event(0, 58, 4, 0, 0),
                Record::Event(10, 58, 5, 0, 0),
                Record::Event(10, 58, 6, 0, 0),
            ],
        ),
    ]],
);

/// How many reads are good, how a split into three ends, what it says, and which of the three files stand.
const ROWS: &[(u64, Status, &str, [bool; 3])] = &[
    (
        2,
        Status::Malformed(CutPlace { cpu: 0, page: 1 }),
        "trace-cmd: trace.dat: malformed sub-page 1 of processor 0\n",
        [false, false, false],
    ),
    (
        5,
        Status::Malformed(CutPlace { cpu: 0, page: 2 }),
        "trace-cmd: trace.dat: malformed sub-page 2 of processor 0\n",
        [true, false, false],
    ),
    (
        7,
        Status::Malformed(CutPlace { cpu: 0, page: 2 }),
        "trace-cmd: trace.dat: malformed sub-page 2 of processor 0\n",
        [true, true, false],
    ),
    (8, Status::Done, "", [true, true, true]),
];

fn splits_as<R: Alloc<A = Global> + Abort + Threads + Sync>(
    rt: &R,
    good: u64,
    status: Status,
    err: &str,
    stand: [bool; 3],
) -> Result<(), Fail> {
    let alloc = rt.alloc();
    let words = words_of(alloc, &["split", "-e", "2", "-r", "-o", "part"])?;
    let mut folder = ChangingFolder {
        folder: folder_of(alloc, &SIX)?,
        good,
    };
    ends_as(rt, &words, &mut folder, (status, "", err));
    let names = ["part.1", "part.2", "part.3"];
    for (name, stands) in names.iter().zip(&stand) {
        let is_there = folder.folder.get(name).is_some();
        assert!(rt; is_there == *stands, "{name} after {good} reads");
    }
    Ok(())
}

#[test]
fn files_that_change(rt: HostRuntime) -> Result<(), Fail> {
    for (good, status, err, stand) in ROWS {
        splits_as(&rt, *good, *status, err, *stand)?;
    }
    Ok(())
}
