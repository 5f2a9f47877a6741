ghost use Rattle.std.specs.Prelude.{◌≡◌, ◌++◌, ◌∷◌, ◌↔◌, [], None, IfOk, IsOk, string_bytes};
ghost use Rattle.std.specs.Fs.{IsFile, file_type};
ghost use Rattle.trace_outside.specs.Folders.{no_counts};

use crate::counts::Counts;
use crate::outside::{Failed, File, Folder, Sink};
use crate::real::file::RealFile;
use crate::real::sink::RealOut;
use crate::requests::Requests;
use std::alloc::{AllocError, Global};
use std::fs::{Metadata, OpenFile};
use std::io::ErrorKind;
use std::rt::Files;
use std::{fs, io};

/// The file system as a folder: a name is a path.
#[derive(Drop)]
pub struct RealFolder<R: Files + Clone + Drop> {
    rt: R,
    alloc: Global,
    counts: Counts,
    requests: Requests,
}

impl<R: Files + Clone + Drop> RealFolder<R> {
    /// The file system of this runtime, with nothing counted yet.
    pub fn new(rt: R, alloc: Global) -> RealFolder<R>
        ensures no_counts { ⟦<RealFolder<R> as Folder>⟧.counts result ≡ no_counts }
        ensures no_requests { ⟦<RealFolder<R> as Folder>⟧.requested result ≡ [] }
    {
        RealFolder {
            rt,
            alloc,
            counts: Counts::NONE,
            requests: Requests::none(),
        }
    }

    // What is no regular file, as a folder, a pipe or a terminal, cannot be read at places. It is asked what it is before it is
    // opened, since the opening of a pipe waits for its writer, and again as it is open, since the name may have changed hands.
    fn open(&self, name: &str) -> io::Result<RealFile<R::File>>
        ensures no_faults { IfOk result (λ file. ⟦<RealFile<R::File> as File>⟧.faults file ≡ 0) }
        ensures no_reads { IfOk result (λ file. ⟦<RealFile<R::File> as File>⟧.reads file ≡ 0) }
    {
        check_regular(&fs::metadata(&self.rt, name)?)?;
        let file = fs::open(&self.rt, name)?;
        let about = file.metadata()?;
        check_regular(&about)?;
        Ok(RealFile::new(file, &about))
    }

    fn create(&self, name: &str) -> io::Result<RealOut<R::File>>
        ensures named { IfOk result (λ file. ⟦<RealOut<R::File> as Sink>⟧.name file ≡ name.now) }
        ensures no_faults { IfOk result (λ file. ⟦<RealOut<R::File> as Sink>⟧.faults file ≡ 0) }
    {
        let label = String::from_str(self.alloc, name)?;
        let part = part_name(self.alloc, name)?;
        let file = fs::create(&self.rt, part.as_str())?;
        Ok(RealOut::new(label, file))
    }

    fn rename(&self, name: &str) -> io::Result<()> {
        let part = part_name(self.alloc, name)?;
        fs::rename(&self.rt, part.as_str(), name)
    }

    fn remove(&self, name: &str) -> io::Result<()> {
        let part = part_name(self.alloc, name)?;
        fs::remove_file(&self.rt, part.as_str())
    }
}

fn check_regular(about: &Metadata) -> io::Result<()>
    ensures { IsOk result ↔ IsFile (file_type about.now) }
{
    if about.is_file() {
        return Ok(());
    }
    Err(io::Error::from(ErrorKind::InvalidInput))
}

// Where a file is written until it is finished.
fn part_name(alloc: Global, name: &str) -> Result<String, AllocError> {
    let mut part = String::from_str(alloc, name)?;
    part.push_str(".part")?;
    Ok(part)
}

impl<R: Files + Clone + Drop> Folder for RealFolder<R> {
    type In = RealFile<R::File>;

    type Out = RealOut<R::File>;

    ghost files = { λ f. None };

    ghost counts = { λ f. f.counts };

    ghost requested = { λ f. f.requests.names };

    fn open_file(&mut self, name: &str) -> Result<RealFile<R::File>, Failed> {
        self.requests = self.requests.and(name);
        match self.open(name) {
            Ok(file) => {
                self.counts.opened = self.counts.opened.saturating_add(1);
                Ok(file)
            }
            Err(_) => {
                self.counts.reading = self.counts.reading.saturating_add(1);
                Err(Failed)
            }
        }
    }

    fn close_file(&mut self, file: RealFile<R::File>) {
        if file.faults > 0 {
            self.counts.reading = self.counts.reading.saturating_add(1);
        }
        self.counts.closed = self.counts.closed.saturating_add(1);
        self.counts.bytes = self.counts.bytes.saturating_add(file.reads);
    }

    fn create_file(&mut self, name: &str) -> Result<RealOut<R::File>, Failed> {
        self.requests = self.requests.and(name);
        match self.create(name) {
            Ok(file) => {
                self.counts.created = self.counts.created.saturating_add(1);
                Ok(file)
            }
            Err(_) => {
                self.counts.writing = self.counts.writing.saturating_add(1);
                Err(Failed)
            }
        }
    }

    fn finish_file(&mut self, file: RealOut<R::File>) -> Result<(), Failed> {
        if file.has_faults() {
            self.counts.writing = self.counts.writing.saturating_add(1);
        }
        match self.rename(file.label.as_str()) {
            Ok(()) => Ok(()),
            Err(_) => {
                // What cannot get its name goes, as a file that is given up.
                let _ = self.remove(file.label.as_str());
                self.counts.writing = self.counts.writing.saturating_add(1);
                self.counts.unfinished = self.counts.unfinished.saturating_add(1);
                Err(Failed)
            }
        }
    }

    fn drop_file(&mut self, file: RealOut<R::File>) {
        if file.has_faults() {
            self.counts.writing = self.counts.writing.saturating_add(1);
        }
        let _ = self.remove(file.label.as_str());
    }
}
