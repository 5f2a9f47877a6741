// The outside of the program: files that are read, sinks that are written, folders of both, and a gate of lanes.
//
// Contents are optional in each meaning: an object in memory tells its bytes, and one over the system does not. Faults are
// counted by the object itself, so that a caller which answers a fault can be held to a count that rose.

ghost use Rattle.std.specs.Prelude.{Option, ◌≡◌, ◌<◌, ◌≤◌, ◌^◌, ◌++◌, ◌∷◌, List, ℕ, [], length, IfOk, IfSome, OnOk, OnErr, Some};
ghost use Rattle.trace_outside.specs.declared.counts.Counts.{Counts};
ghost use Rattle.trace_outside.specs.Causes.{HasCause, raised};
ghost use Rattle.trace_outside.specs.Reading.{ReadsAt};
ghost use Rattle.trace_outside.specs.Writing.{Takes};
ghost use Rattle.trace_outside.specs.Names.{NamedFiles};
ghost use Rattle.trace_outside.specs.Folders.{IsEmptySink, IsFileOf, Opens, Closes, Creates, Finishes, Drops, Stores, KeepsOthers};

use thiserror::Error;

/// A call of the outside did not do what it was asked. The object's count of faults rose.
#[derive(Clone, Copy, Debug, PartialEq, Eq, Error)]
#[error("a call of the outside failed")]
pub struct Failed;

/// A file that is read at places, counted in bytes from 0. Its bytes and its length never change.
pub trait File {
    /// Its bytes, where the file tells them.
    ghost bytes: { Self → Option (List ℕ) };

    /// How many bytes it has.
    ghost size: { Self → ℕ };

    /// How many of its reads failed since it was opened.
    ghost faults: { Self → ℕ };

    /// How many of its bytes were read since it was opened.
    ghost reads: { Self → ℕ };

    /// How many bytes it has.
    fn len(&self) -> u64
        ensures { result ≡ size self.now };

    /// Reads at least one byte from `at` on to the front of `into`, and answers how many.
    fn read_at(&mut self, at: u64, into: &mut [u8]) -> Result<usize, Failed>
        requires inside { at < size self.old }
        requires room { 0 < length into.old }
        ensures given { ReadsAt (bytes self.old) at result into.new }
        ensures reads { IfOk result (λ count. reads self.new ≡ raised (reads self.old) count) }
        ensures no_reads { OnErr result (reads self.new ≡ reads self.old) }
        ensures bytes { bytes self.new ≡ bytes self.old }
        ensures size { size self.new ≡ size self.old }
        ensures cause { HasCause (faults self.old) (faults self.new) result };

    /// The size is the number of the bytes.
    ghost size_is: { (file : Self) → IfSome (bytes file) (λ told. length told ≡ size file) };

    /// The size is a number of 64 bits, so no place in the file overflows.
    ghost size_fits: { (file : Self) → size file < 2 ^ 64 };
}

/// Something that bytes are written to, one piece after another.
pub trait Sink {
    /// Its name, empty for a sink that no folder made.
    ghost name: { Self → List ℕ };

    /// What was written to it, where it tells that.
    ghost written: { Self → Option (List ℕ) };

    /// How many of its writes failed since it was made.
    ghost faults: { Self → ℕ };

    /// Takes at least the first byte of a piece that has some, and answers how many it took.
    fn write(&mut self, piece: &[u8]) -> Result<usize, Failed>
        ensures taken { Takes (written self.old) (written self.new) piece.now result }
        ensures name { name self.new ≡ name self.old }
        ensures cause { HasCause (faults self.old) (faults self.new) result };
}

/// A folder of named files. A file that was opened is to be closed, and a sink that was created is to be finished or dropped.
pub trait Folder {
    type In: File;

    type Out: Sink;

    /// The bytes of each name, where the folder tells them.
    ghost files: { Self → Option NamedFiles };

    /// What the folder has counted.
    ghost counts: { Self → Counts };

    /// The names that it was asked for, in their order, those of new files among them.
    ghost requested: { Self → List (List ℕ) };

    /// Opens the file of a name.
    fn open_file(&mut self, name: &str) -> Result<Self::In, Failed>
        ensures given { IfOk result (λ file. IsFileOf (files self.old) name.now (Self.In.bytes file)) }
        ensures no_faults { IfOk result (λ file. Self.In.faults file ≡ 0) }
        ensures no_reads { IfOk result (λ file. Self.In.reads file ≡ 0) }
        ensures files { files self.new ≡ files self.old }
        ensures counts { Opens (files self.old) name.now (counts self.old) (counts self.new) result }
        ensures requested { requested self.new ≡ requested self.old ++ name.now ∷ [] };

    /// Takes an opened file back. Its faults and the bytes read from it are counted here.
    fn close_file(&mut self, file: Self::In)
        ensures files { files self.new ≡ files self.old }
        ensures counts { Closes (Self.In.faults file) (Self.In.reads file) (counts self.old) (counts self.new) }
        ensures requested { requested self.new ≡ requested self.old };

    /// Makes an empty sink of a name. The name has these bytes once the sink is finished.
    fn create_file(&mut self, name: &str) -> Result<Self::Out, Failed>
        ensures named { IfOk result (λ file. Self.Out.name file ≡ name.now) }
        ensures empty { IfOk result (λ file. IsEmptySink (files self.old) (Self.Out.written file)) }
        ensures no_faults { IfOk result (λ file. Self.Out.faults file ≡ 0) }
        ensures files { files self.new ≡ files self.old }
        ensures counts { Creates (counts self.old) (counts self.new) result }
        ensures requested { requested self.new ≡ requested self.old ++ name.now ∷ [] };

    /// Sets the sink's name to what was written to it, in place of an older file of that name.
    fn finish_file(&mut self, file: Self::Out) -> Result<(), Failed>
        ensures stored { OnOk result (Stores (files self.old) (files self.new) (Self.Out.name file) (Self.Out.written file)) }
        ensures others { OnErr result (KeepsOthers (files self.old) (files self.new) (Self.Out.name file)) }
        ensures counts { Finishes (Self.Out.faults file) (counts self.old) (counts self.new) result }
        ensures requested { requested self.new ≡ requested self.old };

    /// Gives a sink up. Its name stays as it was.
    fn drop_file(&mut self, file: Self::Out)
        ensures files { files self.new ≡ files self.old }
        ensures counts { Drops (Self.Out.faults file) (counts self.old) (counts self.new) }
        ensures requested { requested self.new ≡ requested self.old };
}

/// Where each lane passes as it is formatted, so that a test can hold lanes up. It changes nothing.
pub trait Gate: Sync {
    /// Lets the lane of this processor pass.
    fn enter(&self, lane: u32);
}
