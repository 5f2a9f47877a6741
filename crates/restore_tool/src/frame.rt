// Files that are open at once, and are closed on every way out.

ghost use Rattle.std.specs.Prelude.{◌≡◌, ◌≤◌, ◌<◌, ◌++◌, ◌∷◌, ◌+◌, ◌-◌, [], ℕ, All, IfSome, List, OnErr, OnOk, length, map, slice_index_or, take, vec_capacity, vec_len};
ghost use Rattle.trace_outside.specs.Causes.{Rose};
ghost use Rattle.trace_outside.specs.Folders.{IsFileOf, misses_after};
ghost use Rattle.trace_outside.specs.Open.{AreFilesOf, ClosesMany, IsUnused, OpensMany};
ghost use Rattle.new_files.specs.Requested.{AskedAll};
ghost use Rattle.restore_tool.specs.Copying.{files_seen};

use trace_outside::{Failed, Folder};

/// Opens one more file and holds it after those that are open. Its room was taken before.
fn open_next<F: Folder>(name: &str, files: &mut Vec<F::In>, folder: &mut F) -> Result<(), Failed>
    requires room { vec_len files.old < vec_capacity files.old }
    ensures room { vec_capacity files.new ≡ vec_capacity files.old }
    ensures held { OnOk result ((file : F.In) × ((files.new.items ≡ files.old.items ++ file ∷ [])
        × (IsFileOf (F.files folder.old) name.now (F.In.bytes file) × ((F.In.faults file ≡ 0) × (F.In.reads file ≡ 0))))) }
    ensures kept { OnErr result (files.new ≡ files.old) }
    ensures failed { OnErr result (Rose (F.counts folder.old).reading (F.counts folder.new).reading) }
    ensures counts { OpensMany (F.counts folder.old) (F.counts folder.new) (length files.new.items - length files.old.items) }
    ensures misses { IfSome (F.files folder.old) (λ named. (F.counts folder.new).misses ≡ misses_after named name.now (F.counts folder.old).misses) }
    ensures files { F.files folder.new ≡ F.files folder.old }
    ensures requested { AskedAll (name.now ∷ []) (F.requested folder.old) (F.requested folder.new) }
{
    let file = folder.open_file(name)?;
    files.push_reserved(file);
    Ok(())
}

/// Opens the files of these names in their order. After `Failed` those before the one that failed are open.
pub fn open_files<F: Folder>(
    names: &[&str],
    files: &mut Vec<F::In>,
    folder: &mut F,
) -> Result<(), Failed>
    requires none { files.old.items ≡ [] }
    requires room { length names.now ≤ vec_capacity files.old }
    ensures all { OnOk result (length files.new.items ≡ length names.now) }
    ensures fewer { OnErr result (length files.new.items < length names.now) }
    ensures inside { length files.new.items ≤ length names.now }
    ensures told { AreFilesOf (F.files folder.old) (map (λ name. name.now) names.now) (files_seen F.In.File files.new.items) }
    ensures unused { All IsUnused (files_seen F.In.File files.new.items) }
    ensures failed { OnErr result (Rose (F.counts folder.old).reading (F.counts folder.new).reading) }
    ensures counts { OpensMany (F.counts folder.old) (F.counts folder.new) (length files.new.items) }
    ensures unmissed { OnOk result (IfSome (F.files folder.old) (λ named. (F.counts folder.new).misses ≡ (F.counts folder.old).misses)) }
    ensures missed { OnErr result (IfSome (F.files folder.old) (λ named. (d : List ℕ) → (F.counts folder.new).misses
        ≡ misses_after named (slice_index_or (map (λ name. name.now) names.now) (length files.new.items) d) (F.counts folder.old).misses)) }
    ensures files { F.files folder.new ≡ F.files folder.old }
    ensures requested { AskedAll (take (length files.new.items + 1) (map (λ name. name.now) names.now))
        (F.requested folder.old) (F.requested folder.new) }
{
    for name in names {
        open_next(name, files, folder)?;
    }
    Ok(())
}

/// Closes all files that are open.
pub fn close_files<F: Folder>(mut files: Vec<F::In>, folder: &mut F)
    ensures counts { ClosesMany (files_seen F.In.File files.items) (F.counts folder.old) (F.counts folder.new) }
    ensures files { F.files folder.new ≡ F.files folder.old }
    ensures requested { F.requested folder.new ≡ F.requested folder.old }
{
    while let Some(file) = files.pop() {
        folder.close_file(file);
    }
    files.destroy_empty();
}
