//! What is promised of a restored file.

ghost use Rattle.std.specs.Prelude.{◌≡◌, ◌<◌, ◌^◌, ℕ, List, length};
ghost use Rattle.dat_header.specs.declared.header.Header.{Header};
ghost use Rattle.dat_header.specs.Allowed.{IsHeader};
ghost use Rattle.restore_tool.specs.Restored.{IsRestored, restored};

/// The restored bytes are a trace file with the header, and by its table each processor has just its data file.
pub fn restored_file_reads_back()
    ensures { (header : Header) (files : List (List ℕ)) → IsHeader header → length files ≡ header.cpus → length (restored header files) < 2 ^ 64
        → IsRestored header files (restored header files) }
{}
