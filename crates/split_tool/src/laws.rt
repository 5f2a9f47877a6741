//! What is promised of new files. Each law is the contract of a function that does nothing.

ghost use Rattle.std.specs.Prelude.{◌≡◌, ◌<◌, ◌≤◌, ◌^◌, All, List, Ok, ℕ, length};
ghost use Rattle.trace_base.specs.declared.part.Part.{Part};
ghost use Rattle.dat_options.specs.Place.{AreBytes};
ghost use Rattle.dat_header.specs.declared.header.Header.{Header};
ghost use Rattle.dat_header.specs.Allowed.{IsHeader};
ghost use Rattle.dat_header.specs.Header.{header_of};
ghost use Rattle.dat_header.specs.Written.{header_text, without_instances};
ghost use Rattle.subpage.specs.ItemData.{ItemData};
ghost use Rattle.page_write.specs.PageBytes.{IsPackable};
ghost use Rattle.split_pieces.specs.declared.rules.Rules.{Rules};
ghost use Rattle.split_pieces.specs.Cuts.{file_items};
ghost use Rattle.split_tool.specs.NewFile.{ReadsBack, file_text};
ghost use Rattle.split_tool.specs.NewFiles.{ReadBack, new_files};

/// Each new file of an input of at most 2^39 bytes reads back to just its items, under the input's header without the options
/// of instances. An item has at least four bytes of the input, each processor may have all of these, and a sub-buffer of the
/// new file has an item, so all numbers of its table are below 2^64.
pub fn new_files_read_back()
    ensures { (rules : Rules) (base : List ℕ) (header : Header) (bytes : List ℕ) (parts : List (ℕ × Part))
        → AreBytes bytes → header_of bytes ≡ Ok header → IsHeader header → length bytes ≤ 2 ^ 39 → length parts ≤ 1024
        → ReadBack (without_instances header) (file_items rules header.layout bytes parts)
        (new_files rules base (without_instances header) bytes parts) }
{}

/// The file of processors' items reads back to the header and just these items, wherever sub-buffers end.
pub fn new_file_reads_back()
    ensures { (header : Header) (lists : List (List ItemData)) → IsHeader header → length lists ≡ header.cpus
        → All (All (IsPackable header.layout)) lists → length (file_text header lists) < 2 ^ 64
        → ReadsBack header lists (file_text header lists) }
{}

/// A header that was read is allowed without the options of instances too, and short where it was read of at most 2^39 bytes,
/// whatever its table says.
pub fn new_headers_are_short()
    ensures allowed { (header : Header) → IsHeader header → IsHeader (without_instances header) }
    ensures short { (header : Header) (bytes : List ℕ) (parts : List Part) → header_of bytes ≡ Ok header → header.cpus ≤ 1024
        → length parts ≡ header.cpus → length bytes ≤ 2 ^ 39 → length (header_text (without_instances header) parts) ≤ 2 ^ 41 }
{}
