// The items that every header begins with: up to the word in front of the texts that are carried unread.

ghost use Rattle.std.specs.Prelude.{◌≡◌, ◌≤◌, IfOk};
ghost use Rattle.dat_header.specs.Opening.{opening_at, version_at};
ghost use Rattle.dat_header.specs.Pieces.{IsOpening};
ghost use Rattle.dat_header.specs.Refusal.{version_fault};
ghost use Rattle.dat_header.specs.Steps.{Finds, Passes};

use crate::items::{read_there, read_word, word_in};
use crate::layout::read_page_text;
use crate::machine::read_machine;
use crate::pieces::Opening;
use dat_options::OpenFault;
use std::alloc::Global;
use trace_outside::File;

pub(crate) fn read_opening<F: File>(
    alloc: Global,
    file: &mut F,
) -> Result<(Opening, u64), OpenFault>
    ensures allowed { IfOk result (λ found. IsOpening found.0) }
    ensures steps { Finds opening_at 0 F.File file.old file.new result }
{
    let at_version = read_word(file, 0, b"\x17\x08\x44tracing", OpenFault::NotTrace(0))?;
    let at_order = read_version(file, at_version)?;
    let (machine, after) = read_machine(file, at_order)?;
    let at_page = read_word(file, after, b"header_page\0", OpenFault::BadSection(after))?;
    let (page, after) = read_page_text(alloc, &machine, file, at_page)?;
    let at_event = read_word(file, after, b"header_event\0", OpenFault::BadSection(after))?;
    Ok((Opening { machine, page }, at_event))
}

// The word of the file's version.
fn read_version<F: File>(file: &mut F, at: u64) -> Result<u64, OpenFault>
    requires inside { at ≤ F.size file.old }
    ensures { Passes version_at at F.File file.old file.new result }
{
    let mut buffer = [0; 2];
    let count = read_there(file, at, &mut buffer)?;
    let there = &buffer[..count];
    word_in(there, b"6\0", version_fault(there, at), at, file.len())
}

// The fault of another version than 6, where these bytes are there.
fn version_fault(there: &[u8], at: u64) -> OpenFault
    ensures { result ≡ version_fault at there.now }
{
    if there.starts_with(b"7\0") {
        OpenFault::Compressed(at)
    } else {
        OpenFault::OtherVersion(at)
    }
}
