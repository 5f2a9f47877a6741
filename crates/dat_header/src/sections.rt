// The sections after the number of processors: options, and a latency file's word or the table of parts.

ghost use Rattle.std.specs.Prelude.{◌≡◌, ◌≤◌, map, IfOk};
ghost use Rattle.std.specs.List.{list_any};
ghost use Rattle.dat_header.specs.Refusal.{begins_with};
ghost use Rattle.dat_header.specs.Header.{sections_at, behind_options_at, body_at, first_word_at, last_word_at, first_word_in, last_word_in};
ghost use Rattle.dat_header.specs.Allowed.{IsBody};
ghost use Rattle.dat_header.specs.Pieces.{AreSections};
ghost use Rattle.dat_header.specs.Items.{body_words};
ghost use Rattle.dat_header.specs.Steps.{Finds};

use crate::header::Body;
use crate::items::read_there;
use crate::pieces::{LastSection, Sections};
use dat_options::{OpenFault, read_options, read_table};
use std::alloc::Global;
use trace_base::Order;
use trace_outside::File;

const OPTIONS: [u8; 10] = *b"options  \0";

const LATENCY: [u8; 10] = *b"latency  \0";

const FLYRECORD: [u8; 10] = *b"flyrecord\0";

pub(crate) fn read_sections<F: File>(
    alloc: Global,
    order: Order,
    cpus: u32,
    file: &mut F,
    at: u64,
) -> Result<(Sections, u64), OpenFault>
    requires inside { at ≤ F.size file.old }
    ensures allowed { IfOk result (λ found. AreSections cpus found.0) }
    ensures steps { Finds (sections_at order cpus) at F.File file.old file.new result }
{
    let (first, after) = read_first_word(file, at)?;
    match first {
        None => read_behind_options(alloc, order, cpus, file, after),
        Some(last) => {
            let (body, end) = read_body(alloc, order, cpus, last, file, after)?;
            let options = None;
            Ok((Sections { options, body }, end))
        }
    }
}

fn read_behind_options<F: File>(
    alloc: Global,
    order: Order,
    cpus: u32,
    file: &mut F,
    at: u64,
) -> Result<(Sections, u64), OpenFault>
    requires inside { at ≤ F.size file.old }
    ensures allowed { IfOk result (λ found. AreSections cpus found.0) }
    ensures steps { Finds (behind_options_at order cpus) at F.File file.old file.new result }
{
    let (options, at_last) = read_options(alloc, order, file, at)?;
    let (last, after) = read_last_word(file, at_last)?;
    let (body, end) = read_body(alloc, order, cpus, last, file, after)?;
    let options = Some(options);
    Ok((Sections { options, body }, end))
}

fn read_body<F: File>(
    alloc: Global,
    order: Order,
    cpus: u32,
    last: LastSection,
    file: &mut F,
    at: u64,
) -> Result<(Body, u64), OpenFault>
    requires inside { at ≤ F.size file.old }
    ensures allowed { IfOk result (λ found. IsBody cpus found.0) }
    ensures steps { Finds (body_at order cpus last) at F.File file.old file.new result }
{
    match last {
        LastSection::Latency => Ok((Body::Latency, at)),
        LastSection::Fly => {
            let (parts, after) = read_table(alloc, order, cpus, file, at)?;
            Ok((Body::Fly(parts), after))
        }
    }
}

// The word of the first section, which is none where options come first.
fn read_first_word<F: File>(file: &mut F, at: u64) -> Result<(Option<LastSection>, u64), OpenFault>
    requires inside { at ≤ F.size file.old }
    ensures { Finds first_word_at at F.File file.old file.new result }
{
    let mut buffer = [0; 10];
    let count = read_there(file, at, &mut buffer)?;
    let first = first_word_in(&buffer[..count], at, file.len())?;
    Ok((first, at + count as u64))
}

// The word that follows the options.
fn read_last_word<F: File>(file: &mut F, at: u64) -> Result<(LastSection, u64), OpenFault>
    requires inside { at ≤ F.size file.old }
    ensures { Finds (last_word_at body_words) at F.File file.old file.new result }
{
    let mut buffer = [0; 10];
    let count = read_there(file, at, &mut buffer)?;
    let words: [&[u8]; 2] = [&LATENCY, &FLYRECORD];
    let last = last_word_in(&words, &buffer[..count], at, file.len())?;
    Ok((last, at + count as u64))
}

fn first_word_in(there: &[u8], at: u64, size: u64) -> Result<Option<LastSection>, OpenFault>
    ensures { result ≡ first_word_in at there.now size }
{
    if there.starts_with(&OPTIONS) {
        return Ok(None);
    }
    let words: [&[u8]; 3] = [&OPTIONS, &LATENCY, &FLYRECORD];
    let last = last_word_in(&words, there, at, size)?;
    Ok(Some(last))
}

// The last section, by the bytes that are there at `at` in a file of that size, where one of these words has to stand.
fn last_word_in(words: &[&[u8]], there: &[u8], at: u64, size: u64) -> Result<LastSection, OpenFault>
    ensures { result ≡ last_word_in (map (λ word. word.now) words.now) at there.now size }
{
    if there.starts_with(&LATENCY) {
        Ok(LastSection::Latency)
    } else if there.starts_with(&FLYRECORD) {
        Ok(LastSection::Fly)
    } else if is_cut(words, there) {
        Err(OpenFault::Truncated(size))
    } else {
        Err(OpenFault::BadSection(at))
    }
}

// Whether one of the words begins with all that is there.
fn is_cut(words: &[&[u8]], there: &[u8]) -> bool
    ensures { result ≡ list_any (λ word. begins_with word.now there.now) words.now }
{
    words.iter().any(|word| word.starts_with(there))
}
