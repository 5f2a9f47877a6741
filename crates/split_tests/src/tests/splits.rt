// Files that are split, and the items of a file.

ghost use Rattle.std.specs.Prelude.{◌≡◌, ◌+◌, ◌≤◌, true, length, IfOk};
ghost use Rattle.std.specs.List.{enumerate_from};
ghost use Rattle.dat_header.specs.Allowed.{IsHeader};
ghost use Rattle.split_pieces.specs.Pieces.{IsUnit};

use super::items::put_sub_buffers;
use dat_header::{Body, Header, read_header};
use split_pieces::Rules;
use split_tool::{End, IoFault, SplitPlan, SplitWork, lists_over, split};
use std::alloc::{AllocError, Global};
use std::test::Fail;
use trace_args::SplitWords;
use trace_base::{ByteText, Layout, Part, Words};
use trace_outside::{File, Folder, MemFile};
use word_values::PieceUnit;

// The items of a part, and `|`.
fn put_part(text: &mut String, layout: &Layout, part: Part, bytes: &[u8]) -> Result<(), Fail> {
    let (_, rest) = bytes
        .split_at_checked(part.offset as usize)
        .unwrap_or((&[], &[]));
    put_sub_buffers(text, layout, rest, part.size / u64::from(layout.page))?;
    Ok(())
}

// The items of a whole file, and `/`.
pub(super) fn put_file(alloc: Global, text: &mut String, bytes: &[u8]) -> Result<(), Fail> {
    let mut file = MemFile::new(ByteText::copy(alloc, bytes)?);
    match read_header(alloc, &mut file) {
        Ok(header) => {
            if let Body::Fly(parts) = &header.body {
                for part in parts.as_slice() {
                    put_part(text, &header.layout, *part, bytes)?;
                }
            }
        }
        Err(_) => text.push_str("no header")?,
    }
    text.push_str("/")?;
    Ok(())
}

// The number of the first selected processor, and the parts of the selected ones.
fn selected(one: Option<u32>, parts: &[Part]) -> (u32, &[Part])
    ensures { result.0 + length result.1.now ≤ length parts.now }
{
    match one {
        None => (0, parts),
        Some(cpu) => {
            let at = cpu as usize;
            if at < parts.len() {
                (cpu, &parts[at..at + 1])
            } else {
                (0, &[])
            }
        }
    }
}

fn is_allowed(words: &SplitWords<'_>) -> bool
    ensures unit { result ≡ true → IsUnit words.now.unit }
    ensures base { result ≡ true → length words.now.base.now ≤ 4096 }
{
    let unit = match words.unit {
        PieceUnit::All => true,
        PieceUnit::Nanos(count) => count > 0,
        PieceUnit::Events(count) => count > 0,
    };
    unit && words.base.len() <= 4096
}

// Parts with the numbers of their processors, from a first one on.
fn numbered(alloc: Global, first: u32, parts: &[Part]) -> Result<Vec<(u32, Part)>, AllocError>
    requires { first + length parts.now ≤ 1024 }
    ensures { IfOk result (λ all. all.items ≡ enumerate_from first parts.now) }
{
    let mut all = Vec::with_capacity(alloc, parts.len())?;
    for i in 0..parts.len() {
        all.push((first + i as u32, parts[i]))?;
    }
    Ok(all)
}

// Splits the parts of processors that are numbered from a first one on.
fn split_parts<F: File, D: Folder>(
    alloc: Global,
    plan: &SplitPlan<'_>,
    file: &mut F,
    first: u32,
    parts: &[Part],
    folder: &mut D,
) -> Result<Result<End, IoFault>, Fail>
    requires allowed { IsHeader plan.now.header.now }
    requires unit { IsUnit plan.now.rules.unit }
    requires base { length plan.now.base.now ≤ 4096 }
    requires inside { first + length parts.now ≤ plan.now.header.now.cpus }
{
    let parts = numbered(alloc, first, parts)?;
    let mut lists = lists_over(alloc, &plan.rules, plan.header, &parts)?;
    let mut work = SplitWork::new(alloc, plan.header)?;
    Ok(split(plan, file, lists.as_mut_slice(), &mut work, folder))
}

// Splits a file with this header into a folder.
pub(super) fn split_under<F: File, D: Folder>(
    alloc: Global,
    words: &SplitWords<'_>,
    header: &Header,
    file: &mut F,
    folder: &mut D,
) -> Result<Result<End, IoFault>, Fail>
    requires { IsHeader header.now }
{
    let Body::Fly(parts) = &header.body else {
        return Ok(Err(IoFault::Read));
    };
    if !is_allowed(words) {
        return Ok(Err(IoFault::Read));
    }
    let plan = SplitPlan {
        header,
        rules: Rules {
            unit: words.unit,
            repeat: words.repeat,
            per_cpu: words.per_cpu,
            start: words.start,
            stop: words.stop,
        },
        base: words.base,
    };
    let (first, parts) = selected(words.cpu, parts.as_slice());
    split_parts(alloc, &plan, file, first, parts, folder)
}

// Splits a file of these bytes into a folder.
pub(super) fn split_into<D: Folder>(
    alloc: Global,
    words: &SplitWords<'_>,
    bytes: Vec<u8>,
    folder: &mut D,
) -> Result<Result<End, IoFault>, Fail> {
    let mut file = MemFile::new(ByteText::from_vec(bytes));
    let Ok(header) = read_header(alloc, &mut file) else {
        return Ok(Err(IoFault::Read));
    };
    split_under(alloc, words, &header, &mut file, folder)
}

// How a split ended, in a word of the rows.
pub(super) fn put_end(text: &mut String, end: Result<End, IoFault>) -> Result<(), Fail> {
    match end {
        Ok(End::Done) => text.push_str("done")?,
        Ok(End::Malformed(cut)) => write!(text, "malformed {} {}", cut.cpu, cut.page)?,
        Err(IoFault::Read) => text.push_str("read")?,
        Err(IoFault::Write) => text.push_str("write")?,
    }
    Ok(())
}

// The words of a split, after the input and the first part of the new names.
pub(super) fn words_of(alloc: Global, line: &str) -> Result<Words, AllocError> {
    let mut words = Words::new(alloc);
    for word in ["split", "-i", "trace.dat", "-o", "part"] {
        words.push(word)?;
    }
    for word in line.split(' ') {
        if !word.is_empty() {
            words.push(word)?;
        }
    }
    Ok(words)
}
