// The layout that a header_page text gives.

ghost use Rattle.std.specs.Prelude.{◌≡◌, ◌≤◌, IfOk};
ghost use Rattle.std.specs.Option.{option_map};
ghost use Rattle.trace_base.specs.FieldReading.{field_view};
ghost use Rattle.dat_header.specs.PageText.{field_lines, is_sub_buffer_size, layout_of, layout_by, line_named};
ghost use Rattle.dat_header.specs.Pieces.{IsMachine, IsPageText};
ghost use Rattle.dat_header.specs.Opening.{page_text_at};
ghost use Rattle.dat_header.specs.Steps.{Finds};

use crate::items::{read_content, read_long_number};
use crate::pieces::{Machine, PageText};
use dat_options::OpenFault;
use std::alloc::Global;
use text_lines::first_line;
use trace_base::{FieldLine, Layout, read_field_line};
use trace_outside::File;

// The header_page text of a file with such a machine.
pub(crate) fn read_page_text<F: File>(
    alloc: Global,
    machine: &Machine,
    file: &mut F,
    at: u64,
) -> Result<(PageText, u64), OpenFault>
    requires machine { IsMachine machine.now }
    requires inside { at ≤ F.size file.old }
    ensures allowed { IfOk result (λ found. IsPageText machine.now found.0) }
    ensures steps { Finds (page_text_at machine.now) at F.File file.old file.new result }
{
    let (size, at_text) = read_long_number(machine.order, file, at)?;
    let (text, after) = read_content(alloc, size, file, at_text)?;
    match layout_of(machine, text.as_bytes()) {
        Some(layout) => Ok((PageText { text, layout }, after)),
        None => Err(OpenFault::BadHeaderPage(at_text)),
    }
}

#[tactic(auto, unfolding(crate::specs::PageText::layout_of))]
fn layout_of(machine: &Machine, text: &[u8]) -> Option<Layout>
    requires { IsMachine machine.now }
    ensures { result ≡ layout_of machine.now.order machine.now.long machine.now.page text.now }
{
    if text.is_empty() {
        return Some(Layout::plain(machine.order, machine.long, machine.page));
    }
    let time = line_named(text, b"timestamp")?;
    let commit = line_named(text, b"commit")?;
    let content = line_named(text, b"data")?;
    layout_by(machine, &time, &commit, &content)
}

// The first field line of this name.
fn line_named<'a>(text: &'a [u8], name: &[u8]) -> Option<FieldLine<'a>>
    ensures { option_map field_view result ≡ line_named name.now (field_lines text.now) }
{
    let mut left = Some(text);
    while let Some(lines) = left {
        let (line, after) = first_line(lines);
        if let Some(field) = read_field_line(line)
            && field.name == name
        {
            return Some(field);
        }
        left = after;
    }
    None
}

fn layout_by(
    machine: &Machine,
    time: &FieldLine<'_>,
    commit: &FieldLine<'_>,
    content: &FieldLine<'_>,
) -> Option<Layout>
    ensures { result ≡ layout_by machine.now.order machine.now.page (field_view time.now) (field_view commit.now) (field_view content.now) }
{
    let size = content.offset as u64 + content.size as u64;
    if time.size != 8 || !is_sub_buffer_size(machine.page, size) {
        return None;
    }
    Layout::new(
        machine.order,
        time.offset,
        commit.offset,
        commit.size,
        content.offset,
        size as u32,
    )
}

// Kernels since Linux 6.8 make sub-buffers of several pages where `buffer_subbuf_size_kb` says so.
fn is_sub_buffer_size(page: u32, size: u64) -> bool
    ensures { result ≡ is_sub_buffer_size page size }
{
    u64::from(page) <= size && size <= 262_144 && size.is_power_of_two()
}
