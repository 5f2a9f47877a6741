// What a report's lines stand on: formats and names, read from the header's texts, and what the words ask for.

ghost use Rattle.std.specs.Prelude.{◌≡◌, map, IfOk};
ghost use Rattle.format_parse.specs.Table.{formats_in, with_formats};
ghost use Rattle.trace_args.specs.Command.{report_view};
ghost use Rattle.report_context.specs.Context as spec;
ghost use Rattle.report_context.specs.Context.{formats_of, show_of};
ghost use Rattle.filter_truth.specs.SelectionView.{use_of};
ghost use Rattle.run_words.specs.Usage.{uses_in};

use dat_header::{Header, System};
use filter_truth::FilterUse;
use format_parse::FormatTable;
use report_print::{Context, Show};
use std::alloc::{AllocError, Global};
use symbols::Symbols;
use trace_args::ReportWords;
use trace_base::{ByteText, Layout, ListOf};

/// The context of a report of a file with this header. The filters are those of the words.
pub fn context_of(
    alloc: Global,
    words: &ReportWords<'_>,
    filters: Vec<FilterUse>,
    header: Header,
) -> Result<Context, AllocError>
    requires filters { uses_in (report_view words.now).filters ≡ map use_of filters.items }
    ensures { IfOk result (λ context. context ≡ spec.context_of (report_view words.now) header) }
{
    let formats = read_formats(alloc, &header)?;
    let show = show_by(alloc, words, &header.layout)?;
    let symbols = read_symbols(alloc, header)?;
    Context::build(alloc, formats, symbols, filters, show)
}

/// The formats of a file's events.
pub fn read_formats(alloc: Global, header: &Header) -> Result<FormatTable, AllocError>
    ensures { IfOk result (λ table. table ≡ formats_of header.now) }
{
    let empty = FormatTable::new(alloc);
    let own = header.ftrace.as_slice();
    let mut table = empty.with_texts(alloc, b"ftrace", own)?;
    let systems = header.systems.as_slice();
    for system in systems {
        let longer = with_system(alloc, table, system)?;
        table = longer;
    }
    Ok(table)
}

// The table with the formats of one more system.
fn with_system(
    alloc: Global,
    table: FormatTable,
    system: &System,
) -> Result<FormatTable, AllocError>
    ensures { IfOk result (λ longer. longer ≡ with_formats table (formats_in system.now.name system.now.formats)) }
{
    table.with_texts(alloc, system.name.as_bytes(), system.formats.as_slice())
}

/// The names that a file carries. They stay where they stand in the header's texts.
pub fn read_symbols(alloc: Global, header: Header) -> Result<Symbols, AllocError>
    ensures { IfOk result (λ symbols. symbols ≡ spec.symbols_of header) }
{
    Symbols::read(alloc, header.kallsyms, header.printk, header.cmdlines)
}

fn show_by(alloc: Global, words: &ReportWords<'_>, layout: &Layout) -> Result<Show, AllocError>
    ensures { IfOk result (λ show. show ≡ show_of (report_view words.now) layout.now) }
{
    Ok(Show {
        order: layout.order,
        long: layout.commit_size,
        line: words.line,
        raw_events: texts_of(alloc, &words.raw_events)?,
    })
}

fn texts_of(alloc: Global, words: &[&str]) -> Result<ListOf<ByteText>, AllocError>
    ensures { IfOk result (λ texts. texts ≡ map (λ word. word.now) words.now) }
{
    let mut texts = Vec::with_capacity(alloc, words.len())?;
    for word in words {
        texts.push(ByteText::copy(alloc, word.as_bytes())?)?;
    }
    Ok(ListOf::from_vec(texts))
}
