// What lines are printed with.

use format_parse::FormatTable;
use line_options::LineOptions;
use report_print::{Context, Show};
use std::alloc::{AllocError, Global};
use symbols::Symbols;
use trace_base::{ByteText, ListOf, Order};

/// A context with these formats and symbols, and the task `sh` of pid 7. With `all` the columns of latencies and all digits of
/// times are shown.
pub(crate) fn context_of(
    alloc: Global,
    formats: FormatTable,
    kallsyms: &[u8],
    all: bool,
) -> Result<Context, AllocError> {
    let symbols = Symbols::read(
        alloc,
        ByteText::copy(alloc, kallsyms)?,
        ByteText::copy(alloc, b"")?,
        ByteText::copy(alloc, b"7 sh\n")?,
    )?;
    let show = Show {
        order: Order::Little,
        long: 8,
        line: LineOptions {
            full: all,
            diff: false,
            latency: all,
            raw: false,
            no_hard: false,
            no_soft: false,
        },
        raw_events: ListOf::from_vec(Vec::new(alloc)),
    };
    Context::build(alloc, formats, symbols, Vec::new(alloc), show)
}
