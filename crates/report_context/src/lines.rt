// The lines of a report: the first one, and one for each item that is shown.

ghost use Rattle.std.specs.Prelude.{◌≡◌, length, IfOk};
ghost use Rattle.trace_outside.specs.Pending.{PutsText, on_way};
ghost use Rattle.report_context.specs.Lines.{cpus_line, item_line};

use itoa::Buffer;
use line_holes::{Hole, LineFormat};
use report_print::{Context, line};
use std::alloc::{AllocError, Global};
use subpage::Item;
use trace_base::Tail;
use trace_outside::{Failed, Pending, Sink};

/// How many bytes of lines a processor keeps. The longest line has 65,537 with its newline.
pub const LINES_ROOM: u32 = 73_728;

/// Room for the longest line.
pub fn line_buffer(alloc: Global) -> Result<Vec<u8>, AllocError>
    ensures { IfOk result (λ buffer. length buffer.items ≡ 65537) }
{
    vec![in alloc; 0; 65_537]
}

/// Puts the first line of a report.
pub fn put_cpus<O: Sink>(pending: &mut Pending, out: &mut O, cpus: u32) -> Result<(), Failed>
    ensures { PutsText (cpus_line cpus) (on_way O.written O.name O.faults out.old pending.old) (on_way O.written O.name O.faults out.new pending.new) result }
{
    let mut digits = Buffer::new();
    pending.put_parts(out, &[b"cpus=", digits.format(cpus).as_bytes(), b"\n"])
}

/// The lines of items, by what a report stands on.
#[derive(Drop)]
pub struct ItemLines {
    pub context: Context,
}

impl LineFormat for ItemLines {
    ghost text = { λ lines cpu item. item_line lines.context cpu item };

    #[inline(always)]
    fn line(&self, cpu: u32, item: &Item<'_>, into: &mut Tail<'_>) -> (u32, Option<Hole>) {
        line(&self.context, cpu, item, into)
    }
}
