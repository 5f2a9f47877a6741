ghost use Rattle.std.specs.Prelude.{IfOk};
ghost use Rattle.dat_header.specs.Allowed.{IsHeader};
ghost use Rattle.split_tool.specs.Work.{IsWorkFor};

use crate::front::data_place;
use dat_header::{Header, text_before_table};
use std::alloc::{AllocError, Global};
use trace_base::{ByteText, Part};

/// What a split is lent: a table and one sub-buffer; and what all new files have alike, the text of the header in front of its
/// table and the place of the first sub-buffer.
#[derive(Drop)]
pub struct SplitWork {
    pub(crate) table: Vec<Part>,
    pub(crate) page: Vec<u8>,
    pub(crate) before: ByteText,
    pub(crate) at: u64,
}

impl SplitWork {
    /// For a file with this header. No call takes memory afterwards.
    pub fn new(alloc: Global, header: &Header) -> Result<SplitWork, AllocError>
        requires { IsHeader header.now }
        ensures { IfOk result (λ work. IsWorkFor header.now work) }
    {
        Ok(SplitWork {
            table: vec![in alloc; Part { offset: 0, size: 0 }; header.cpus as usize]?,
            page: vec![in alloc; 0; header.layout.page as usize]?,
            before: text_before_table(alloc, header)?,
            at: data_place(header),
        })
    }
}
