// Formats of the scheduler's events with numbers of several lengths, and one of the same name in another system.

use format_parse::FormatTable;
use std::alloc::{AllocError, Global};
use trace_base::ByteText;

/// A format of one field: each bar is a part of a row below, and what else a row has follows it.
const FORMAT: &str = "name: |\nID: |\n\tfield:| |;\toffset:8;\tsize:|;\tsigned:1;\n|";

/// Wake-ups are 10, 12 (of new tasks), 20 to 23, and switches 11, 30 and 33; 22 has a number of 3 bytes, 23 and 33 have
/// none; 14 is another event.
const SCHED: &[&str] = &[
    "sched_wakeup|10|pid_t|pid|4|\nprint fmt: \"pid=%d\", REC->pid\n",
    "sched_switch|11|pid_t|next_pid|4|\nprint fmt: \"next=%d\", REC->next_pid\n",
    "sched_wakeup_new|12|pid_t|pid|4",
    "sched_waking|14|pid_t|pid|4",
    "sched_wakeup|20|long|pid|8",
    "sched_wakeup|21|short|pid|2",
    "sched_wakeup|22|odd|pid|3|\tfield:pid_t pid;\toffset:8;\tsize:4;\tsigned:1;\n",
    "sched_wakeup|23|pid_t|prio|4",
    "sched_switch|30|long|next_pid|8",
    "sched_switch|33|pid_t|prev_pid|4",
];

/// An event of another system.
const OTHER: &[&str] = &["sched_wakeup|13|pid_t|pid|4"];

fn text_of(alloc: Global, row: &str) -> Result<ByteText, AllocError> {
    let mut text = Vec::new(alloc);
    let mut parts = row.split('|');
    for piece in FORMAT.split('|') {
        text.extend_from_slice(piece.as_bytes())?;
        text.extend_from_slice(parts.next().unwrap_or("").as_bytes())?;
    }
    Ok(ByteText::from_vec(text))
}

fn texts(alloc: Global, rows: &[&str]) -> Result<Vec<ByteText>, AllocError> {
    let mut texts = Vec::new(alloc);
    for row in rows {
        texts.push(text_of(alloc, row)?)?;
    }
    Ok(texts)
}

/// The formats of both systems.
pub(super) fn formats(alloc: Global) -> Result<FormatTable, AllocError> {
    FormatTable::new(alloc)
        .with_texts(alloc, b"other", &texts(alloc, OTHER)?)?
        .with_texts(alloc, b"sched", &texts(alloc, SCHED)?)
}
