// Tables of event formats.

use format_parse::FormatTable;
use std::alloc::{AllocError, Global};
use trace_base::ByteText;

/// Texts of formats, with a `#` before all but the first.
fn push_texts(alloc: Global, texts: &mut Vec<ByteText>, formats: &str) -> Result<(), AllocError> {
    for text in formats.split('#') {
        texts.push(ByteText::copy(alloc, text.as_bytes())?)?;
    }
    Ok(())
}

/// The table with the formats of these texts after its own.
pub(crate) fn with_texts(
    alloc: Global,
    table: FormatTable,
    system: &[u8],
    formats: &str,
) -> Result<FormatTable, AllocError> {
    let mut texts = Vec::new(alloc);
    push_texts(alloc, &mut texts, formats)?;
    table.with_texts(alloc, system, &texts)
}

fn put_many(formats: &mut String) -> Result<(), AllocError> {
    for id in 0..3_000_u32 {
        write!(formats, "name: e{id}\nID: {id}\nprint fmt: \"a text\"\n#")?;
    }
    Ok(())
}

/// Three thousand formats, numbered from 0.
pub(crate) fn many(alloc: Global) -> Result<FormatTable, AllocError> {
    let mut formats = String::new(alloc);
    put_many(&mut formats)?;
    with_texts(alloc, FormatTable::new(alloc), b"many", &formats)
}
