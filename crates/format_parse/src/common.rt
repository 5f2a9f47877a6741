// The fields that the records of all events have.

ghost use Rattle.std.specs.Prelude.{◌≡◌, ◌<◌, ◌++◌, length, IfSome, IfOk, OnOk};
ghost use Rattle.format_parse.specs.CommonFields.{common_lines, common_fields, number};

use crate::words::after_front;
use std::alloc::{AllocError, Global};
use trace_base::{ByteText, Field, FieldKind, FieldPlace};

/// What follows the lines that declare them, where the text begins with these.
pub(crate) fn after_common(text: &[u8]) -> Option<&[u8]>
    ensures { IfSome result (λ rest. text.now ≡ common_lines ++ rest.now) }
{
    after_front(
        b"\tfield:unsigned short common_type;\toffset:0;\tsize:2;\tsigned:0;\n\
          \tfield:unsigned char common_flags;\toffset:2;\tsize:1;\tsigned:0;\n\
          \tfield:unsigned char common_preempt_count;\toffset:3;\tsize:1;\tsigned:0;\n\
          \tfield:int common_pid;\toffset:4;\tsize:4;\tsigned:1;\n",
        text,
    )
}

/// Appends these fields to the others.
pub(crate) fn put_common(alloc: Global, fields: &mut Vec<Field>) -> Result<(), AllocError>
    ensures { OnOk result (fields.new.items ≡ fields.old.items ++ common_fields) }
{
    fields.push(number(alloc, b"common_type", 0, 2, false)?)?;
    fields.push(number(alloc, b"common_flags", 2, 1, false)?)?;
    fields.push(number(alloc, b"common_preempt_count", 3, 1, false)?)?;
    fields.push(number(alloc, b"common_pid", 4, 4, true)?)?;
    Ok(())
}

fn number(
    alloc: Global,
    name: &[u8],
    offset: u32,
    size: u32,
    signed: bool,
) -> Result<Field, AllocError>
    ensures { IfOk result (λ field. field ≡ number name.now offset size signed) }
{
    Ok(Field {
        name: ByteText::copy(alloc, name)?,
        offset,
        size,
        signed,
        kind: FieldKind::Number,
        place: FieldPlace::Fixed,
        element: 1,
    })
}
