// Event formats, and tables of them.

use format_parse::{EventFormat, FormatTable, parse_format};
use std::alloc::{AllocError, Global};
use std::process::Abort;
use std::test::Fail;
use trace_base::{ByteText, Field};

// The declaration of a field and its size, and the kind, the place and the size of an element; a line with no bar declares none.
const FIELDS: &str = "unsigned short common_type;2|Number Fixed 1
u64 a;8|Number Fixed 1
a;1|Number Fixed 1
int a;4|Number Fixed 1
int a;0|Bytes Fixed 1
int a;3|Bytes Fixed 1
u128 a;16|Bytes Fixed 1
void * a;8|Pointer Fixed 1
const char *a;4|Pointer Fixed 1
void * a;2|Number Fixed 1
void * a;16|Bytes Fixed 1
char comm[16];16|Text Fixed 1
const char a[8];8|Text Fixed 1
char a[TASK_COMM_LEN];16|Text Fixed 1
char a[];0|Text Fixed 1
unsigned char a[8];8|Bytes Fixed 1
unsigned long args[6];48|Bytes Fixed 8
char * a[2];8|Bytes Fixed 4
u32 a[3];16|Bytes Fixed 1
u8 a[][4];16|Bytes Fixed 1
int a[b[3];12|Bytes Fixed 4
__data_loc char[] name;4|Text DataLoc 1
__data_loc u8[] a;4|Bytes DataLoc 1
__data_loc char[] a;8|Text DataLoc 1
__data_loc char a[2];4|Bytes DataLoc 2
__rel_loc char[] name;4|Text RelLoc 1
__rel_loc int[] a;2|Bytes RelLoc 1
int a [4];16|
int a;|";

// Texts, and the name, the number, the count of fields and the print fmt that they spell.
const TEXTS: &str = "name: a
ID: 1
print fmt: \"x\", REC->y
|a 1 0 \"x\", REC->y
~ID: 1
name: a|a 1 0~print fmt: 1
name: a
ID: 0|a 0 0 1
name: a
ID: 0~name: a
name: 1
ID: 4294967295
ID: x|a 4294967295 0~name: a
ID: 1
field:int b;offset:0;size:4;
no line
field:int b;offset:4;size:4;
print fmt:
field:int c;offset:8;size:4;|a 1 2
field:int c;offset:8;size:4;~name: a
ID: 1
 print fmt: \"\"
field:int b;offset:0;size:4;|a 1 1~name: a
ID: 1
print fmt: 1
field:int a;offset:8;size:4;|a 1 0 1
field:int a;offset:8;size:4;~name: a
ID: 1
field:int a;offset:8;size:4;signed:0;\r|a 1 0~name: a b
name: a
ID: 1|~name: a\r
ID: 1|~name: \nID: 1|~name:a
ID: 1|~name: a
ID: 4294967296|~name: a
ID: -1
ID: 1|~name: a
 ID: 1|~|";

/// The kind, the place and the size of an element of the first field, if any.
fn put_shape(text: &mut String, field: Option<&Field>) -> Result<(), AllocError> {
    match field {
        Some(field) => write!(text, "{:?} {:?} {}", field.kind, field.place, field.element),
        None => Ok(()),
    }
}

fn put_shape_of(alloc: Global, text: &mut String, format: &[u8]) -> Result<(), AllocError> {
    match parse_format(alloc, b"system", format)? {
        Some(format) => put_shape(text, format.fields.as_slice().first()),
        None => Ok(()),
    }
}

/// A format with the declaration in front of the mark, of the size after it.
fn put_format(text: &mut String, declared: &str) -> Result<(), AllocError> {
    let (declaration, size) = declared.split_once(';').unwrap_or((declared, ""));
    write!(
        text,
        "name: e\nID: 7\n\tfield:{declaration};\toffset:8;\tsize:{size};\tsigned:0;"
    )
}

fn is_shape(rt: &impl Abort, alloc: Global, row: &str) -> Result<(), AllocError> {
    let (declared, shape) = row.split_once('|').unwrap_or((row, ""));
    let mut format = String::new(alloc);
    put_format(&mut format, declared)?;
    let mut text = String::new(alloc);
    put_shape_of(alloc, &mut text, format.as_bytes())?;
    assert!(rt; text.as_str() == shape, "{row}");
    Ok(())
}

#[test]
fn a_field_is_of_a_kind_by_its_declaration_and_size(rt: HostRuntime) -> Result<(), Fail> {
    for row in FIELDS.lines() {
        is_shape(&rt, rt.alloc(), row)?;
    }
    Ok(())
}

/// The number and the count of fields of a format.
fn put_numbers(alloc: Global, told: &mut Vec<u8>, format: &EventFormat) -> Result<(), AllocError> {
    let count = format.fields.as_slice().len();
    let numbers = format!(in alloc; " {} {count}", format.id)?;
    told.extend_from_slice(numbers.as_bytes())
}

/// The name, the number and the count of fields of a format, and its print fmt after them.
fn put_told(alloc: Global, told: &mut Vec<u8>, format: &EventFormat) -> Result<(), AllocError> {
    told.extend_from_slice(format.name.as_bytes())?;
    put_numbers(alloc, told, format)?;
    told.extend_from_slice(format.print.as_bytes())
}

fn put_told_of(alloc: Global, told: &mut Vec<u8>, text: &str) -> Result<(), AllocError> {
    match parse_format(alloc, b"system", text.as_bytes())? {
        Some(format) => put_told(alloc, told, &format),
        None => Ok(()),
    }
}

fn is_told(rt: &impl Abort, alloc: Global, row: &str) -> Result<(), AllocError> {
    let (text, expected) = row.split_once('|').unwrap_or((row, ""));
    let mut told = Vec::new(alloc);
    put_told_of(alloc, &mut told, text)?;
    assert!(rt; told.as_slice() == expected.as_bytes(), "{row}");
    Ok(())
}

#[test]
fn a_format_text_needs_a_name_and_a_number(rt: HostRuntime) -> Result<(), Fail> {
    for row in TEXTS.split('~') {
        is_told(&rt, rt.alloc(), row)?;
    }
    Ok(())
}

/// Texts of formats, with a `#` before all but the first.
fn push_texts(alloc: Global, texts: &mut Vec<ByteText>, formats: &str) -> Result<(), AllocError> {
    for text in formats.split('#') {
        texts.push(ByteText::copy(alloc, text.as_bytes())?)?;
    }
    Ok(())
}

/// The table with the formats of these texts after its own.
fn with_texts(
    alloc: Global,
    table: FormatTable,
    system: &[u8],
    formats: &str,
) -> Result<FormatTable, AllocError> {
    let mut texts = Vec::new(alloc);
    push_texts(alloc, &mut texts, formats)?;
    table.with_texts(alloc, system, &texts)
}

/// The system, the name and the number of a format, on a line.
fn put_line(alloc: Global, list: &mut Vec<u8>, format: &EventFormat) -> Result<(), AllocError> {
    list.extend_from_slice(format.system.as_bytes())?;
    list.push(b'/')?;
    list.extend_from_slice(format.name.as_bytes())?;
    list.extend_from_slice(format!(in alloc; " {}\n", format.id)?.as_bytes())
}

fn put_listed(alloc: Global, list: &mut Vec<u8>, table: &FormatTable) -> Result<(), AllocError> {
    for i in 0..table.len() {
        if let Some(format) = table.get(i) {
            put_line(alloc, list, format)?;
        }
    }
    Ok(())
}

const FTRACE: &str = "name: function\nID: 1";

const SCHED: &str = "name: a\nID: 9#unread#name: b\nID: 1#name: a\nID: 2";

const LISTED: &[u8] = b"ftrace/function 1\nsched/a 9\nsched/a 2\nlate/c 3\n";

/// Whether a format was added to a table.
fn adds(alloc: Global, table: &mut FormatTable, text: &[u8]) -> Result<bool, AllocError> {
    match parse_format(alloc, b"late", text)? {
        Some(format) => table.add(format),
        None => Ok(false),
    }
}

fn is_listed(rt: &impl Abort, alloc: Global, table: &FormatTable) -> Result<(), AllocError> {
    let mut list = Vec::new(alloc);
    put_listed(alloc, &mut list, table)?;
    assert!(rt; list.as_slice() == LISTED && table.get(4).is_none());
    Ok(())
}

/// The places of numbers and of names in the table.
fn has_places(table: &FormatTable) -> bool {
    let numbers = [
        table.by_id(1),
        table.by_id(9),
        table.by_id(3),
        table.by_id(4),
    ];
    let names = [
        table.by_name(b"a"),
        table.by_name(b"b"),
        table.by_name(b"c"),
    ];
    numbers == [Some(0), Some(1), Some(3), None] && names == [Some(1), None, Some(3)]
}

#[test]
fn a_table_keeps_the_first_format_of_a_number(rt: HostRuntime) -> Result<(), Fail> {
    let table = with_texts(rt.alloc(), FormatTable::new(rt.alloc()), b"ftrace", FTRACE)?;
    let mut table = with_texts(rt.alloc(), table, b"sched", SCHED)?;
    let second = adds(rt.alloc(), &mut table, b"name: c\nID: 2")?;
    let third = adds(rt.alloc(), &mut table, b"name: c\nID: 3")?;
    assert!(rt; !second && third && has_places(&table));
    is_listed(&rt, rt.alloc(), &table)?;
    Ok(())
}

fn push_many(alloc: Global, texts: &mut Vec<ByteText>) -> Result<(), AllocError> {
    for id in 0..3_000_u32 {
        let text = format!(in alloc; "name: e{id}\nID: {id}\nprint fmt: \"a text\"\n")?;
        texts.push(ByteText::copy(alloc, text.as_bytes())?)?;
    }
    Ok(())
}

/// Three thousand formats, numbered from 0.
fn many(alloc: Global) -> Result<FormatTable, AllocError> {
    let mut texts = Vec::new(alloc);
    push_many(alloc, &mut texts)?;
    FormatTable::new(alloc).with_texts(alloc, b"many", &texts)
}

/// A format text with so many fields.
fn put_wide(text: &mut String, count: u32) -> Result<(), AllocError> {
    text.push_str("name: wide\nID: 9000\n")?;
    for i in 0..count {
        write!(text, "field:int a{i};offset:{i};size:4;signed:0;\n")?;
    }
    Ok(())
}

/// Whether the format has a long text, and so many fields, the last of which stands at its number.
fn is_wide(format: Option<&EventFormat>, count: u32) -> bool {
    match format {
        Some(format) => {
            let fields = format.fields.as_slice();
            format.text.as_bytes().len() > 100_000
                && fields.len() == count as usize
                && fields.last().map(|field| field.offset) == Some(count.saturating_sub(1))
        }
        None => false,
    }
}

#[test]
fn many_formats_are_read(rt: HostRuntime) -> Result<(), Fail> {
    let table = many(rt.alloc())?;
    assert!(rt;
        table.len() == 3_000
            && table.by_id(2_999) == Some(2_999)
            && table.by_name(b"e1025") == Some(1_025)
    );
    Ok(())
}

#[test]
fn many_fields_are_read(rt: HostRuntime) -> Result<(), Fail> {
    let mut text = String::new(rt.alloc());
    put_wide(&mut text, 3_000)?;
    let format = parse_format(rt.alloc(), b"s", text.as_bytes())?;
    assert!(rt; is_wide(format.as_ref(), 3_000));
    Ok(())
}
