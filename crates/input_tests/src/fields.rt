// Fields that lie outside of their event, on one another, or have sizes that no number has.

use super::runs::{file_of, prints};
use std::alloc::{Alloc, AllocError, Global};
use std::process::Abort;
use std::test::Fail;
use std::thread::Threads;

/// An event of id 7 and pid 1 at a microsecond, with a payload of 24 bytes: after its first eight ABCD, a word of an offset
/// and a length of 65,535, one of offset 22 and that length, and wxyz.
const EVENT: &[u8] =
    b"\xe8\x03\0\0\0\0\0\0\x1c\0\0\0\0\0\0\0\x06\0\0\0\x07\0\0\0\x01\0\0\0ABCD\xff\xff\xff\xff\x16\0\xff\xffwxyz";

/// The fields of a row, each a declaration, an offset and a size, and its print fmt, after them the text.
const ROWS: &str = r#"int a;4000;4 | "%d", REC->a | 0
int a;22;4 | "%d", REC->a | 0
int a;4294967292;4 | "%d", REC->a | 0
int a;4294967295;4294967295 | "%d", REC->a | 0
int a;20;4 | "%x", REC->a | 7a797877
u8 a;8;1,u32 b;8;4,u16 c;9;2 | "%d %x %x", REC->a, REC->b, REC->c | 65 44434241 4342
u32 a;8;4,u32 a;20;4 | "%x", REC->a | 44434241
int a;8;0 | "%d", REC->a | 0
char t[];20;0 | "%s", REC->t | wxyz
char t[4];22;4 | "%s", REC->t | yz
char t[4];4000;4 | "<%s>", REC->t | <>
int a;8;3 | "%d %s", REC->a, REC->a | 0 ABC
int a;8;2147483648 | "%d", REC->a | 0
char t[2147483648];20;2147483648 | "%s", REC->t | wxyz
char t[4294967295];20;4294967295 | "%s", REC->t | wxyz
u8 b[4];8;4 | "%s", __print_hex(REC->b, 4) | 41 42 43 44
u8 b[4];8;4 | "<%s>", __print_hex(REC->b, -1) | <>
u8 b[4];8;4 | "%s", __print_hex(REC->b, 2147483647) | 41 42 43 44
u8 b[4];8;4 | "%s", __print_array(REC->b, 9, 1) | {0x41,0x42,0x43,0x44}
u8 b[4];8;4 | "%s", __print_array(REC->b, -1, 1) | {}
u8 b[4];8;4 | "%s", __print_array(REC->b, 4, 0) | {}
u8 b[4];8;4 | "%s", __print_array(REC->b, 4, -1) | {}
u8 b[4];8;4 | "%s", __print_array(REC->b, 4, 3) | {}
u8 b[4];8;4 | "%s", __print_array(REC->b, 4, 8) | {}
u8 b[4];8;4 | "%d %d %d", REC->b[3], REC->b[4], REC->b[-1] | 68 0 0
u8 b[4];8;4 | "%d", REC->b[18446744073709551615u] | 0
u8 b[4];22;4 | "%d %d", REC->b[1], REC->b[2] | 122 0
__data_loc char[] d;12;4 | "<%s> %d", __get_str(d), __get_dynamic_array_len(d) | <> 65535
__data_loc char[] d;16;4 | "<%s> %d", __get_str(d), __get_dynamic_array_len(d) | <yz> 65535
__data_loc u8[] d;16;4 | "%s", __print_hex(__get_dynamic_array(d), 99) | 79 7a
__data_loc char[] d;22;4 | "<%s> %d", __get_str(d), __get_dynamic_array_len(d) | <> 0
__data_loc char[] d;4294967295;4 | "<%s>", __get_str(d) | <>
__rel_loc char[] d;16;4 | "<%s>", __get_rel_str(d) | <>
__rel_loc char[] d;12;4 | "<%s>", __get_rel_str(d) | <>"#;

fn put_field(text: &mut String, field: &str) -> Result<(), AllocError> {
    let (name, rest) = field.split_once(';').unwrap_or(("", ""));
    let (offset, size) = rest.split_once(';').unwrap_or(("", ""));
    write!(
        text,
        "\tfield:{name};\toffset:{offset};\tsize:{size};\tsigned:0;\n"
    )
}

fn put_format(text: &mut String, fields: &str, print: &str) -> Result<(), AllocError> {
    text.push_str("name: odd\nID: 7\nformat:\n")?;
    for field in fields.split(',') {
        put_field(text, field)?;
    }
    write!(text, "\nprint fmt: {print}\n")
}

// A file with an event whose format has these fields and this print fmt.
fn file_with(alloc: Global, fields: &str, print: &str) -> Result<Vec<u8>, AllocError> {
    let mut format = String::new(alloc);
    put_format(&mut format, fields, print)?;
    file_of(alloc, format.as_bytes(), EVENT)
}

fn row_is_answered<R: Alloc<A = Global> + Abort + Threads + Sync>(
    rt: &R,
    row: &str,
) -> Result<(), AllocError> {
    let (fields, rest) = row.split_once(" | ").unwrap_or(("", ""));
    let (print, text) = rest.split_once(" | ").unwrap_or(("", ""));
    let file = file_with(rt.alloc(), fields, print)?;
    let out = format!(in rt.alloc();
        "cpus=1\n           <...>-1     [000]     0.000001: odd:                  {text}\n"
    )?;
    prints(rt, "report", &file, out.as_bytes())
}

#[test]
fn fields_that_are_not_there(rt: HostRuntime) -> Result<(), Fail> {
    for row in ROWS.lines() {
        row_is_answered(&rt, row)?;
    }
    Ok(())
}

/// Conditions of filters over the first field of a row, and whether the event is shown.
const FILTERS: &[(&str, &str, bool)] = &[
    ("int a;4000;4", "odd:a==0", true),
    ("int a;22;4", "odd:a==0", true),
    ("int a;8;3", "odd:a==0||a!=0", false),
    ("int a;8;0", "odd:!a", true),
    ("char t[4294967295];20;4294967295", "odd:t==\"wxyz\"", true),
    ("__data_loc char[] d;12;4", "odd:d==\"\"", true),
    ("__data_loc char[] d;16;4", "odd:d==\"yz\"", true),
];

/// What a filter that passes the event has printed.
const SHOWN: &str = "cpus=1\n           <...>-1     [000]     0.000001: odd:                  x\n";

fn is_filtered<R: Alloc<A = Global> + Abort + Threads + Sync>(
    rt: &R,
    fields: &str,
    filter: &str,
    out: &str,
) -> Result<(), AllocError> {
    let file = file_with(rt.alloc(), fields, "\"x\"")?;
    let line = format!(in rt.alloc(); "report -F {filter}")?;
    prints(rt, line.as_str(), &file, out.as_bytes())
}

#[test]
fn filters_over_fields_that_are_not_there(rt: HostRuntime) -> Result<(), Fail> {
    for (fields, filter, is_shown) in FILTERS {
        is_filtered(
            &rt,
            fields,
            filter,
            if *is_shown { SHOWN } else { "cpus=1\n" },
        )?;
    }
    Ok(())
}
