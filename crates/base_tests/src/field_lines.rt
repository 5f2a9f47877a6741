use std::process::Abort;
use trace_base::{FieldLine, read_field_line};

// The field of a row: its type, its name, the number in its brackets where it has some, its place, its size and its sign.
fn field_of(text: &str) -> Option<FieldLine<'_>> {
    let (kind_text, text) = text.split_once('|')?;
    let (name, text) = text.split_once('|')?;
    let (count, text) = text.split_once('|')?;
    let (offset, text) = text.split_once('|')?;
    let (size, sign) = text.split_once('|')?;
    Some(FieldLine {
        name: name.as_bytes(),
        kind_text: kind_text.as_bytes(),
        array: !count.is_empty(),
        count: number(count),
        offset: number(offset),
        size: number(size),
        signed: sign == "signed",
    })
}

fn number(text: &str) -> u32 {
    text.parse().unwrap_or(0)
}

fn is_read(rt: &impl Abort, row: &str) {
    let (line, expected) = row.split_once(" => ").unwrap_or((row, "no row|"));
    let is_read = read_field_line(line.as_bytes()) == field_of(expected);
    assert!(rt; is_read, "{line}");
}

#[test]
fn field_lines(rt: HostRuntime) {
    for row in LINES.lines() {
        is_read(&rt, row);
    }
}

// Each row is a line and what it declares. A type may be empty. The last bracket directly after an identifier counts, and the
// name stands directly before it, or at the end. A number is decimal digits, below 2^32. Nothing follows the last semicolon.
static LINES: &str = "\tfield: u64 timestamp;\toffset:0;\tsize:8;\tsigned:0; => u64|timestamp||0|8|
\tfield: local_t commit;\toffset:8;\tsize:8;\tsigned:1; => local_t|commit||8|8|signed
\tfield: int overwrite;\toffset:8;\tsize:1;\tsigned:1; => int|overwrite||8|1|signed
\tfield: char data;\toffset:16;\tsize:4080;\tsigned:1; => char|data||16|4080|signed
\tfield:unsigned short common_type;\toffset:0;\tsize:2;\tsigned:0; => unsigned short|common_type||0|2|
\tfield:char prev_comm[16];\toffset:8;\tsize:16;\tsigned:0; => char|prev_comm|16|8|16|
field:__data_loc char[] name;offset:8;size:4; => __data_loc char[]|name||8|4|
field:void *ptr;offset:8;size:8; => void *|ptr||8|8|
field:a;offset:0;size:0; => |a||0|0|
field:u8 a[][4];offset:0;size:4; => u8|a|0|0|4|
field:char a[b[3];offset:0;size:3; => char a[|b|3|0|3|
field:u8 a[3b[4];offset:0;size:4; => u8|a|0|0|4|
field:u8 a[];offset:0;size:4; => u8|a|0|0|4|
field:u8 a[MAX];offset:1;size:2; => u8|a|0|1|2|
field:u8 a[ 4];offset:1;size:2; => u8|a|0|1|2|
field:u8 a[4294967295];offset:0;size:1; => u8|a|4294967295|0|1|
field:u8 a[4294967296];offset:0;size:1; => u8|a|0|0|1|
field:u8 a[016];offset:0;size:16; => u8|a|16|0|16|
field:int a;offset:00000000000012;size:4294967295;signed:00; => int|a||12|4294967295|
field:int a;offset:0;size:4;signed:7; => int|a||0|4|signed
 \r\tfield:  unsigned  int\t a; \toffset:4;\rsize:4;  signed:1; => unsigned  int|a||4|4|signed
 => none
print fmt: \"%d\", REC->a => none
field:int a;offset:0;size:4 => none
field:int a;offset:0;size:4;  => none
field:int a;offset:0;size:4;\r => none
field:int a;offset:0;size:4;signed:1;\r => none
field:int a;offset:0;size:4;signed:1;signed:1; => none
field:int a;offset:0;size:4;sign:1; => none
field:int a ;offset:0;size:4; => none
field:int a [4];offset:0;size:4; => none
field:u8 3abc;offset:0;size:4; => none
field:u8 3abc[2];offset:0;size:4; => none
field:;offset:0;size:4; => none
field:[4];offset:0;size:4; => none
field:int a];offset:0;size:4; => none
field:int a;offset:4294967296;size:4; => none
field:int a;offset:;size:4; => none
field:int a;offset:+1;size:4; => none
field:int a;offset:0x1;size:4; => none
field:int a;offset: 1;size:4; => none
field:int a;size:4;offset:0; => none
field :int a;offset:0;size:4; => none
xfield:int a;offset:0;size:4; => none
";
