// Texts, and the filters that they are or the places where they are refused.

use crate::filters::texts::{add, put_mark, put_often};
use filter_lang::{EventName, Filter, FilterExpr, FilterFault, FilterPrefix, parse_filter};
use std::alloc::{AllocError, Global};
use std::process::Abort;
use std::test::Fail;

fn prefix_mark(op: FilterPrefix) -> &'static [u8] {
    match op {
        FilterPrefix::Not => b"!",
        FilterPrefix::Minus => b"-",
        FilterPrefix::Invert => b"~",
    }
}

/// Appends a condition.
fn put_condition(out: &mut Vec<u8>, expr: &FilterExpr) {
    match expr {
        FilterExpr::Number(n) => add(out, itoa::Buffer::new().format(*n).as_bytes()),
        FilterExpr::Text(bytes) => {
            add(out, b"\"");
            add(out, bytes.as_bytes());
            add(out, b"\"");
        }
        FilterExpr::Field(name) => add(out, name.as_bytes()),
        FilterExpr::Prefix { op, of } => {
            add(out, b"(");
            add(out, prefix_mark(*op));
            add(out, b" ");
            put_condition(out, of);
            add(out, b")");
        }
        FilterExpr::Chain { first, rest } => {
            add(out, b"[");
            put_condition(out, first);
            for operand in rest {
                put_mark(out, operand.op);
                put_condition(out, &operand.value);
            }
            add(out, b"]");
        }
    }
}

fn put_events(out: &mut Vec<u8>, events: &[EventName]) {
    for (i, event) in events.iter().enumerate() {
        if i > 0 {
            add(out, b",");
        }
        add(out, event.first.as_bytes());
        if let Some(second) = &event.second {
            add(out, b"/");
            add(out, second.as_bytes());
        }
    }
}

fn written(alloc: Global, filter: &Filter) -> Vec<u8> {
    let mut out = Vec::new(alloc);
    put_events(&mut out, filter.events.as_slice());
    if let Some(cond) = &filter.cond {
        add(&mut out, b":");
        put_condition(&mut out, cond);
    }
    out
}

/// How a filter's text is written below, or the place where it is refused.
fn reading(alloc: Global, text: &[u8]) -> Result<Vec<u8>, AllocError> {
    match parse_filter(alloc, text) {
        Ok(filter) => Ok(written(alloc, &filter)),
        Err(FilterFault::At(place)) => itoa::Buffer::new().format(place).as_bytes().to_vec(alloc),
        Err(FilterFault::Memory) => Err(AllocError),
    }
}

fn is_read(
    rt: &impl Abort,
    alloc: Global,
    text: &[u8],
    expected: &[u8],
    row: &str,
) -> Result<(), AllocError> {
    let found = reading(alloc, text)?;
    assert!(rt; found.as_slice() == expected, "{row}");
    Ok(())
}

fn row_is_read(rt: &impl Abort, alloc: Global, row: &str) -> Result<(), AllocError> {
    let (text, expected) = row.split_once(" => ").unwrap_or((row, "no row"));
    is_read(rt, alloc, text.as_bytes(), expected.as_bytes(), row)
}

fn all_are_read(rt: &impl Abort, alloc: Global, rows: &str) -> Result<(), AllocError> {
    for row in rows.lines() {
        if !row.starts_with("# ") {
            row_is_read(rt, alloc, row)?;
        }
    }
    Ok(())
}

#[test]
fn texts_are_these_filters_or_refused_at_these_places(rt: HostRuntime) -> Result<(), Fail> {
    all_are_read(&rt, rt.alloc(), TREES)?;
    all_are_read(&rt, rt.alloc(), REFUSALS)?;
    Ok(())
}

/// Texts with blanks of each kind, and how they are read.
const BLANKS: [(&[u8], &[u8]); 6] = [
    (b"\ta\t", b"a"),
    (b"sched:\nCPU == 0", b"sched:[CPU == 0]"),
    (b"\r\nsched\r\n:\r\nx\r\n", b"sched:x"),
    (b"a:x\n", b"a:x"),
    (b"a\nb", b"2"),
    (b"a\rb", b"2"),
];

#[test]
fn blanks_are_those_of_every_format(rt: HostRuntime) -> Result<(), Fail> {
    for (text, expected) in &BLANKS {
        is_read(&rt, rt.alloc(), text, expected, "a blank")?;
    }
    Ok(())
}

/// An opener so many times, after `a:`, then `x` and so many brackets that close; and where that is refused, if it is.
const NESTED: &[(&str, u32, u32, Option<u64>)] = &[
    ("(", 64, 64, None),
    ("(", 64, 63, Some(130)),
    ("(", 64, 65, Some(131)),
    ("(", 65, 65, Some(66)),
    ("!", 64, 0, None),
    ("-", 65, 0, Some(66)),
    ("~", 3000, 0, Some(66)),
];

fn put_nested(text: &mut Vec<u8>, open: &str, opens: u32, closes: u32) -> Result<(), AllocError> {
    text.extend_from_slice(b"a:")?;
    put_often(text, open, opens)?;
    text.push(b'x')?;
    put_often(text, ")", closes)
}

fn refusal(alloc: Global, text: &[u8]) -> Result<Option<u64>, AllocError> {
    match parse_filter(alloc, text) {
        Ok(_) => Ok(None),
        Err(FilterFault::At(place)) => Ok(Some(place)),
        Err(FilterFault::Memory) => Err(AllocError),
    }
}

fn is_nested(
    rt: &impl Abort,
    alloc: Global,
    (open, opens, closes, expected): (&str, u32, u32, Option<u64>),
) -> Result<(), AllocError> {
    let mut text = Vec::new(alloc);
    put_nested(&mut text, open, opens, closes)?;
    assert!(rt; refusal(alloc, &text)? == expected, "{opens} {open}");
    Ok(())
}

#[test]
fn the_65th_opener_is_refused(rt: HostRuntime) -> Result<(), Fail> {
    for row in NESTED {
        is_nested(&rt, rt.alloc(), *row)?;
    }
    Ok(())
}

// Filters, and how they are read: each level of operators stands in `[]`, and an operator with what it stands before in
// `()`. Numbers are decimal and texts stand between `"`.
static TREES: &str = r#"# Names of events: all bytes that are no blank, `,`, `/` or `:`.
sched => sched
sched/sched_switch => sched/sched_switch
a,b => a,b
 a , b / c  => a,b/c
a==b => a==b
(x) => (x)
a"b'c => a"b'c
é => é
a/b:x => a/b:x
a,b/c,d:x => a,b/c,d:x
# Numbers and texts.
a:1 => a:1
a:0 => a:0
a:007 => a:7
a:0x1f => a:31
a:0xFF => a:255
a:18446744073709551615 => a:18446744073709551615
a:0xffffffffffffffff => a:18446744073709551615
a:01777777777777777777777 => a:18446744073709551615
a:"x" => a:"x"
a:'' => a:""
a:'x"y' => a:"x"y"
a:"\" => a:"\"
a:"b,c:d/e" => a:"b,c:d/e"
a:_x1 => a:_x1
# Each operator, between blanks or none.
a : pid == 1 => a:[pid == 1]
a:x!=y => a:[x != y]
a:x<y => a:[x < y]
a:x<=y => a:[x <= y]
a:x>y => a:[x > y]
a:x>=y => a:[x >= y]
a:x>>y => a:[x >> y]
a:x+y => a:[x + y]
a:x&~y => a:[x & (~ y)]
a:!x => a:(! x)
a:!!x => a:(! (! x))
a:x--y => a:[x - (- y)]
a:x<-1 => a:[x < (- 1)]
a:x<!y => a:[x < (! y)]
a:!x==y => a:[(! x) == y]
# From the left at one level.
a:x + y - z => a:[x + y - z]
a:x%y/z*2 => a:[x % y / z * 2]
a:x==y!=z => a:[x == y != z]
a:x<y<=z => a:[x < y <= z]
a:x||y||z => a:[x || y || z]
# Each level binds looser than the one before it.
a:x*y+z => a:[[x * y] + z]
a:x+y*z => a:[x + [y * z]]
a:x<<1+2 => a:[x << [1 + 2]]
a:x<y<<1 => a:[x < [y << 1]]
a:x==y<z => a:[x == [y < z]]
a:x&y==z => a:[x & [y == z]]
a:x^y&z => a:[x ^ [y & z]]
a:x|y^z => a:[x | [y ^ z]]
a:x&&y|z => a:[x && [y | z]]
a:x||y&&z => a:[x || [y && z]]
a:x&&y||z => a:[[x && y] || z]
# Brackets.
a:((x)) => a:x
a:(x||y)&&z => a:[[x || y] && z]
a:x-(y-z) => a:[x - [y - z]]
a:-(x+y) => a:(- [x + y])
sched_switch : prev_prio < 100 && COMM != "bash" => sched_switch:[[prev_prio < 100] && [COMM != "bash"]]"#;

// Texts that are no filters, and the places where they are refused.
static REFUSALS: &str = r#"# The names of events.
 => 0
  => 1
, => 0
a, => 2
a,  => 3
a,,b => 2
a b => 2
a==b c => 5
a/ => 2
/a => 0
a/b/c => 3
a/,b => 2
:x => 0
a,:x => 2
a/:x => 2
# More is wanted.
a: => 2
sched : => 7
a :  => 4
a:( => 3
a:(x => 4
a:x== => 5
a:x+ => 4
a:! => 3
a:x/ => 4
# A token that cannot stand there.
a:x:y => 3
a:x y => 4
a:x 1 => 4
a:1 x => 4
a:"x" "y" => 6
a:x) => 3
a:() => 3
a:(x)) => 5
a:(x y) => 5
a:x(y) => 3
a:==1 => 2
a:*x => 2
a:x+*y => 4
a:x*/y => 4
a:x! => 3
a:x!y => 3
a:x~y => 3
a:x&&&y => 5
a:x<<<y => 5
a:x!!=y => 3
# A byte at which no token begins.
a:x=1 => 3
a:x===1 => 5
a:x=~"y" => 3
a:x,y => 3
a:x.y => 3
a:x?y:z => 3
a:$x => 2
a:é => 2
# Numbers and texts, from their first bytes.
a:08 => 2
a:1a => 2
a:0x => 2
a:0X1 => 2
a:1u => 2
a:18446744073709551616 => 2
a:0x10000000000000000 => 2
a:02000000000000000000000 => 2
a:"x => 2
a:x=='y" => 5
# The first fault from the left, whatever its kind.
a:x y "z => 4
a:x = y z => 4
a b :" => 2"#;
