// What filters are at events, and what is shown.

use crate::filters::texts::put_often;
use filter_lang::{FilterFault, parse_filter};
use filter_truth::{Event, FilterUse, Filters, bind, holds};
use format_parse::{EventFormat, FormatTable};
use std::alloc::{AllocError, Global};
use std::process::Abort;
use std::test::Fail;
use trace_base::{ByteText, Field, FieldKind, FieldPlace, ListOf, Order, Rec};

/// A record with pid 1234, neg -5, big 2^64 - 1, ptr 0xfff0000000000000, byte 200, small -1 and name `bash`.
const PAYLOAD: [u8; 44] = [
    0, 0, 0, 0, 0, 0, 0, 0, 0xd2, 4, 0, 0, 0xfb, 0xff, 0xff, 0xff, 0xff, 0xff, 0xff, 0xff, 0xff,
    0xff, 0xff, 0xff, 0, 0, 0, 0, 0, 0, 0xf0, 0xff, 200, 0xff, 0, 0, b'b', b'a', b's', b'h', 0,
    b'x', 0, 0,
];

fn number(word: Option<&str>) -> u32 {
    word.unwrap_or("").parse::<u32>().unwrap_or(0)
}

fn kind_of(word: Option<&str>) -> FieldKind {
    match word.unwrap_or("") {
        "number" => FieldKind::Number,
        "pointer" => FieldKind::Pointer,
        "text" => FieldKind::Text,
        _ => FieldKind::Bytes,
    }
}

fn field(alloc: Global, row: &str) -> Result<Field, AllocError> {
    let mut words = row.split(' ');
    let name = words.next().unwrap_or("");
    let kind = kind_of(words.next());
    let offset = number(words.next());
    let size = number(words.next());
    Ok(Field {
        name: ByteText::copy(alloc, name.as_bytes())?,
        offset,
        size,
        signed: words.next() == Some("signed"),
        kind,
        place: FieldPlace::Fixed,
        element: 1,
    })
}

fn push_fields(alloc: Global, fields: &mut Vec<Field>, rows: &str) -> Result<(), AllocError> {
    for row in rows.lines() {
        fields.push(field(alloc, row)?)?;
    }
    Ok(())
}

/// Adds a format with these fields.
fn add(
    alloc: Global,
    table: &mut FormatTable,
    name: (&[u8], &[u8]),
    id: u32,
    rows: &str,
) -> Result<(), AllocError> {
    let mut fields = Vec::new(alloc);
    push_fields(alloc, &mut fields, rows)?;
    table.add(EventFormat {
        system: ByteText::copy(alloc, name.0)?,
        name: ByteText::copy(alloc, name.1)?,
        id,
        fields: ListOf::from_vec(fields),
        print: ByteText::copy(alloc, b"")?,
        text: ByteText::copy(alloc, b"")?,
    })?;
    Ok(())
}

fn add_all(alloc: Global, table: &mut FormatTable) -> Result<(), AllocError> {
    add(alloc, table, (b"sched", b"sched_switch"), 316, FIELDS)?;
    add(alloc, table, (b"ftrace", b"function"), 1, FIELDS)?;
    add(alloc, table, (b"timer", b"sched"), 400, FIELDS)
}

/// The formats `sched/sched_switch`, `ftrace/function` and `timer/sched`, each with the fields below.
fn formats(alloc: Global) -> Result<FormatTable, AllocError> {
    let mut table = FormatTable::new(alloc);
    add_all(alloc, &mut table)?;
    Ok(table)
}

fn record() -> Rec<'static> {
    Rec {
        order: Order::Little,
        payload: &PAYLOAD,
    }
}

/// Whether a filter holds at the record above, in the task `bash` on processor 3.
fn is_held(
    alloc: Global,
    table: &FormatTable,
    text: &[u8],
    format: usize,
) -> Result<bool, FilterFault> {
    let filter = parse_filter(alloc, text)?;
    let bound = bind(alloc, &filter, table)?;
    Ok(holds(&bound, format, &record(), b"bash", 3))
}

fn is_named(
    rt: &impl Abort,
    alloc: Global,
    table: &FormatTable,
    row: &str,
) -> Result<(), FilterFault> {
    let (text, rest) = row.split_once(" at ").unwrap_or((row, ""));
    let (format, expected) = rest.split_once(" => ").unwrap_or(("", "no truth"));
    let format = format.parse::<usize>().unwrap_or(usize::MAX);
    let held = is_held(alloc, table, text.as_bytes(), format)?;
    assert!(rt; expected == if held { "true" } else { "false" }, "{row}");
    Ok(())
}

fn all_are_named(rt: &impl Abort, alloc: Global, table: &FormatTable) -> Result<(), FilterFault> {
    for row in NAMES.lines() {
        is_named(rt, alloc, table, row)?;
    }
    Ok(())
}

#[test]
fn filters_name_these_events(rt: HostRuntime) -> Result<(), Fail> {
    let table = formats(rt.alloc())?;
    all_are_named(&rt, rt.alloc(), &table)?;
    Ok(())
}

/// A condition on the first format is true, or not.
fn is_so(
    rt: &impl Abort,
    alloc: Global,
    table: &FormatTable,
    condition: &str,
    expected: bool,
) -> Result<(), FilterFault> {
    let text = format!(in alloc; "sched_switch:{condition}")?;
    let held = is_held(alloc, table, text.as_bytes(), 0)?;
    assert!(rt; held == expected, "{condition}");
    Ok(())
}

fn all_are_so(
    rt: &impl Abort,
    alloc: Global,
    table: &FormatTable,
    conditions: &str,
    expected: bool,
) -> Result<(), FilterFault> {
    for condition in conditions.lines() {
        if !condition.starts_with("# ") {
            is_so(rt, alloc, table, condition, expected)?;
        }
    }
    Ok(())
}

#[test]
fn conditions_are_true_and_not(rt: HostRuntime) -> Result<(), Fail> {
    let table = formats(rt.alloc())?;
    all_are_so(&rt, rt.alloc(), &table, TRUE, true)?;
    all_are_so(&rt, rt.alloc(), &table, FALSE, false)?;
    Ok(())
}

/// Adds a filter, which hides where `-v ` stands before it.
fn push_use(alloc: Global, uses: &mut Vec<FilterUse>, text: &str) -> Result<(), FilterFault> {
    let hidden = text.strip_prefix("-v ");
    let filter = parse_filter(alloc, hidden.unwrap_or(text).as_bytes())?;
    let hide = hidden.is_some();
    uses.push(FilterUse { hide, filter })
        .map_err(AllocError::from)?;
    Ok(())
}

fn push_uses(alloc: Global, uses: &mut Vec<FilterUse>, filters: &str) -> Result<(), FilterFault> {
    for text in filters.split(';') {
        if !text.is_empty() {
            push_use(alloc, uses, text)?;
        }
    }
    Ok(())
}

/// What filters do with the record above, an event of the format at this place, and whether with all events of it.
fn done(filters: &Filters, place: Option<usize>) -> &'static str {
    let event = Event {
        rec: record(),
        comm: b"bash",
        cpu: 3,
    };
    match (filters.show(place, &event), filters.settled(place)) {
        (true, Some(true)) => "shown, all",
        (true, None) => "shown",
        (false, Some(false)) => "hidden, all",
        (false, None) => "hidden",
        _ => "not as settled",
    }
}

/// The same of the filters of a row.
fn done_by(
    alloc: Global,
    table: &FormatTable,
    filters: &str,
    place: Option<usize>,
) -> Result<&'static str, FilterFault> {
    let mut uses = Vec::new(alloc);
    push_uses(alloc, &mut uses, filters)?;
    let bound = Filters::bind(alloc, &uses, table)?;
    Ok(done(&bound, place))
}

fn is_selected(
    rt: &impl Abort,
    alloc: Global,
    table: &FormatTable,
    row: &str,
) -> Result<(), FilterFault> {
    let (filters, rest) = row.split_once(" at ").unwrap_or((row, ""));
    let (format, expected) = rest.split_once(" => ").unwrap_or(("", "no row"));
    let found = done_by(alloc, table, filters, format.parse::<usize>().ok())?;
    assert!(rt; found == expected, "{row}");
    Ok(())
}

fn all_are_selected(
    rt: &impl Abort,
    alloc: Global,
    table: &FormatTable,
) -> Result<(), FilterFault> {
    for row in SELECTIONS.lines() {
        is_selected(rt, alloc, table, row)?;
    }
    Ok(())
}

#[test]
fn filters_show_these_events(rt: HostRuntime) -> Result<(), Fail> {
    let table = formats(rt.alloc())?;
    all_are_selected(&rt, rt.alloc(), &table)?;
    Ok(())
}

fn add_many(alloc: Global, table: &mut FormatTable) -> Result<(), AllocError> {
    for id in 0..3_000_u32 {
        add(alloc, table, (b"sched", b"event"), id, "")?;
    }
    Ok(())
}

/// A filter of the system `sched` whose condition is a thousand ones, joined by `&&`.
fn long_filter(alloc: Global) -> Result<Vec<u8>, AllocError> {
    let mut text = b"sched:1".to_vec(alloc)?;
    put_often(&mut text, " && 1", 999)?;
    Ok(text)
}

fn push_long(alloc: Global, uses: &mut Vec<FilterUse>) -> Result<(), FilterFault> {
    let filter = parse_filter(alloc, &long_filter(alloc)?)?;
    let hide = false;
    uses.push(FilterUse { hide, filter })
        .map_err(AllocError::from)?;
    Ok(())
}

fn is_bound_to_all(rt: &impl Abort, alloc: Global, table: &FormatTable) -> Result<(), FilterFault> {
    let mut uses = Vec::new(alloc);
    push_long(alloc, &mut uses)?;
    let bound = Filters::bind(alloc, &uses, table)?;
    assert!(rt;
        done(&bound, Some(0)) == "shown"
            && done(&bound, Some(2999)) == "shown"
            && done(&bound, None) == "hidden, all"
    );
    Ok(())
}

#[test]
fn a_long_filter_is_bound_to_many_formats(rt: HostRuntime) -> Result<(), Fail> {
    let mut table = FormatTable::new(rt.alloc());
    add_many(rt.alloc(), &mut table)?;
    is_bound_to_all(&rt, rt.alloc(), &table)?;
    Ok(())
}

// The fields of each format: a name, a kind, a place, a size, and whether there is a sign. The first field of a name
// counts, and `COMM` and `CPU` are no fields.
static FIELDS: &str = "pid number 8 4 signed
neg number 12 4 signed
big number 16 8
ptr pointer 24 8 signed
byte number 32 1
small number 33 1 signed
raw bytes 32 4
name text 36 8
full text 36 4
late number 60 4
pid number 12 4 signed
COMM number 8 4 signed
CPU number 8 4 signed";

// Filters, a format each, and whether the filter holds at an event of it.
static NAMES: &str = "sched_switch at 0 => true
sched_switch at 1 => false
sched at 0 => true
sched at 1 => false
sched at 2 => true
sched_sw at 0 => false
sched_switch2 at 0 => false
SCHED at 0 => false
sched/sched_switch at 0 => true
sched/sched_switch at 2 => false
timer/sched at 2 => true
timer/sched at 0 => false
sched_switch/sched at 0 => false
ftrace/sched_switch at 0 => false
function,sched_switch at 0 => true
function,timer at 0 => false
ftrace,sched:0 at 1 => false
sched_switch at 3 => false";

// Conditions that are true of the record above in the task `bash` on processor 3: on numbers of each kind, on texts,
// fields that an event does not have, the task and the processor, and the arithmetic of C on 128 bits.
static TRUE: &str = r#"# Numbers.
pid == 1234
pid < 1235
pid <= 1234
pid >= 1234
pid
neg == -5
neg < 0
neg + 5 == 0
big == 18446744073709551615
big + 1 > big
-1 < big
ptr == 0xfff0000000000000
byte == 200
small == -1
late == 0
1
# Texts.
name == "bash"
full == 'bash'
name != "bas"
!name
"a" != 'b'
"" == ''
# What an event does not have.
!bogus
bogus || 1
1 || bogus
!(bogus == bogus)
!(bogus != 1)
!-bogus
!raw
!(raw == 0)
# The task and the processor.
COMM == "bash"
CPU == 3
CPU + 1 == 4
# Arithmetic.
7 / 2 == 3
-7 / 2 == -3
-7 % 2 == -1
7 % -2 == 1
7 / 0 == 0
7 % 0 == 0
2 + 3 * 4 == 14
10 - 3 - 2 == 5
(5 & 3) == 1
(5 | 3) == 7
(5 ^ 3) == 6
~0 == -1
1 << 100 >> 100 == 1
1 << 127 < 0
1 << 128 == 0
1 << -1 == 0
-8 >> 1 == -4
-1 >> 127 == -1
-1 >> 128 == 0
18446744073709551615 * 18446744073709551615 < 0
(1 << 127) - 1 > 0
(1 << 127) / -1 < 0
-(1 << 127) < 0
# Logic gives 1 or 0.
!0 == 1
!5 == 0
(2 && 4) == 1
(0 || 7) == 1
# More names than are looked through.
a || b || c || d || e || f || g || h || i || j || k || l || m || n || o || p || pid == 1234 && byte == 200 && pid == 1234"#;

// Conditions that are not true of it.
static FALSE: &str = r#"pid != 1234
pid > 1234
pid == -5
neg > 0
big + 1 == 0
small == 255
0
late
"x"
name
name == "bas"
name == "bash\0x"
name != "bash"
name < "c"
name >= "a"
name == 1
name != 1
bogus
bogus == 1
bogus != 1
bogus != "x"
bogus == bogus
bogus < 1
bogus && 1
bogus + 1 == 1
1 + "a" == 1
raw == 200
raw != 0
COMM == 1234
CPU == 1234
5 & 3 == 1
"a" && 1
a || b || c || d || e || f || g || h || i || j || k || l || m || n || o || p || pid == 1234 && byte == 200 && pid == 1235"#;

// Filters, with `-v ` before those that hide; a format; whether they show an event of it, and whether all events of it alike.
static SELECTIONS: &str = " at 0 => shown, all
 at none => shown, all
sched at 0 => shown, all
sched at 1 => hidden, all
sched at none => hidden, all
-v sched at 0 => hidden, all
-v sched at 1 => shown, all
-v sched at none => shown, all
-v sched:bogus at 0 => shown
-v sched:bogus at 1 => shown, all
sched;-v sched_switch:pid == 1234 at 0 => hidden
sched;-v sched_switch:pid == 1234 at 2 => shown, all
-v sched;function at 1 => shown, all
-v sched;function at 0 => hidden, all
function;sched:bogus || 1 at 2 => shown
function;sched:bogus at 0 => hidden
function;sched:bogus at none => hidden, all";
