// Lines of a report.

ghost use Rattle.std.specs.Prelude.{◌≡◌, IfOk};

use crate::formats::{many, with_texts};
use filter_lang::{FilterFault, parse_filter};
use filter_truth::FilterUse;
use format_parse::FormatTable;
use line_holes::Hole;
use line_options::LineOptions;
use report_print::{Context, Show, line, selected};
use std::alloc::{AllocError, Global};
use std::process::Abort;
use std::test::Fail;
use subpage::Item;
use symbols::Symbols;
use trace_base::{ByteText, ListOf, Order, Tail};

const FUNCTION: &str = "name: function
ID: 1
\tfield:int common_pid;\toffset:4;\tsize:4;\tsigned:1;
\tfield:unsigned long ip;\toffset:8;\tsize:8;\tsigned:0;
print fmt: \" %ps\", (void *)REC->ip
";

/// Four formats. C11 has 0 for `a - 1 > 0`, since a is promoted to int, and 1 for `b - 1 > 0`, since b is unsigned.
const EVENT_FORMATS: &str = "name: kinds
ID: 2
\tfield:short small;\toffset:8;\tsize:2;\tsigned:1;
\tfield:void * at;\toffset:8;\tsize:4;\tsigned:0;
\tfield:char text[4];\toffset:12;\tsize:4;\tsigned:0;
\tfield:u8 bytes[2];\toffset:16;\tsize:2;\tsigned:0;
\tfield:long past;\toffset:17;\tsize:8;\tsigned:1;
#name: text
ID: 3
\tfield:char text[];\toffset:8;\tsize:0;\tsigned:0;
#name: prints
ID: 4
\tfield:int v;\toffset:8;\tsize:4;\tsigned:1;
\tfield:u8 a;\toffset:12;\tsize:1;\tsigned:0;
\tfield:u32 b;\toffset:16;\tsize:4;\tsigned:0;

print fmt: \"%5d|%-5d|%05d|%+d|%x %d %d\", REC->v, REC->v, REC->v, REC->v, REC->v, REC->a - 1 > 0, REC->b - 1 > 0
#name: unread
ID: 5
\tfield:int a;\toffset:8;\tsize:4;\tsigned:1;

print fmt: \"%s\", my_helper(REC->a)
";

/// How lines are shown: with times of nine digits, differences, the latency columns, the fields as they are, without what hard or
/// soft interrupts did, each where its letter is there.
fn shown(alloc: Global, letters: &[u8]) -> Result<Show, AllocError>
    ensures { IfOk result (λ show. show.long ≡ 8) }
{
    let names = vec![in alloc; ByteText::copy(alloc, b"kinds")?]?;
    Ok(Show {
        order: Order::Little,
        long: 8,
        line: LineOptions {
            full: letters.contains(&b't'),
            diff: letters.contains(&b'd'),
            latency: letters.contains(&b'l'),
            raw: letters.contains(&b'R'),
            no_hard: letters.contains(&b'I'),
            no_soft: letters.contains(&b'S'),
        },
        raw_events: ListOf::from_vec(names),
    })
}

/// Names of which the one of the task 42 is this. Other tasks have wide pids, and one of them shares its entry with 42.
fn names_of(alloc: Global, task: &str) -> Result<Symbols, AllocError> {
    let others = "100042 wide\n1000042 wider\n2147483646 abcdefghijklmnop\n";
    let names = format!(in alloc; "42 {task}\n{others}")?;
    Symbols::read(
        alloc,
        ByteText::copy(alloc, b"")?,
        ByteText::copy(alloc, b"")?,
        ByteText::copy(alloc, names.as_bytes())?,
    )
}

/// A context of these formats in which the task 42 has this name.
fn context_of(
    alloc: Global,
    formats: FormatTable,
    task: &str,
    filters: Vec<FilterUse>,
    letters: &str,
) -> Result<Context, AllocError> {
    let symbols = names_of(alloc, task)?;
    let show = shown(alloc, letters.as_bytes())?;
    Context::build(alloc, formats, symbols, filters, show)
}

fn five_formats(alloc: Global) -> Result<FormatTable, AllocError> {
    let table = with_texts(alloc, FormatTable::new(alloc), b"ftrace", FUNCTION)?;
    with_texts(alloc, table, b"events", EVENT_FORMATS)
}

/// A context of five formats.
fn context(alloc: Global, filters: Vec<FilterUse>, letters: &str) -> Result<Context, AllocError> {
    let formats = five_formats(alloc)?;
    context_of(alloc, formats, "kworker/0:1", filters, letters)
}

/// The item on this processor has this line, or none.
fn shows_on(rt: &impl Abort, context: &Context, cpu: u32, item: &Item<'_>, text: &str) {
    let mut room = [0; 256];
    let mut into = Tail::new(&mut room);
    let (len, _) = line(context, cpu, item, &mut into);
    let kept = into.kept();
    let front = &kept[..kept.len().saturating_sub(1)];
    let ends = kept.ends_with(b"\n") && selected(context, cpu, item);
    assert!(rt;
        len as usize == kept.len() && front == text.as_bytes() && ends == !text.is_empty(),
        "{text}"
    );
}

/// The same on processor 1.
fn shows(rt: &impl Abort, context: &Context, item: &Item<'_>, text: &str) {
    shows_on(rt, context, 1, item, text);
}

/// An event of this payload in hexadecimal has this line.
fn shows_event(
    rt: &impl Abort,
    alloc: Global,
    context: &Context,
    time: &str,
    payload: &str,
    text: &str,
) -> Result<(), Fail> {
    let payload = hex::decode(alloc, payload)?;
    let item = Item::Event {
        time: time.parse::<u64>().unwrap_or(0),
        payload: &payload,
    };
    shows(rt, context, &item, text);
    Ok(())
}

/// How lines are shown, an event's time and payload, and its line.
const LINES: &str =
    "R\t1000250000\t010000002a00000010000081ffffffff\t     kworker/0:1-42    [001]     1.000250: function:             ip=18446744071578845200
R\t1000250000\t01000000ffffffff\t           <...>--1    [001]     1.000250: function:             ip=0
R\t1000250000\t0701\t          <idle>-0     [001]     1.000250: [UNKNOWN EVENT 263]
tlI\t1000250000\t090015132a000000\tkworker/0:1-42      1dNs3     1.000250000: [UNKNOWN EVENT 9]
tlI\t1000250000\t0900020a00000000\t  <idle>-0       1X..a     1.000250000: [UNKNOWN EVENT 9]
tlI\t1000250000\t0900080000000000\t
\t1000250000\t0200000000000000feff0080616200630fa0\t          <idle>-0     [001]     1.000250: kinds:                small=-2 at=0x8000fffe text=ab bytes=0fa0 past=0
\t1000250000\t0200000000000000feff00806162\t          <idle>-0     [001]     1.000250: kinds:                small=-2 at=0x8000fffe text=ab bytes= past=0
\t1000250000\t04000000000000002a0000000000000000000000\t          <idle>-0     [001]     1.000250: prints:                  42|42   |00042|+42|2a 0 1
\t1000250000\t050000000000000005000000\t          <idle>-0     [001]     1.000250: unread:               [FAILED TO PARSE] a=5
\t1000250000\t040000002a0000002a0000000000000000000000\t     kworker/0:1-42    [001]     1.000250: prints:                  42|42   |00042|+42|2a 0 1
\t1000250000\t040000002b0000002a0000000000000000000000\t           <...>-43    [001]     1.000250: prints:                  42|42   |00042|+42|2a 0 1
\t1000250000\t040000009f8601002a0000000000000000000000\t           <...>-99999 [001]     1.000250: prints:                  42|42   |00042|+42|2a 0 1
\t1000250000\t04000000a08601002a0000000000000000000000\t           <...>-100000 [001]     1.000250: prints:                  42|42   |00042|+42|2a 0 1
\t1000250000\t04000000ca8601002a0000000000000000000000\t            wide-100042 [001]     1.000250: prints:                  42|42   |00042|+42|2a 0 1
\t1000250000\t040000006a420f002a0000000000000000000000\t           wider-1000042 [001]     1.000250: prints:                  42|42   |00042|+42|2a 0 1
\t1000250000\t040000006a0000002a0000000000000000000000\t           <...>-106   [001]     1.000250: prints:                  42|42   |00042|+42|2a 0 1
\t1000250000\t04000000070000002a0000000000000000000000\t           <...>-7     [001]     1.000250: prints:                  42|42   |00042|+42|2a 0 1
\t1000250000\t040000000f2700002a0000000000000000000000\t           <...>-9999  [001]     1.000250: prints:                  42|42   |00042|+42|2a 0 1
\t1000250000\t04000000102700002a0000000000000000000000\t           <...>-10000 [001]     1.000250: prints:                  42|42   |00042|+42|2a 0 1
\t1000250000\t040000003f420f002a0000000000000000000000\t           <...>-999999 [001]     1.000250: prints:                  42|42   |00042|+42|2a 0 1
\t1000250000\t0400000040420f002a0000000000000000000000\t           <...>-1000000 [001]     1.000250: prints:                  42|42   |00042|+42|2a 0 1
\t1000250000\t040000007f9698002a0000000000000000000000\t           <...>-9999999 [001]     1.000250: prints:                  42|42   |00042|+42|2a 0 1
\t1000250000\t04000000809698002a0000000000000000000000\t           <...>-10000000 [001]     1.000250: prints:                  42|42   |00042|+42|2a 0 1
\t1000250000\t04000000ffffff7f2a0000000000000000000000\t           <...>-2147483647 [001]     1.000250: prints:                  42|42   |00042|+42|2a 0 1
\t1000250000\t04000000feffff7f2a0000000000000000000000\tabcdefghijklmnop-2147483646 [001]     1.000250: prints:                  42|42   |00042|+42|2a 0 1
\t1000250000\t04000000d6ffffff2a0000000000000000000000\t           <...>--42   [001]     1.000250: prints:                  42|42   |00042|+42|2a 0 1
\t123456999999500\t0000\t          <idle>-0     [001] 123457.000000: [UNKNOWN EVENT 0]
";

fn shows_row(rt: &impl Abort, alloc: Global, row: &str) -> Result<(), Fail> {
    let mut cells = row.split('\t');
    let context = context(alloc, Vec::new(alloc), cells.next().unwrap_or(""))?;
    let time = cells.next().unwrap_or("");
    let payload = cells.next().unwrap_or("");
    shows_event(
        rt,
        alloc,
        &context,
        time,
        payload,
        cells.next().unwrap_or("no text"),
    )
}

#[test]
fn events_have_these_lines(rt: HostRuntime) -> Result<(), Fail> {
    for row in LINES.lines() {
        shows_row(&rt, rt.alloc(), row)?;
    }
    Ok(())
}

/// Processors, and the lines of events that tell a text, at the time 0: of the task 42, of tasks without a name, the second of
/// which shares its entry with it, and of one with a wide pid.
const PLACES: &[(u32, &[u8], &str)] = &[
    (
        9,
        b"\x03\0\0\0\x2a\0\0\0x",
        "     kworker/0:1-42    [009]     0.000000: text:                 [FAILED TO PARSE] text=x",
    ),
    (
        10,
        b"\x03\0\0\0\x2a\0\0\0x",
        "     kworker/0:1-42    [010]     0.000000: text:                 [FAILED TO PARSE] text=x",
    ),
    (
        99,
        b"\x03\0\0\0\x2a\0\0\0x",
        "     kworker/0:1-42    [099]     0.000000: text:                 [FAILED TO PARSE] text=x",
    ),
    (
        100,
        b"\x03\0\0\0\x2a\0\0\0x",
        "     kworker/0:1-42    [100]     0.000000: text:                 [FAILED TO PARSE] text=x",
    ),
    (
        999,
        b"\x03\0\0\0\x2a\0\0\0x",
        "     kworker/0:1-42    [999]     0.000000: text:                 [FAILED TO PARSE] text=x",
    ),
    (
        1000,
        b"\x03\0\0\0\x2a\0\0\0x",
        "     kworker/0:1-42    [1000]     0.000000: text:                 [FAILED TO PARSE] text=x",
    ),
    (
        205,
        b"\x03\0\0\0\x2b\0\0\0x",
        "           <...>-43    [205]     0.000000: text:                 [FAILED TO PARSE] text=x",
    ),
    (
        208,
        b"\x03\0\0\0\x6a\0\0\0x",
        "           <...>-106   [208]     0.000000: text:                 [FAILED TO PARSE] text=x",
    ),
    (
        210,
        b"\x03\0\0\0\xff\xff\xff\xffx",
        "           <...>--1    [210]     0.000000: text:                 [FAILED TO PARSE] text=x",
    ),
    (
        100,
        b"\x03\0\0\0\x6a\x42\x0f\0x",
        "           wider-1000042 [100]     0.000000: text:                 [FAILED TO PARSE] text=x",
    ),
    (
        1000,
        b"\x03\0\0\0\x6a\x42\x0f\0x",
        "           wider-1000042 [1000]     0.000000: text:                 [FAILED TO PARSE] text=x",
    ),
];

fn are_shown_on(rt: &impl Abort, context: &Context) {
    for (cpu, payload, text) in PLACES {
        let item = Item::Event { time: 0, payload };
        shows_on(rt, context, *cpu, &item, text);
    }
}

#[test]
fn processors_have_three_digits(rt: HostRuntime) -> Result<(), Fail> {
    let context = context(rt.alloc(), Vec::new(rt.alloc()), "")?;
    are_shown_on(&rt, &context);
    Ok(())
}

/// Losses, which are always shown, and a text that keeps its newlines.
const ITEMS: &[(Item<'_>, &str)] = &[
    (
        Item::Loss {
            time: 1,
            count: Some(3),
        },
        "CPU:1 [3 EVENTS DROPPED]",
    ),
    (
        Item::Loss {
            time: 1,
            count: None,
        },
        "CPU:1 [EVENTS DROPPED]",
    ),
    (
        Item::Event {
            time: 0,
            payload: b"\x03\0\0\0\0\0\0\0one\ntwo\n",
        },
        "          <idle>-0     [001]     0.000000: text:                 [FAILED TO PARSE] text=one\ntwo",
    ),
];

fn shows_items(rt: &impl Abort, context: &Context) {
    for (item, text) in ITEMS {
        shows(rt, context, item, text);
    }
}

#[test]
fn losses_and_newlines_are_shown(rt: HostRuntime) -> Result<(), Fail> {
    let context = context(rt.alloc(), Vec::new(rt.alloc()), "I")?;
    shows_items(&rt, &context);
    Ok(())
}

fn put_letters(payload: &mut Vec<u8>, letters: usize) -> Result<(), AllocError> {
    for _ in 0..letters {
        payload.push(b'a')?;
    }
    Ok(())
}

/// An event of which 70 bytes stand before the text: 43 of columns, 22 of the name's, and `text=`.
fn put_lettered(payload: &mut Vec<u8>, letters: usize, last: &str) -> Result<(), AllocError> {
    payload.extend_from_slice(b"\x03\0\0\0\0\0\0\0")?;
    put_letters(payload, letters)?;
    let last = if last.is_empty() { "\n" } else { last };
    payload.extend_from_slice(last.as_bytes())
}

/// How long the line is, in a room for its front alone.
fn len_of(context: &Context, item: &Item<'_>) -> u32 {
    let mut room = [0; 64];
    line(context, 1, item, &mut Tail::new(&mut room)).0
}

/// The line has this length, also in a room for all of it, and this end before its newline.
fn is_limited(rt: &impl Abort, context: &Context, payload: &[u8], len: u32, end: &str) {
    let item = Item::Event { time: 0, payload };
    let short = len_of(context, &item);
    let mut room = [0; 65_600];
    let mut into = Tail::new(&mut room);
    let (long, _) = line(context, 1, &item, &mut into);
    let kept = into.kept();
    let front = &kept[..kept.len().saturating_sub(1)];
    let ends = kept.ends_with(b"\n") && front.ends_with(end.as_bytes());
    assert!(rt; short == len && long == len && ends, "{end}");
}

/// How many letters, the last byte or else a newline, the length of the line, and its end.
const LIMITS: &[(usize, &str, u32, &str)] = &[
    (10, "b", 82, "aab"),
    (10, "", 81, "aaa"),
    (65_465, "b", 65_537, "aab"),
    (65_465, "", 65_536, "aaa"),
    (65_466, "b", 65_537, "a..."),
    (65_466, "", 65_537, "a..."),
];

fn are_limited(rt: &impl Abort, alloc: Global, context: &Context) -> Result<(), AllocError> {
    for (letters, last, len, end) in LIMITS {
        let mut payload = Vec::new(alloc);
        put_lettered(&mut payload, *letters, last)?;
        is_limited(rt, context, &payload, *len, end);
    }
    Ok(())
}

#[test]
fn a_line_has_a_limit_and_one_newline(rt: HostRuntime) -> Result<(), Fail> {
    let context = context(rt.alloc(), Vec::new(rt.alloc()), "R")?;
    are_limited(&rt, rt.alloc(), &context)?;
    Ok(())
}

/// An event of `ftrace/function` and three of `events/prints`, the last of the idle task, and one without a format.
const EVENTS: &str = "010000002a00000010000081ffffffff
040000002a0000002a0000000000000000000000
040000002a000000070000000000000000000000
04000000000000002a0000000000000000000000
070000002a000000
";

/// Filters, each after `+` where it shows and after `-` where it hides, and which of the events on processor 1 they show. Only
/// the format of the function has the field `common_pid`.
const CHOICES: &str = "\tyyyyy
+prints\tnyyyn
-prints\tynnny
+events\tnyyyn
+ftrace/function\tynnnn
+events/function\tnnnnn
+nothing\tnnnnn
-nothing\tyyyyy
+prints:v == 42\tnynyn
-prints:v == 42\tynyny
+prints:COMM == 'kworker/0:1'\tnyynn
+prints:COMM == '<idle>'\tnnnyn
+events:CPU == 1\tnyyyn
+events:CPU == 0\tnnnnn
+ftrace,events:common_pid == 42\tynnnn
+events,ftrace;-events:bogus || v == 7\tyynyn
-events:!bogus;-function:ip == 0\tynnny
";

fn push_use(
    alloc: Global,
    uses: &mut Vec<FilterUse>,
    hide: bool,
    text: &str,
) -> Result<(), FilterFault> {
    let filter = parse_filter(alloc, text.as_bytes())?;
    uses.push(FilterUse { hide, filter })
        .map_err(AllocError::from)?;
    Ok(())
}

fn push_uses(alloc: Global, uses: &mut Vec<FilterUse>, filters: &str) -> Result<(), FilterFault> {
    for text in filters.split(';') {
        if let Some(filter) = text.get(1..) {
            push_use(alloc, uses, text.starts_with('-'), filter)?;
        }
    }
    Ok(())
}

/// Whether an event on processor 1 is shown, and has a line.
fn is_chosen(
    rt: &impl Abort,
    alloc: Global,
    context: &Context,
    event: &str,
    expected: bool,
) -> Result<(), Fail> {
    let payload = hex::decode(alloc, event)?;
    let item = Item::Event {
        time: 0,
        payload: &payload,
    };
    let mut room = [0; 256];
    let (len, _) = line(context, 1, &item, &mut Tail::new(&mut room));
    assert!(rt;
        selected(context, 1, &item) == expected && (len > 0) == expected,
        "{event}"
    );
    Ok(())
}

fn are_chosen(rt: &impl Abort, alloc: Global, context: &Context, shown: &str) -> Result<(), Fail> {
    for (event, is_shown) in EVENTS.lines().zip(shown.bytes()) {
        is_chosen(rt, alloc, context, event, is_shown == b'y')?;
    }
    Ok(())
}

fn choose(rt: &impl Abort, alloc: Global, row: &str) -> Result<(), Fail> {
    let (filters, shown) = row.split_once("\t").unwrap_or(("", ""));
    let mut uses = Vec::new(alloc);
    push_uses(alloc, &mut uses, filters)?;
    let context = context(alloc, uses, "")?;
    are_chosen(rt, alloc, &context, shown)
}

#[test]
fn filters_choose_the_events(rt: HostRuntime) -> Result<(), Fail> {
    for row in CHOICES.lines() {
        choose(&rt, rt.alloc(), row)?;
    }
    Ok(())
}

/// The payloads of the first and of the last, and their lines.
const FIRST_AND_LAST: [(&str, &str); 2] = [
    (
        "0000",
        "          <idle>-0     [001]     0.000000: e0:                   a text",
    ),
    (
        "b70b",
        "          <idle>-0     [001]     0.000000: e2999:                a text",
    ),
];

fn shows_both(rt: &impl Abort, alloc: Global, context: &Context) -> Result<(), Fail> {
    for (payload, text) in FIRST_AND_LAST {
        shows_event(rt, alloc, context, "0", payload, text)?;
    }
    Ok(())
}

#[test]
fn many_formats_are_known(rt: HostRuntime) -> Result<(), Fail> {
    let formats = many(rt.alloc())?;
    let context = context_of(rt.alloc(), formats, "", Vec::new(rt.alloc()), "")?;
    shows_both(&rt, rt.alloc(), &context)
}

/// A name of so many letters.
fn put_name(name: &mut String, letters: u32) -> Result<(), AllocError> {
    for _ in 0..letters {
        name.push_str("n")?;
    }
    Ok(())
}

fn named(alloc: Global, task: &str) -> Result<Context, AllocError> {
    context_of(alloc, FormatTable::new(alloc), task, Vec::new(alloc), "d")
}

/// The hole of an event of the task 42.
fn hole_of(context: &Context) -> Option<Hole> {
    let item = Item::Event {
        time: 7,
        payload: b"\x09\0\0\0\x2a\0\0\0",
    };
    let mut room = [0; 64];
    line(context, 1, &item, &mut Tail::new(&mut room)).1
}

/// The same where the task's name has so many letters, and differences are asked for.
fn hole_behind(alloc: Global, letters: u32) -> Result<Option<Hole>, AllocError> {
    let mut name = String::new(alloc);
    put_name(&mut name, letters)?;
    let context = named(alloc, name.as_str())?;
    Ok(hole_of(&context))
}

/// How many letters the task's name has, and where the hole stands: 25 bytes after the name, unless it would stand in what was
/// cut off. The text of a name of 65,492 letters has 65,536 bytes, so that it is not cut.
const HOLES: &[(u32, Option<u32>)] = &[
    (1, Some(41)),
    (16, Some(41)),
    (17, Some(42)),
    (41, Some(66)),
    (65_400, Some(65_425)),
    (65_492, Some(65_517)),
    (65_508, Some(65_533)),
    (65_509, None),
    (65_600, None),
];

#[test]
fn a_hole_stands_behind_the_time(rt: HostRuntime) -> Result<(), Fail> {
    for (letters, place) in HOLES {
        let hole = hole_behind(rt.alloc(), *letters)?;
        assert!(rt;
            hole == place.map(|place| Hole { place, time: 7 }),
            "{letters}"
        );
    }
    Ok(())
}
