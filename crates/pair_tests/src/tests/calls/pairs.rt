// Which calls are told of what is seen.

use call_pairs::{Call, GraphEvent, GraphItem, Tracing, clipped};
use std::alloc::Global;
use std::test::Fail;
use trace_base::Common;

/// A row a line: what is seen, and what is told of it.
///
/// `+7.0.1.2@1000` is an entry of pid 7 on processor 0 at depth 1 into function 2 at time 1000, `-7.0.1.2@1600` its exit, with
/// `:600` after it where its own fields tell that its call took 600 nanoseconds, and `!1` a loss on processor 1. Of an entry is
/// told `(`, and `()600` where it begins a leaf of 600 nanoseconds; of an exit `)600` where it is paired, `_600` where it ends
/// a leaf, and else `)`.
const ROWS: &str = "\
+7.0.0.1@1000 +7.0.1.2@2000 -7.0.1.2@2700:600 -7.0.0.1@5000:3900 => ( ()600 _600 )3900
-7.0.1.2@1000:600 => )
-7.0.2.3@1000 -7.0.1.2@2000 -7.0.0.1@3000 => ) ) )
+7.0.1.1@1000 -7.0.1.2@2000 -7.0.1.1@3000 => ( ) )
+7.0.0.1@1000 -7.0.1.2@2000 -7.0.0.1@3000 => ( ) )2000
+7.0.0.1@1000 +7.0.0.1@2000 -7.0.0.1@2500 -7.0.0.1@2600 => ( ()500 _500 )
+7.0.0.1@1000 !1 -7.0.0.1@3000 => ( ! )
+7.0.0.1@1000 !0 +7.0.1.2@1500 -7.0.1.2@1600 -7.0.0.1@3000 => ( ! ()100 _100 )
!0 +7.0.0.1@1000 -7.0.0.1@1001 => ! ()1 _1
+7.0.0.1@1000 +8.1.0.1@1100 -7.0.0.1@1200 -8.1.0.1@1400 => ()200 ()300 _200 _300
+7.0.0.1@1000 +8.1.0.1@1100 +7.0.1.2@1110 -8.1.1.2@1120 -7.0.1.2@1200 -7.0.0.1@1300 -8.1.0.1@1400 => ( ( ()90 ) _90 )300 )300
+0.0.0.1@1000 +0.1.0.1@1050 -0.1.0.1@1100 -0.0.0.1@1200 => ()200 ()50 _50 _200
+0.0.0.1@1000 -0.1.0.1@1100 -0.0.0.1@1200 => ()200 ) _200
+9.0.0.1@1300 -9.1.0.1@1400 => ()100 _100
+-5.0.0.1@1000 +5.0.0.1@1100 --5.0.0.1@1300 => ()300 ( _300
+7.0.0.1@1000 +7.0.1.1@1100 +7.0.2.1@1200 -7.0.2.1@1300 -7.0.1.1@1500 -7.0.0.1@1800 => ( ( ()100 _100 )400 )800
+7.0.0.1@1000 -7.0.0.1@900 => ()0 _0
+7.0.0.1@0 -7.0.0.1@18446744073709551615 => ()18446744073709551615 _18446744073709551615
+7.0.51.1@1000 -7.0.51.1@1002 => ()2 _2
+7.0.4294967295.1@1000 -7.0.4294967295.1@1001 => ()1 _1
+7.0.2147483648.1@1000 +7.0.2147483649.2@1001 -7.0.2147483649.2@1003 -7.0.2147483648.1@1009 => ( ()2 _2 )9
+7.0.2147483648.1@1000 +7.0.51.2@1001 -7.0.51.2@1003 -7.0.2147483648.1@1009 => ( ()2 _2 )
";

// The event of such a word, without its first byte.
fn event(text: &str) -> Result<GraphEvent, Fail> {
    let (place, time) = text.split_once("@").ok_or("an event has a time")?;
    let mut parts = place.split('.');
    let pid = parts.next().ok_or("a pid")?;
    let cpu = parts.next().ok_or("a processor")?;
    let depth = parts.next().ok_or("a depth")?;
    let func = parts.next().ok_or("a function")?;
    Ok(GraphEvent {
        cpu: cpu.parse()?,
        time: time.parse()?,
        common: Common {
            id: 11,
            flags: 0,
            preempt: 0,
            pid: pid.parse()?,
        },
        depth: depth.parse()?,
        func: func.parse()?,
    })
}

fn exit(text: &str) -> Result<GraphItem, Fail> {
    match text.split_once(":") {
        Some((event_text, nanos)) => Ok(GraphItem::Exit(event(event_text)?, Some(nanos.parse()?))),
        None => Ok(GraphItem::Exit(event(text)?, None)),
    }
}

fn seen(word: &str) -> Result<GraphItem, Fail> {
    if let Some(text) = word.strip_prefix("+") {
        return Ok(GraphItem::Entry(event(text)?));
    }
    if let Some(text) = word.strip_prefix("-") {
        return exit(text);
    }
    let cpu = word.strip_prefix("!").ok_or("a loss")?;
    Ok(GraphItem::Loss {
        cpu: cpu.parse()?,
        count: None,
    })
}

// The calls of what is seen.
fn traced(alloc: Global, words: &str) -> Result<Vec<Call>, Fail> {
    let mut tracing = Tracing::new(alloc);
    for word in words.split(' ') {
        tracing.see(&seen(word)?)?;
    }
    Ok(tracing.into_calls())
}

// Whether a word is this mark and these nanoseconds.
fn is_lasting(word: &str, mark: &str, nanos: u64) -> Result<bool, Fail> {
    let told: u64 = word.strip_prefix(mark).ok_or("the mark")?.parse()?;
    Ok(told == nanos)
}

// Whether the word tells the call.
fn is_told(call: &Call, word: &str) -> Result<bool, Fail> {
    match call {
        Call::Entry { duration, .. } => match duration {
            Some(nanos) => is_lasting(word, "()", *nanos),
            None => Ok(word == "("),
        },
        Call::Exit { leaf, duration, .. } => match duration {
            Some(nanos) => is_lasting(word, if *leaf { "_" } else { ")" }, *nanos),
            None => Ok(word == ")" && !*leaf),
        },
        Call::Loss { .. } => Ok(word == "!"),
    }
}

fn is_right(alloc: Global, row: &str) -> Result<bool, Fail> {
    let (words, told) = row.split_once(" => ").ok_or("a row tells something")?;
    let calls = traced(alloc, words)?;
    let mut told_words = told.split(' ');
    for call in &calls {
        if !is_told(call, told_words.next().ok_or("a word for each")?)? {
            return Ok(false);
        }
    }
    Ok(told_words.next().is_none())
}

// The first row that is not right; none is the empty text.
fn wrong_row(alloc: Global) -> Result<&'static str, Fail> {
    for row in ROWS.lines() {
        if !is_right(alloc, row)? {
            return Ok(row);
        }
    }
    Ok("")
}

#[test]
fn an_exit_belongs_to_the_open_entry_of_its_depth(rt: HostRuntime) -> Result<(), Fail> {
    assert_eq!(rt; wrong_row(rt.alloc())?, "");
    Ok(())
}

/// From when, to when, and the nanoseconds that are told.
const DIFFERENCES: [(i128, i128, u64); 6] = [
    (2000, 2600, 600),
    (2600, 2000, 0),
    (-1, 18_446_744_073_709_551_615, 18_446_744_073_709_551_615),
    (-9_223_372_036_854_775_808, 0, 9_223_372_036_854_775_808),
    (i128::MIN, i128::MAX, 18_446_744_073_709_551_615),
    (i128::MAX, i128::MIN, 0),
];

#[test]
fn a_difference_has_two_bounds(rt: HostRuntime) -> Result<(), Fail> {
    for (from, to, wanted) in DIFFERENCES {
        assert_eq!(rt; clipped(from, to), wanted);
    }
    Ok(())
}

#[test]
fn a_call_takes_64_bytes(rt: HostRuntime) -> Result<(), Fail> {
    assert_eq!(rt; std::mem::size_of::<Call>(), 64);
    Ok(())
}
