// The calls of whole traces of two processors, and what is printed of them.

use super::lines::KALLSYMS;
use crate::tests::contexts::context_of;
use crate::tests::sub_buffers::recording_of;
use format_parse::FormatTable;
use graph_report::{Calls, gather_calls, put_calls};
use item_pass::PassFault;
use report_print::Context;
use std::alloc::{AllocError, Global};
use std::test::Fail;
use subpage::CutPlace;
use trace_base::{ByteText, Part};
use trace_outside::{File, MemFile, MemSink, Pending, Sink};
use trace_samples::layout;

const ENTRY: &str = "name: funcgraph_entry
ID: 11
\tfield:unsigned long func;\toffset:8;\tsize:8;\tsigned:0;
\tfield:int depth;\toffset:16;\tsize:4;\tsigned:1;
";

const EXIT: &str = "name: funcgraph_exit
ID: 10
\tfield:unsigned long func;\toffset:8;\tsize:8;\tsigned:0;
\tfield:unsigned long long calltime;\toffset:16;\tsize:8;\tsigned:0;
\tfield:unsigned long long rettime;\toffset:24;\tsize:8;\tsigned:0;
\tfield:int depth;\toffset:32;\tsize:4;\tsigned:1;
";

/// The function is a pointer, and the times have a sign.
const SIGNED_EXIT: &str = "name: funcgraph_exit
ID: 10
\tfield:void * func;\toffset:8;\tsize:8;\tsigned:0;
\tfield:long long calltime;\toffset:16;\tsize:8;\tsigned:1;
\tfield:long long rettime;\toffset:24;\tsize:8;\tsigned:1;
\tfield:int depth;\toffset:32;\tsize:4;\tsigned:1;
";

const UNTIMED_EXIT: &str = "name: funcgraph_exit
ID: 10
\tfield:unsigned long func;\toffset:8;\tsize:8;\tsigned:0;
\tfield:int depth;\toffset:32;\tsize:4;\tsigned:1;
";

const SHORT_TIMED_EXIT: &str = "name: funcgraph_exit
ID: 10
\tfield:unsigned long func;\toffset:8;\tsize:8;\tsigned:0;
\tfield:unsigned int calltime;\toffset:16;\tsize:4;\tsigned:0;
\tfield:unsigned int rettime;\toffset:24;\tsize:4;\tsigned:0;
\tfield:int depth;\toffset:32;\tsize:4;\tsigned:1;
";

/// The first field of the name is a text, so that its events are no exits.
const TEXT_EXIT: &str = "name: funcgraph_exit
ID: 10
\tfield:char func[8];\toffset:8;\tsize:8;\tsigned:0;
\tfield:unsigned long func;\toffset:8;\tsize:8;\tsigned:0;
\tfield:int depth;\toffset:32;\tsize:4;\tsigned:1;
";

/// Each row ends at a `#`. Its first line tells what it shows, its second what is recorded (see `sub_buffers`), and the others are
/// the lines. Of the events 11 is an entry, with its function (4096 is `outer`, and 8192 `inner`) and its depth; 10 is an exit, with
/// its function, when its call began and ended, and its depth; 12 is of another format. A row of the title `a full sink` has what a sink takes whose first write takes 100 bytes, and whose second fails;
/// one of `a cut` has no items from the second sub-buffer of processor 1, and in one of `no read` the file cannot be read.
const ROWS: &str = "\
a call in a call, all on processor 0
11.7.l4096.0@1000 11.7.l8192.1@2000 12.7.l0@2100 10.7.l8192.l2000.l2600.1@2700 10.7.l4096.l1000.l4900.0@5000&
              sh-7     [000]     0.000001:              | outer() {
              sh-7     [000]     0.000002:     0.600 us |   inner();
              sh-7     [000]     0.000005:     3.900 us | }
#an exit whose entry is not there
10.7.l8192.l2000.l2600.1@1000&
              sh-7     [000]     0.000001:              |   } /* inner */
#a loss on the other processor
11.7.l4096.0@1000 10.7.l4096.l1000.l4900.0@5000&!@2000
              sh-7     [000]     0.000001:              | outer() {
CPU:1 [EVENTS DROPPED]
              sh-7     [000]     0.000005:              | } /* outer */
#threads and idle tasks of two processors
11.0.l4096.0@1000 11.7.l8192.0@3000 10.0.l4096.l1000.l4900.0@5000&11.0.l4096.0@2000 10.7.l8192.l3000.l3500.0@4000 10.0.l4096.l2000.l2001.0@6000
          <idle>-0     [000]     0.000001:     3.900 us | outer();
          <idle>-0     [001]     0.000002:     0.001 us | outer();
              sh-7     [000]     0.000003:     0.500 us | inner();
#a cut
11.7.l4096.0@1000/10.7.l4096.l1000.l4900.0@5000000000&11.7.l8192.1@2000/malformed
              sh-7     [000]     0.000001:              | outer() {
              sh-7     [001]     0.000002:              |   inner() {
#no read
11.7.l4096.0@1000 11.7.l8192.1@2000 12.7.l0@2100 10.7.l8192.l2000.l2600.1@2700 10.7.l4096.l1000.l4900.0@5000&
#a full sink
11.7.l4096.0@1000 11.7.l8192.1@2000 12.7.l0@2100 10.7.l8192.l2000.l2600.1@2700 10.7.l4096.l1000.l4900.0@5000&
              sh-7     [000]     0.000001:              | outer() {
              sh-7     [000]    ";

const UNTIMED: &str = "\
a call is timed by its events
11.7.l4096.0@1000 11.7.l8192.1@2000 12.7.l0@2100 10.7.l8192.l2000.l2600.1@2700 10.7.l4096.l1000.l4900.0@5000&
              sh-7     [000]     0.000001:              | outer() {
              sh-7     [000]     0.000002:     0.700 us |   inner();
              sh-7     [000]     0.000005:     4.000 us | }
";

const SHORT_TIMED: &str = "\
times of four bytes
11.7.l4096.0@1000 11.7.l8192.1@2000 12.7.l0@2100 10.7.l8192.l2000.l2600.1@2700 10.7.l4096.l1000.l4900.0@5000&
              sh-7     [000]     0.000001:              | outer() {
              sh-7     [000]     0.000002:     0.600 us |   inner();
              sh-7     [000]     0.000005:     3.900 us | }
";

const TEXT: &str = "\
events of the name that are no exits
11.7.l4096.0@1000 11.7.l8192.1@2000 12.7.l0@2100 10.7.l8192.l2000.l2600.1@2700 10.7.l4096.l1000.l4900.0@5000&
              sh-7     [000]     0.000001:              | outer() {
              sh-7     [000]     0.000002:              |   inner() {
";

const SIGNED: &str = "\
times below 0
11.7.l4096.0@1000 10.7.l4096.l18446744073709551615.l599.0@1009&
              sh-7     [000]     0.000001:     0.600 us | outer();
";

// A context with the entry's format and this one.
fn context_with(alloc: Global, format: &str) -> Result<Context, AllocError> {
    let mut texts = Vec::new(alloc);
    texts.push(ByteText::copy(alloc, format.as_bytes())?)?;
    texts.push(ByteText::copy(alloc, ENTRY.as_bytes())?)?;
    let formats = FormatTable::new(alloc).with_texts(alloc, b"ftrace", &texts)?;
    context_of(alloc, formats, KALLSYMS, false)
}

// The calls of a file, in which the sub-buffers of processor 1 begin at this byte.
fn gathered<F: File>(
    alloc: Global,
    context: &Context,
    file: &mut F,
    middle: u64,
) -> Result<Calls, PassFault> {
    let first = Part {
        offset: 0,
        size: middle,
    };
    let second = Part {
        offset: middle,
        size: file.len().saturating_sub(middle),
    };
    gather_calls(alloc, context, &layout(), file, &[(0, first), (1, second)])
}

// The calls of what is recorded, of which each byte is read once.
fn calls_of(alloc: Global, context: &Context, told: &str) -> Result<Calls, Fail> {
    let recorded = recording_of(alloc, told)?;
    let mut file = MemFile::new(ByteText::from_vec(recorded.bytes));
    let Ok(calls) = gathered(alloc, context, &mut file, recorded.middle) else {
        return Err("calls are gathered".into());
    };
    if file.reads() != file.len() {
        return Err("each byte is read once".into());
    }
    Ok(calls)
}

// Writes what is printed of calls, and answers whether it was written.
fn write_calls<O: Sink>(
    alloc: Global,
    context: &Context,
    calls: &Calls,
    out: &mut O,
) -> Result<bool, AllocError> {
    let mut buffer = vec![in alloc; 0; 65_537]?;
    let mut pending = Pending::new(alloc)?;
    if put_calls(context, &calls.list, &mut buffer, &mut pending, out).is_err() {
        return Ok(false);
    }
    Ok(pending.flush(out).is_ok())
}

// Whether this text is printed of calls.
fn are_printed(
    alloc: Global,
    context: &Context,
    calls: &Calls,
    text: &str,
) -> Result<bool, AllocError> {
    let mut out = MemSink::new(alloc);
    out.short(100);
    let whole = write_calls(alloc, context, calls, &mut out)?;
    Ok(whole && out.bytes() == text.as_bytes())
}

// Whether a sink whose first write takes 100 bytes, and whose second fails, has this front of the text.
fn have_front(
    alloc: Global,
    context: &Context,
    calls: &Calls,
    front: &str,
) -> Result<bool, AllocError> {
    let mut out = MemSink::new(alloc);
    out.short(100);
    out.fail_from(2);
    let whole = write_calls(alloc, context, calls, &mut out)?;
    Ok(!whole && out.bytes() == front.as_bytes())
}

// Whether it is told that the file cannot be read.
fn is_unread(alloc: Global, context: &Context, told: &str) -> Result<bool, Fail> {
    let recorded = recording_of(alloc, told)?;
    let mut file = MemFile::new(ByteText::from_vec(recorded.bytes));
    file.fail_at(10);
    match gathered(alloc, context, &mut file, recorded.middle) {
        Ok(_) => Ok(false),
        Err(fault) => Ok(fault == PassFault::Read && file.faults() == 1),
    }
}

// Whether the items end where the title says.
fn are_cut(title: &str, calls: &Calls) -> bool {
    if title == "a cut" {
        return calls.cut == Some(CutPlace { cpu: 1, page: 1 });
    }
    calls.cut.is_none()
}

// Whether what is recorded has this text, or this front of it.
fn is_told(
    alloc: Global,
    context: &Context,
    title: &str,
    told: &str,
    text: &str,
) -> Result<bool, Fail> {
    let calls = calls_of(alloc, context, told)?;
    if !are_cut(title, &calls) {
        return Ok(false);
    }
    if title == "a full sink" {
        return Ok(have_front(alloc, context, &calls, text)?);
    }
    Ok(are_printed(alloc, context, &calls, text)?)
}

fn is_right(alloc: Global, context: &Context, row: &str) -> Result<bool, Fail> {
    let (title, rest) = row.split_once("\n").ok_or("what a row shows")?;
    let (told, text) = rest.split_once("\n").ok_or("lines")?;
    if title == "no read" {
        return is_unread(alloc, context, told);
    }
    is_told(alloc, context, title, told, text)
}

// The first row that is not right; none is the empty text.
fn wrong_of(alloc: Global, context: &Context, rows: &'static str) -> Result<&'static str, Fail> {
    for row in rows.split('#') {
        if !is_right(alloc, context, row)? {
            return Ok(row);
        }
    }
    Ok("")
}

// The same where exits have this format.
fn wrong_row(alloc: Global, format: &str, rows: &'static str) -> Result<&'static str, Fail> {
    let context = context_with(alloc, format)?;
    wrong_of(alloc, &context, rows)
}

#[test]
fn calls_of_two_processors(rt: HostRuntime) -> Result<(), Fail> {
    assert_eq!(rt; wrong_row(rt.alloc(), EXIT, ROWS)?, "");
    Ok(())
}

#[test]
fn exits_that_tell_no_times(rt: HostRuntime) -> Result<(), Fail> {
    assert_eq!(rt; wrong_row(rt.alloc(), UNTIMED_EXIT, UNTIMED)?, "");
    Ok(())
}

#[test]
fn exits_with_times_of_four_bytes(rt: HostRuntime) -> Result<(), Fail> {
    assert_eq!(rt; wrong_row(rt.alloc(), SHORT_TIMED_EXIT, SHORT_TIMED)?, "");
    Ok(())
}

#[test]
fn exits_whose_function_is_a_text(rt: HostRuntime) -> Result<(), Fail> {
    assert_eq!(rt; wrong_row(rt.alloc(), TEXT_EXIT, TEXT)?, "");
    Ok(())
}

#[test]
fn exits_with_times_below_zero(rt: HostRuntime) -> Result<(), Fail> {
    assert_eq!(rt; wrong_row(rt.alloc(), SIGNED_EXIT, SIGNED)?, "");
    Ok(())
}
