// The lines of calls.

use crate::tests::contexts::context_of;
use call_pairs::Call;
use format_parse::FormatTable;
use graph_report::put_line;
use report_print::Context;
use std::alloc::Global;
use std::test::Fail;
use trace_base::{Common, Tail};

pub(super) const KALLSYMS: &[u8] = b"1000 T outer\n2000 T inner\n";

/// What stands before the duration in each line of a call at 1,000 nanoseconds.
const FRONT: &str = "              sh-7     [000]     0.000001: ";

/// A row a line: a call, and its line without its front and its newline.
///
/// `+1.8192` is an entry at depth 1 into the function at 8,192 (0x2000), `+1.8192=600` the same of a leaf of 600 nanoseconds and
/// `_1.8192=600` its exit, `-1.8192=600` another exit that is paired, `-1.8192` one that is not, `!3` a loss on processor 3,
/// and `!3=12` one of 12 events.
const ROWS: &str = "\
+0.4096 =>              | outer() {
+1.8192=600 =>     0.600 us |   inner();
_1.8192=600 => 
-0.4096=3900 =>     3.900 us | }
-1.8192 =>              |   } /* inner */
-1.8191 =>              |   } /* outer */
+2.18446744073709551615 =>              |     inner() {
+2.4095 =>              |     0xfff() {
+0.0=0 =>     0.000 us | 0x0();
-3.2748 =>              |       } /* 0xabc */
-0.4096=999 =>     0.999 us | }
-0.4096=9999999 =>  9999.999 us | }
-0.4096=99999999 => 99999.999 us | }
-0.4096=18446744073709551615 => 18446744073709551.615 us | }
!3=12 => CPU:3 [12 EVENTS DROPPED]
!3 => CPU:3 [EVENTS DROPPED]
-1.0=0 =>     0.000 us |   }
-49.0=0 =>     0.000 us |                                                                                                   }
-50.0=0 =>     0.000 us |                                                                                                     }
-51.0=0 =>     0.000 us |                                                                                                     }
-2147483648.0=0 =>     0.000 us |                                                                                                     }
-4294967295.0=0 =>     0.000 us |                                                                                                     }
";

/// The line of a name of 70,000 bytes, which is clipped.
const CLIPPED: &str = "+0.4096 => ...";

fn common() -> Common {
    Common {
        id: 11,
        flags: 0,
        preempt: 0,
        pid: 7,
    }
}

fn entry(depth: u32, func: u64, duration: Option<u64>) -> Call {
    Call::Entry {
        cpu: 0,
        time: 1000,
        common: common(),
        depth,
        func,
        duration,
    }
}

fn exit(depth: u32, func: u64, duration: Option<u64>, leaf: bool) -> Call {
    Call::Exit {
        cpu: 0,
        time: 1000,
        common: common(),
        depth,
        leaf,
        func,
        duration,
    }
}

// The call of such a word.
fn call(word: &str) -> Result<Call, Fail> {
    let (text, nanos) = match word.split_once("=") {
        Some((text, nanos)) => (text, Some(nanos.parse()?)),
        None => (word, None),
    };
    if let Some(cpu) = text.strip_prefix("!") {
        return Ok(Call::Loss {
            cpu: cpu.parse()?,
            count: nanos,
        });
    }
    let (depth, func) = text.split_once(".").ok_or("a function")?;
    if let Some(depth) = depth.strip_prefix("+") {
        return Ok(entry(depth.parse()?, func.parse()?, nanos));
    }
    if let Some(depth) = depth.strip_prefix("-") {
        return Ok(exit(depth.parse()?, func.parse()?, nanos, false));
    }
    let depth = depth.strip_prefix("_").ok_or("an exit")?;
    Ok(exit(depth.parse()?, func.parse()?, nanos, true))
}

// The whole line of such a text.
fn whole(alloc: Global, text: &str) -> Result<String, Fail> {
    let mut whole = String::new(alloc);
    if text.is_empty() {
        return Ok(whole);
    }
    if !text.starts_with("CPU") {
        whole.push_str(FRONT)?;
    }
    whole.push_str(text)?;
    whole.push_str("\n")?;
    Ok(whole)
}

// Whether the line of a call is clipped to the longest line.
fn is_clipped(alloc: Global, context: &Context, call: &Call) -> Result<bool, Fail> {
    let mut room = vec![in alloc; 0; 80_000]?;
    let mut into = Tail::new(&mut room);
    let len = put_line(context, call, &mut into);
    let line = into.kept();
    Ok(len == 65_537 && line.len() == 65_537 && line.ends_with(b"xxx...\n"))
}

// Whether the line of a call is this one.
fn is_line(context: &Context, call: &Call, wanted: &str) -> bool {
    let mut room = [0; 256];
    let mut into = Tail::new(&mut room);
    let len = put_line(context, call, &mut into);
    into.kept() == wanted.as_bytes() && len as usize == wanted.len()
}

// Whether the call of a row has the row's line.
fn is_right(alloc: Global, context: &Context, row: &str) -> Result<bool, Fail> {
    let (word, text) = row.split_once(" => ").ok_or("a row has a line")?;
    let told = call(word)?;
    if text == "..." {
        return is_clipped(alloc, context, &told);
    }
    let wanted = whole(alloc, text)?;
    Ok(is_line(context, &told, &wanted))
}

// The first row that is not right; none is the empty text.
fn wrong_of(alloc: Global, context: &Context, rows: &'static str) -> Result<&'static str, Fail> {
    for row in rows.lines() {
        if !is_right(alloc, context, row)? {
            return Ok(row);
        }
    }
    Ok("")
}

// The same with these symbols.
fn wrong_row(alloc: Global, kallsyms: &[u8], rows: &'static str) -> Result<&'static str, Fail> {
    let context = context_of(alloc, FormatTable::new(alloc), kallsyms, false)?;
    wrong_of(alloc, &context, rows)
}

#[test]
fn each_call_has_its_line(rt: HostRuntime) -> Result<(), Fail> {
    assert_eq!(rt; wrong_row(rt.alloc(), KALLSYMS, ROWS)?, "");
    Ok(())
}

// The first row that is not right where the only function's name has 70,000 bytes.
fn wrong_long_row(alloc: Global) -> Result<&'static str, Fail> {
    let mut kallsyms = Vec::from_slice(alloc, b"1000 T ")?;
    kallsyms.resize(70_007, b'x')?;
    kallsyms.push(b'\n')?;
    wrong_row(alloc, &kallsyms, CLIPPED)
}

#[test]
fn a_long_name_is_clipped(rt: HostRuntime) -> Result<(), Fail> {
    assert_eq!(rt; wrong_long_row(rt.alloc())?, "");
    Ok(())
}
