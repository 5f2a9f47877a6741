// Runs that may find no memory. By themselves they have all that they ask for and must be done; with the allocation of some
// number refused (`rt try --test --fail-alloc N`, apart from the gate) each must end as one of these does.

use sample_runs::{folder_of, run_line};
use std::alloc::{Alloc, AllocError, Global};
use std::process::Abort;
use std::test::Fail;
use std::thread::Threads;
use trace_outside::{MemFolder, MemSink};
use trace_run::Status;
use trace_samples::{SWITCH_REPORT, TraceFile, switch_file};

const WAITS: &[u8] = b"cpus=2
            bash-1234  [000]     1.000000: sched_switch:         prev_comm=bash prev_pid=1234 prev_prio=120 prev_state=S ==> next_comm=swapper/0 next_pid=0 next_prio=120
          <idle>-0     [001]     1.000002: sched_switch:         prev_comm=swapper/1 prev_pid=0 prev_prio=120 prev_state=R ==> next_comm=kworker/0:1 next_pid=42 next_prio=120
     kworker/0:1-42    [001]     1.000250: function:              schedule <-- do_idle
wakeups=0
";

const RAW: &[u8] = b"cpus=2
            bash-1234  [000]     1.000000: sched_switch:         prev_comm=bash prev_pid=1234 prev_prio=120 prev_state=1 next_comm=swapper/0 next_pid=0 next_prio=120
          <idle>-0     [001]     1.000002: sched_switch:         prev_comm=swapper/1 prev_pid=0 prev_prio=120 prev_state=0 next_comm=kworker/0:1 next_pid=42 next_prio=120
     kworker/0:1-42    [001]     1.000250: function:             ip=18446744071578845200 parent_ip=18446744071578845472
";

const LATENCY: &[u8] = b"cpus=2
    bash-1234    0....     1.000000: sched_switch:         prev_comm=bash prev_pid=1234 prev_prio=120 prev_state=S ==> next_comm=swapper/0 next_pid=0 next_prio=120
  <idle>-0       1....     1.000002: sched_switch:         prev_comm=swapper/1 prev_pid=0 prev_prio=120 prev_state=R ==> next_comm=kworker/0:1 next_pid=42 next_prio=120
kworker/0:1-42      1....     1.000250: function:              schedule <-- do_idle
";

const FILTERED: &[u8] = b"cpus=2
            bash-1234  [000]     1.000000: sched_switch:         prev_comm=bash prev_pid=1234 prev_prio=120 prev_state=S ==> next_comm=swapper/0 next_pid=0 next_prio=120
";

const DUMP: &[u8] = b"file trace.dat
version 6
order little
long 8
page 4096
header_page 205
header_event 0
ftrace formats 1
systems 1
events 1
kallsyms 55
printk formats 0
command lines 25
processors 2
options 1
body flyrecord
";

const WAKES: &[u8] =
    b"name: sched_wakeup\nID: 10\n\tfield:int pid;\toffset:8;\tsize:4;\tsigned:1;\n\nprint fmt: \"x\"\n";

const SWITCHES: &[u8] =
    b"name: sched_switch\nID: 11\n\tfield:int next_pid;\toffset:8;\tsize:4;\tsigned:1;\n\nprint fmt: \"x\"\n";

/// A wake-up of task 42 at a microsecond, and a switch to it at two.
const WOKEN: &[u8] =
    b"\xe8\x03\0\0\0\0\0\0\x20\0\0\0\0\0\0\0\x03\0\0\0\x0a\0\0\0\x05\0\0\0\x2a\0\0\0\x03\x7d\0\0\x0b\0\0\0\x05\0\0\0\x2a\0\0\0";

const PAIRED: &[u8] = b"cpus=1
           <...>-5     [000]     0.000001: sched_wakeup:         x
           <...>-5     [000]     0.000002: sched_switch:         x
wakeups=1
           <...>-42    [000]     0.000002: latency 1.000 us
average 1.000 us
maximum 1.000 us at 0.000002
minimum 1.000 us at 0.000002
";

/// How many bytes the one new file of a split has: a header of less than 4,096 bytes and a sub-buffer of each processor.
const NEW_FILE: usize = 12_288;

// The objects of a run, or none where there is no memory for them.
fn folder(alloc: Global) -> Option<MemFolder> {
    let file = switch_file(alloc).ok()?;
    folder_of(alloc, &file).ok()
}

// The same with a task that waits.
fn woken(alloc: Global) -> Result<MemFolder, AllocError> {
    let mut trace = TraceFile::new(alloc);
    trace.add_sched(WAKES)?;
    trace.add_sched(SWITCHES)?;
    trace.add_processor(WOKEN)?;
    folder_of(alloc, &trace.bytes(alloc)?)
}

// Whether nothing was printed and made.
fn is_untouched(folder: &MemFolder, out: &MemSink) -> bool {
    out.bytes().is_empty()
        && out.writes() == 0
        && folder.counts().created == 0
        && folder.get("p.1").is_none()
}

// Whether all was printed and made.
fn is_whole(folder: &MemFolder, out: &MemSink, told: &[u8], size: usize) -> bool {
    out.bytes() == told && folder.get("p.1").map_or(0, |bytes| bytes.len()) == size
}

// Whether a run may end so: done, untouched where it found no memory, and by a fault only where an object found none.
fn may_end(status: Status, folder: &MemFolder, out: &MemSink, told: &[u8], size: usize) -> bool {
    match status {
        Status::Done => is_whole(folder, out, told, size),
        Status::NoMemory => is_untouched(folder, out),
        Status::ReadFault => folder.wants() > 0 && is_untouched(folder, out),
        Status::WriteFault => {
            folder.wants().saturating_add(out.wants()) > 0
                && told.starts_with(out.bytes())
                && folder.get("p.1").is_none()
        }
        Status::Usage | Status::Refused(_) | Status::Malformed(_) => false,
    }
}

fn ends<R: Alloc<A = Global> + Abort + Threads + Sync>(
    rt: &R,
    line: &str,
    told: &[u8],
    size: usize,
) {
    if let Some(mut folder) = folder(rt.alloc()) {
        ends_over(rt, &mut folder, line, told, size);
    }
}

fn ends_over<R: Alloc<A = Global> + Abort + Threads + Sync>(
    rt: &R,
    folder: &mut MemFolder,
    line: &str,
    told: &[u8],
    size: usize,
) {
    let alloc = rt.alloc();
    let mut out = MemSink::new(alloc);
    let mut err = MemSink::new(alloc);
    let Ok(status) = run_line(rt, line, folder, &mut out, &mut err) else {
        return;
    };
    assert!(rt;
        may_end(status, folder, &out, told, size),
        "{line}: {status:?}"
    );
}

#[test]
fn memory_of_a_report(rt: HostRuntime) {
    ends(&rt, "report", SWITCH_REPORT, 0);
}

#[test]
fn memory_of_a_report_on_threads(rt: HostRuntime) {
    ends(&rt, "report --workers 3", SWITCH_REPORT, 0);
}

#[test]
fn memory_of_a_report_with_wake_ups(rt: HostRuntime) {
    ends(&rt, "report -w", WAITS, 0);
}

#[test]
fn memory_of_tasks_that_wait(rt: HostRuntime) {
    if let Ok(mut folder) = woken(rt.alloc()) {
        ends_over(&rt, &mut folder, "report -w", PAIRED, 0);
    }
}

#[test]
fn memory_of_a_filtered_report(rt: HostRuntime) {
    ends(&rt, "report -F sched:COMM==\"bash\"", FILTERED, 0);
}

#[test]
fn memory_of_a_raw_report(rt: HostRuntime) {
    ends(&rt, "report -R", RAW, 0);
}

#[test]
fn memory_of_a_report_with_latency(rt: HostRuntime) {
    ends(&rt, "report -l", LATENCY, 0);
}

#[test]
fn memory_of_a_list(rt: HostRuntime) {
    ends(
        &rt,
        "report -E",
        b"ftrace/function\nsched/sched_switch\n",
        0,
    );
}

#[test]
fn memory_of_a_split(rt: HostRuntime) {
    ends(&rt, "split -o p", b"", NEW_FILE);
}

#[test]
fn memory_of_a_dump(rt: HostRuntime) {
    ends(&rt, "dump", DUMP, 0);
}

#[test]
fn memory_of_a_self_test(rt: HostRuntime) {
    ends(
        &rt,
        "selftest 7 10",
        b"selftest seed=7 events=10 lines=11 bytes=899 sum=22563546\n",
        0,
    );
}

fn is_done<R: Alloc<A = Global> + Abort + Threads + Sync>(
    rt: &R,
    folder: &mut MemFolder,
    line: &str,
) -> Result<(), AllocError> {
    let mut out = MemSink::new(rt.alloc());
    let mut err = MemSink::new(rt.alloc());
    let status = run_line(rt, line, folder, &mut out, &mut err)?;
    assert!(rt; status == Status::Done && err.bytes().is_empty(), "{line}");
    Ok(())
}

fn all_are_done<R: Alloc<A = Global> + Abort + Threads + Sync>(
    rt: &R,
    folder: &mut MemFolder,
) -> Result<(), AllocError> {
    for line in ["report", "split -o p", "dump", "selftest 7 10"] {
        is_done(rt, folder, line)?;
    }
    Ok(())
}

// Without this the tests above would pass by ends of any kind that may be.
#[test]
fn memory_at_hand(rt: HostRuntime) -> Result<(), Fail> {
    let mut folder = folder(rt.alloc()).ok_or("no memory")?;
    all_are_done(&rt, &mut folder)?;
    Ok(())
}

#[test]
fn memory_at_hand_for_tasks_that_wait(rt: HostRuntime) -> Result<(), Fail> {
    let mut folder = woken(rt.alloc())?;
    is_done(&rt, &mut folder, "report -w")?;
    Ok(())
}
