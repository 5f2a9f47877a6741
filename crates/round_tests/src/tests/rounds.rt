//! Rounds over the lines of two processors: a round by its horizon in `HORIZONS`, rounds that fail in `WRITES`, and a run with more
//! bytes than may wait in `WIDE_WRITES`.

ghost use Rattle.std.specs.Prelude.{◌≡◌, ◌≤◌, [], IfSome, length, map};
ghost use Rattle.round_print.specs.Prints.{KeysRise, KeysUpTo, head_kept};
ghost use Rattle.round_print.specs.Rounds.{AreRising};

use Horizon::{All, Start, To};
use line_holes::Hole;
use page_pool::{Lane, Pool};
use round_print::{head_kept, print_round};
use std::alloc::{AllocError, Global};
use std::test::Fail;
use time_merge::Horizon;
use tournament_tree::TournamentTree;
use trace_outside::{Failed, MemSink, Pending, Sink};
use trace_samples::layout;

/// A line that is kept: its key, its text and its hole.
type Kept = (u64, &'static str, Option<Hole>);

/// The lines of processors 3 and 7.
type Lines = [&'static [Kept]; 2];

const LINES: Lines = [
    &[
        (10, "a", None),
        (30, "b", None),
        (30, "c", None),
        (50, "d", None),
    ],
    &[(20, "e", None), (30, "f", None), (40, "g", None)],
];

const HOLED: Lines = [
    &[
        (10, "a1\n", Some(Hole { place: 2, time: 10 })),
        (30, "b\n", None),
        (50, "c\n", Some(Hole { place: 0, time: 5 })),
    ],
    &[
        (20, "d2\n", Some(Hole { place: 2, time: 17 })),
        (40, "e4\n", Some(Hole { place: 3, time: 40 })),
    ],
];

// Lines that come one after another, and lines of both processors at one key. What the first processor keeps after its run is
// moved to the front of its region.
const RUNS: Lines = [
    &[
        (10, "a\n", None),
        (11, "b\n", None),
        (12, "c\n", None),
        (20, "d\n", None),
        (20, "e\n", None),
        (21, "f\n", None),
    ],
    &[
        (20, "g\n", None),
        (20, "h\n", None),
        (25, "i\n", None),
        (26, "j\n", None),
    ],
];

// A run of the second processor up to a key of the first.
const BEFORE: Lines = [
    &[(20, "a", None)],
    &[
        (10, "b", None),
        (11, "c", None),
        (20, "d", None),
        (20, "e", None),
    ],
];

const FROM_NOTHING: Lines = [
    &[(0, "a", None), (0, "b", None), (1, "c", None)],
    &[(0, "d", None), (0, "e", None)],
];

// Holes before, in and after runs.
const HOLED_RUNS: Lines = [
    &[
        (1, "a", Some(Hole { place: 1, time: 1 })),
        (2, "b", None),
        (3, "c", None),
        (4, "d", Some(Hole { place: 0, time: 4 })),
        (5, "e", None),
        (6, "f", None),
        (7, "g", Some(Hole { place: 1, time: 9 })),
    ],
    &[(8, "h", None), (9, "i", Some(Hole { place: 1, time: 7 }))],
];

const WIDE: Kept = (
    5,
    "A line of 456 bytes, of which 146, as many as a region keeps, are more than what may wait. abcdefghijklmnopqrstuvwxyzabcdefghijklmnopqrstuvwxyzabcdefghijklmnopqrstuvwxyzabcdefghijklmnopqrstuvwxyzabcdefghijklmnopqrstuvwxyzabcdefghijklmnopqrstuvwxyzabcdefghijklmnopqrstuvwxyzabcdefghijklmnopqrstuvwxyzabcdefghijklmnopqrstuvwxyzabcdefghijklmnopqrstuvwxyzabcdefghijklmnopqrstuvwxyzabcdefghijklmnopqrstuvwxyzabcdefghijklmnopqrstuvwxyzabcdefghijklmnopqrstuvwxyz\n",
    None,
);

const MANY: Lines = [&[WIDE; 146], &[(5, "z", None)]];

// A run up to a hole.
const HOLED_BEHIND: Lines = [
    &[
        (1, "a", None),
        (2, "b", None),
        (3, "c", Some(Hole { place: 1, time: 3 })),
        (4, "d", None),
    ],
    &[(5, "e", Some(Hole { place: 0, time: 4 }))],
];

// Copies the text to the front of the bytes, as far as there is room.
fn copy(into: &mut [u8], text: &[u8]) -> u32 {
    let count = into.len().min(text.len());
    into[..count].copy_from_slice(&text[..count]);
    count.min(999) as u32
}

// A hole that is in a line of this length.
fn hole_in(hole: Option<Hole>, len: u32) -> Option<Hole>
    ensures { IfSome result (λ hole. hole.place ≤ len) }
{
    match hole {
        Some(hole) if hole.place <= len => Some(hole),
        _ => None,
    }
}

fn keep(lane: &mut Lane, last: u64, key: u64, text: &[u8], hole: Option<Hole>)
    requires not_before { last ≤ key }
    requires rises { KeysRise lane.old }
    requires up_to { KeysUpTo last lane.old }
    ensures rises { KeysRise lane.new }
    ensures up_to { KeysUpTo key lane.new }
    ensures cpu { lane.new.cpu ≡ lane.old.cpu }
{
    let len = copy(lane.region.free(), text);
    let hole = hole_in(hole, len);
    lane.region.put_line(key, len, hole);
}

fn fill_lane(lane: &mut Lane, cpu: u32, lines: &[Kept])
    ensures rises { KeysRise lane.new }
    ensures cpu { lane.new.cpu ≡ cpu }
{
    lane.region.clear();
    lane.cpu = cpu;
    let mut last = 0_u64;
    for line in lines {
        let (at, text, hole) = *line;
        let key = last.max(at);
        keep(lane, last, key, text.as_bytes(), hole);
        last = key;
    }
}

fn fill(lanes: &mut [Lane], lines: &Lines)
    requires { length lanes.old ≡ 2 }
    ensures { AreRising lanes.new }
{
    fill_lane(&mut lanes[0], 3, lines[0]);
    fill_lane(&mut lanes[1], 7, lines[1]);
}

// Brings a tree in step with the lanes.
fn take_heads(lanes: &[Lane], heads: &mut TournamentTree)
    requires { length heads.old ≡ length lanes.now }
    ensures { heads.new ≡ map head_kept lanes.now }
{
    for i in 0..lanes.len() {
        heads.set(i, head_kept(&lanes[i]));
    }
}

fn kept(lanes: &[Lane]) -> (u32, u32)
    requires two { length lanes.now ≡ 2 }
{
    (lanes[0].region.lines(), lanes[1].region.lines())
}

fn print_rounds<O: Sink>(
    horizons: &[Horizon],
    lanes: &mut [Lane],
    heads: &mut TournamentTree,
    moved: &mut [bool],
    last: &mut Option<u64>,
    pending: &mut Pending,
    out: &mut O,
) -> Result<(), Failed>
    requires rising { AreRising lanes.old }
    requires heads { heads.old ≡ map head_kept lanes.old }
    requires marks { length moved.old ≡ length lanes.old }
    requires empty { pending.old ≡ [] }
{
    for horizon in horizons {
        match print_round(horizon, lanes, heads, moved, last, pending, out) {
            Ok(()) => {}
            Err(failed) => return Err(failed),
        }
    }
    Ok(())
}

/// What rounds leave: the last time, how many lines each lane keeps, and which lanes are dirty.
#[derive(Clone, Copy, Debug, PartialEq, Eq)]
struct Left {
    last: Option<u64>,
    lines: (u32, u32),
    moved: (bool, bool),
}

// Prints rounds over lanes with these lines, in regions of `room` bytes, all clean. What they leave, where no write failed.
fn prints(
    alloc: Global,
    room: u32,
    lines: &Lines,
    rounds: &[Horizon],
    last: Option<u64>,
    out: &mut MemSink,
) -> Result<Option<Left>, AllocError> {
    let mut pool = Pool::new(alloc, &layout(), 2, room)?;
    let lanes = pool.lanes();
    fill(lanes, lines);
    let mut heads = TournamentTree::new(alloc, 2)?;
    take_heads(lanes, &mut heads);
    let mut moved = [false; 2];
    let mut pending = Pending::new(alloc)?;
    let mut time = last;
    match print_rounds(
        rounds,
        lanes,
        &mut heads,
        &mut moved,
        &mut time,
        &mut pending,
        out,
    ) {
        Ok(()) => Ok(Some(Left {
            last: time,
            lines: kept(lanes),
            moved: (moved[0], moved[1]),
        })),
        Err(Failed) => Ok(None),
    }
}

/// A round: the lines, its horizon, the last time before it, what it prints, the last time after it, and how many lines the
/// lanes then keep.
type Round = (
    Lines,
    Horizon,
    Option<u64>,
    &'static str,
    Option<u64>,
    (u32, u32),
);

const HORIZONS: &[Round] = &[
    (LINES, Start(3), None, "", None, (4, 3)),
    (LINES, To(9, 9), None, "", None, (4, 3)),
    (LINES, To(10, 3), None, "a", None, (3, 3)),
    (LINES, To(20, 6), None, "a", None, (3, 3)),
    (LINES, To(20, 7), None, "ae", None, (3, 2)),
    (LINES, To(30, 3), None, "aebc", None, (1, 2)),
    (LINES, To(30, 7), None, "aebcf", None, (1, 1)),
    (LINES, To(49, 9), None, "aebcfg", None, (1, 0)),
    (LINES, All, None, "aebcfgd", None, (0, 0)),
    // holes are filled from the line before
    (HOLED, To(10, 3), None, "a1\n", Some(10), (2, 2)),
    (HOLED, To(20, 7), None, "a1\nd2 (+7)\n", Some(17), (2, 1)),
    (
        HOLED,
        To(30, 7),
        Some(12),
        "a1 (-2)\nd2 (+7)\nb\n",
        Some(17),
        (1, 1),
    ),
    (
        HOLED,
        All,
        None,
        "a1\nd2 (+7)\nb\ne4\n (+23) (-35)c\n",
        Some(5),
        (0, 0),
    ),
    (HOLED, Start(3), Some(9), "", Some(9), (3, 2)),
    // several lines of a processor at once
    (RUNS, To(11, 9), None, "a\nb\n", None, (4, 4)),
    (RUNS, To(12, 2), None, "a\nb\n", None, (4, 4)),
    (RUNS, To(20, 2), None, "a\nb\nc\n", None, (3, 4)),
    (RUNS, To(20, 6), None, "a\nb\nc\nd\ne\n", None, (1, 4)),
    (RUNS, To(20, 7), None, "a\nb\nc\nd\ne\ng\nh\n", None, (1, 2)),
    (
        RUNS,
        To(25, 9),
        None,
        "a\nb\nc\nd\ne\ng\nh\nf\ni\n",
        None,
        (0, 1),
    ),
    (BEFORE, To(19, 9), None, "bc", None, (1, 2)),
    (BEFORE, All, None, "bcade", None, (0, 0)),
    (FROM_NOTHING, To(0, 2), None, "", None, (3, 2)),
    (FROM_NOTHING, To(0, 3), None, "ab", None, (1, 2)),
    (FROM_NOTHING, To(0, 7), None, "abde", None, (1, 0)),
    (
        HOLED_RUNS,
        All,
        None,
        "abc (+3)defg (+5)hi (-2)",
        Some(7),
        (0, 0),
    ),
    (HOLED_BEHIND, All, None, "abcd (+1)e", Some(4), (0, 0)),
    (
        HOLED_RUNS,
        To(5, 3),
        Some(3),
        "a (-2)bc (+3)de",
        Some(4),
        (2, 2),
    ),
];

fn is_printed(alloc: Global, round: &Round) -> Result<bool, AllocError> {
    let (lines, horizon, last, text, now, left) = *round;
    let mut out = MemSink::new(alloc);
    let ended = prints(alloc, 16, &lines, &[horizon], last, &mut out)?;
    // A lane is dirty where it keeps fewer lines.
    let wanted = Left {
        last: now,
        lines: left,
        moved: (
            u64::from(left.0) < lines[0].len() as u64,
            u64::from(left.1) < lines[1].len() as u64,
        ),
    };
    Ok(ended == Some(wanted) && out.bytes() == text.as_bytes())
}

#[test]
fn lines_up_to_a_horizon(rt: HostRuntime) -> Result<(), Fail> {
    for round in HORIZONS {
        assert!(rt; is_printed(rt.alloc(), round)?, "{}", round.3);
    }
    Ok(())
}

const ROUNDS: &[Horizon] = &[To(10, 3), To(30, 3), All];

/// The lines, how many bytes a write takes, from which write on the sink fails, whether one of those rounds does, what it took, and
/// how many writes there were: one for each round where a write takes all, up to the first that fails.
type Written = (Lines, u32, u64, bool, &'static str, u64);

const WRITES: &[Written] = &[
    (LINES, 99, 4, false, "aebcfgd", 3),
    (LINES, 99, 3, true, "aebc", 3),
    (LINES, 99, 2, true, "a", 2),
    (LINES, 99, 1, true, "", 1),
    (RUNS, 1, 8, true, "a\nb\nc\nd", 8),
    (RUNS, 99, 3, false, "a\nb\nc\nd\ne\ng\nh\nf\ni\nj\n", 2),
];

fn fails_so(alloc: Global, row: &Written) -> Result<bool, AllocError> {
    let (lines, short, from, fails, text, writes) = *row;
    let mut out = MemSink::new(alloc);
    out.short(short);
    out.fail_from(from);
    let ended = prints(alloc, 16, &lines, ROUNDS, None, &mut out)?;
    let is_told = out.bytes() == text.as_bytes() && out.writes() == writes;
    Ok(ended.is_none() == fails && is_told && out.faults() == u64::from(fails))
}

#[test]
fn one_round_behind_another(rt: HostRuntime) -> Result<(), Fail> {
    for row in WRITES {
        assert!(rt; fails_so(rt.alloc(), row)?, "{}", row.4);
    }
    Ok(())
}

/// How many bytes a write takes, from which write on the sink fails, how many bytes it took, and how many writes there were.
const WIDE_WRITES: &[(u32, u64, usize, u64)] = &[(99_999, 3, 66_577, 2), (1000, 3, 2000, 3)];

fn takes_so(alloc: Global, row: &(u32, u64, usize, u64)) -> Result<bool, AllocError> {
    let (short, from, count, writes) = *row;
    let mut out = MemSink::new(alloc);
    out.short(short);
    out.fail_from(from);
    prints(alloc, 66_576, &MANY, &[All], None, &mut out)?;
    let front = out.bytes().get(..456);
    Ok(front == Some(WIDE.1.as_bytes()) && out.bytes().len() == count && out.writes() == writes)
}

// Its lines are written as they lie in their region.
#[test]
fn a_run_with_more_bytes_than_may_wait(rt: HostRuntime) -> Result<(), Fail> {
    for row in WIDE_WRITES {
        assert!(rt; takes_so(rt.alloc(), row)?, "{}", row.2);
    }
    Ok(())
}
