// Pieces of two processors' traces: measured, packed, and told from the bytes.

ghost use Rattle.std.specs.Prelude.{◌≡◌, All, length};
ghost use Rattle.trace_base.specs.declared.layout.Layout.{Layout};
ghost use Rattle.subpage.specs.Arrangement.{CpusRise};
ghost use Rattle.time_merge.specs.LaneRows.{HasLayout, parts_of};

use super::items::put_sub_buffers;
use super::lanes::set_lanes;
use super::watched::{Then, WatchedFile};
use PieceEnd::{Done, Full};
use PieceUnit::{All, Events, Nanos};
use page_pool::Lane;
use split_passes::{LaneList, PieceEnd};
use split_pieces::Gauge;
use std::alloc::Global;
use std::test::Fail;
use subpage::CutPlace;
use time_merge::{End, IoFault};
use trace_base::{Layout, Part};
use trace_outside::{Failed, File, MemSink, Sink};
use trace_samples::Page::{Lossy, Malformed, Of};
use trace_samples::{PAGE, Page, layout, put_pages};
use word_values::{Moment, PieceUnit};

/// A row a line: the sub-buffers of two processors, what a piece takes, the items of all pieces, why the last one ends, and
/// how many sub-buffers are read.
///
/// `|` follows each processor's items of a piece, `/` the piece.
const ROWS: &str = "\
five;all;10 20 30 40 50 ||/;done 2
five;events 2;10 20 ||/30 40 ||/50 ||/;done 2
five;nanos 15;10 20 ||/30 40 ||/50 ||/;done 2
five;events 2 to 35;10 20 ||/30 ||/;past 1
five;to 9;||/;past 1
none;all;||/;done 0
late;events 1;|7 |/;done 3
two;all;10 30 50 |20 30 40 |/;done 8
two;events 2;10 |20 |/30 |30 |/50 |40 |/;done 10
visits;all;10 20 30 40 50 60 90 |35 36 37 38 39 70 80 |/;done 6
visits;events 2;10 20 ||/30 |35 |/|36 37 |/|38 39 |/40 50 ||/60 |70 |/90 |80 |/;done 7
visits;nanos 15;10 20 ||/30 40 |35 36 37 38 39 |/50 60 ||/|70 80 |/90 ||/;done 7
loss;nanos 2;10 !11#2 |11 |/12 ||/;done 7
loss;events 1;10 ||/!11#2 |11 |/12 ||/;done 7
cut;all;10 |20 |/;malformed 1 1 4
cut;events 1;10 ||/|20 |/;malformed 1 1 4
turns;all;10 12 14 16 18 20 30 |11 13 15 17 19 21 22 |/;done 8
turns;events 4;10 12 |11 13 |/14 16 |15 17 |/18 20 |19 21 |/30 |22 |/;done 10
turns;nanos 5;10 12 14 |11 13 |/16 18 |15 17 19 |/20 |21 22 |/30 ||/;done 9
turns;to 15;10 12 14 |11 13 |/;past 2
ties;all;10 20 30 40 50 |10 20 30 40 50 |/;done 4
ties;events 3;10 20 |10 |/30 |20 30 |/40 50 |40 |/|50 |/;done 4
back;all;50 60 10 20 70 |40 55 61 65 |/;done 6
back;events 4;50 60 |40 55 |/10 20 |61 65 |/70 ||/;done 7
mixed;all;10 12 14 !16#2 18 20 |11 13 15 17 19 21 |/;done 6
mixed;events 5;10 12 14 |11 13 |/!16#2 18 20 |15 17 19 |/|21 |/;done 7
turns cut;all;10 12 14 16 18 20 |11 13 15 17 19 21 |/;malformed 1 1 7
cut early;all;10 12 |11 13 |/;malformed 1 1 4
";

const NONE: [&[Page]; 2] = [&[], &[]];

const FIVE: [&[Page]; 2] = [&[Of(&[10_000, 20_000, 30_000, 40_000, 50_000])], &[]];

const LATE: [&[Page]; 2] = [&[], &[Of(&[]), Of(&[7_000])]];

const TWO: [&[Page]; 2] = [
    &[Of(&[10_000, 30_000]), Of(&[50_000])],
    &[Of(&[20_000]), Of(&[30_000, 40_000])],
];

const LOSS: [&[Page]; 2] = [
    &[Of(&[10_000]), Lossy(11_000, Some(2), &[12_000])],
    &[Of(&[11_000])],
];

const VISITS: [&[Page]; 2] = [
    &[
        Of(&[10_000, 20_000, 30_000, 40_000, 50_000, 60_000]),
        Of(&[90_000]),
    ],
    &[Of(&[35_000, 36_000, 37_000, 38_000, 39_000, 70_000, 80_000])],
];

const CUT: [&[Page]; 2] = [&[Of(&[10_000, 30_000])], &[Of(&[20_000]), Malformed]];

const EVEN: &[u64] = &[10_000, 12_000, 14_000, 16_000, 18_000, 20_000];

const ODD: &[u64] = &[11_000, 13_000, 15_000, 17_000, 19_000, 21_000];

// Processors that take turns: a round takes their items up to the end of a sub-buffer.
const TURNS: [&[Page]; 2] = [&[Of(EVEN), Of(&[30_000])], &[Of(ODD), Of(&[22_000])]];

const TENS: &[u64] = &[10_000, 20_000, 30_000, 40_000, 50_000];

const TIES: [&[Page]; 2] = [&[Of(TENS)], &[Of(TENS)]];

const BACK: [&[Page]; 2] = [
    &[Of(&[50_000, 60_000]), Of(&[10_000, 20_000, 70_000])],
    &[Of(&[40_000, 55_000, 61_000, 65_000])],
];

const MIXED: [&[Page]; 2] = [
    &[
        Of(&[10_000, 12_000, 14_000]),
        Lossy(16_000, Some(2), &[18_000, 20_000]),
    ],
    &[Of(ODD)],
];

const TURNS_CUT: [&[Page]; 2] = [&[Of(EVEN), Of(&[30_000])], &[Of(ODD), Malformed]];

const CUT_EARLY: [&[Page]; 2] = [&[Of(EVEN)], &[Of(&[11_000, 13_000]), Malformed]];

fn cpus_of(name: &str) -> [&'static [Page<'static>]; 2] {
    match name {
        "five" => FIVE,
        "late" => LATE,
        "two" => TWO,
        "loss" => LOSS,
        "visits" => VISITS,
        "cut" => CUT,
        "turns" => TURNS,
        "ties" => TIES,
        "back" => BACK,
        "mixed" => MIXED,
        "turns cut" => TURNS_CUT,
        "cut early" => CUT_EARLY,
        _ => NONE,
    }
}

fn unit_of(words: &str) -> PieceUnit {
    match words {
        "events 1" => Events(1),
        "events 2" | "events 2 to 35" => Events(2),
        "events 3" => Events(3),
        "events 4" => Events(4),
        "events 5" => Events(5),
        "nanos 2" => Nanos(2_000),
        "nanos 5" => Nanos(5_000),
        "nanos 15" => Nanos(15_000),
        _ => All,
    }
}

fn stop_of(words: &str) -> Option<Moment> {
    let value = match words {
        "events 2 to 35" => 35_000,
        "to 9" => 9_000,
        "to 15" => 14_500,
        _ => return None,
    };
    Some(Moment {
        micro: false,
        value,
    })
}

/// The parts of two processors: the first one's sub-buffers are followed by the other's.
pub(super) fn parts_in_row(layout: &Layout, counts: [usize; 2]) -> [(u32, Part); 2]
    ensures { CpusRise result }
{
    let page = u64::from(layout.page);
    let size = (counts[0] as u64).wrapping_mul(page);
    let other = (counts[1] as u64).wrapping_mul(page);
    let first = Part { offset: 0, size };
    let second = Part {
        offset: size,
        size: other,
    };
    [(0, first), (1, second)]
}

/// Gives two lanes the same parts.
pub(super) fn set_parts(layout: &Layout, lanes: &mut [Lane], counts: [usize; 2])
    requires two { length lanes.old ≡ 2 }
    ensures layouts { (layout : Layout) → All (HasLayout layout) lanes.old → All (HasLayout layout) lanes.new }
    ensures rise { CpusRise (parts_of lanes.new) }
{
    let parts = parts_in_row(layout, counts);
    set_lanes(lanes, 0, &[parts[0].1, parts[1].1]);
}

fn bytes_of(alloc: Global, cpus: [&[Page<'_>]; 2]) -> Result<Vec<u8>, Fail> {
    let mut bytes = Vec::new(alloc);
    for pages in cpus {
        put_pages(&mut bytes, pages)?;
    }
    Ok(bytes)
}

/// How the passes over a piece ended, and how many sub-buffers each processor's items take.
#[derive(Clone, Copy)]
pub(super) struct Passed {
    pub(super) end: PieceEnd,
    pub(super) packed: Result<End, IoFault>,
    pub(super) pages: [u64; 2],
}

// Both passes over the next piece.
pub(super) fn pass_piece<F: File, O: Sink>(
    file: &mut F,
    list: &mut LaneList,
    unit: PieceUnit,
    stop: Option<Moment>,
    page: &mut [u8],
    out: &mut O,
) -> Result<Passed, Failed>
    requires whole { length page.old ≡ list.old.layout.page }
    requires two { length list.old.all ≡ 2 }
    ensures layout { list.new.layout ≡ list.old.layout }
    ensures two { length list.new.all ≡ 2 }
{
    list.begin(file)?;
    let mut gauge = Gauge::new(unit);
    let end = list.measure(file, stop, &mut gauge)?;
    let packed = list.pack(file, page, out);
    let tallies = list.tallies();
    Ok(Passed {
        end,
        packed,
        pages: [tallies[0].pages(), tallies[1].pages()],
    })
}

// The items of a piece as it is packed.
fn put_packed(
    text: &mut String,
    layout: &Layout,
    packed: &[u8],
    passed: &Passed,
) -> Result<(), Fail>
    requires page { layout.now.page ≡ 4096 }
{
    let rest = put_sub_buffers(text, layout, packed, passed.pages[0])?;
    let rest = put_sub_buffers(text, layout, rest, passed.pages[1])?;
    if passed.packed != Ok(End::Done) || !rest.is_empty() {
        text.push_str("?")?;
    }
    text.push_str("/")?;
    Ok(())
}

// All pieces, one after the other.
fn put_pieces<F: File>(
    alloc: Global,
    layout: &Layout,
    file: &mut F,
    list: &mut LaneList,
    words: &str,
    text: &mut String,
) -> Result<PieceEnd, Fail>
    requires page { layout.now.page ≡ 4096 }
    requires same { list.old.layout ≡ layout.now }
    requires two { length list.old.all ≡ 2 }
{
    let unit = unit_of(words);
    let stop = stop_of(words);
    for _ in 0..8 {
        let mut out = MemSink::new(alloc);
        let mut page = [0; PAGE];
        let Ok(passed) = pass_piece(file, list, unit, stop, &mut page, &mut out) else {
            text.push_str("unread")?;
            return Ok(Done);
        };
        put_packed(text, layout, out.bytes(), &passed)?;
        if passed.end != Full {
            return Ok(passed.end);
        }
    }
    Ok(Full)
}

fn put_end(text: &mut String, end: PieceEnd) -> Result<(), Fail> {
    match end {
        PieceEnd::Full => text.push_str(";full")?,
        PieceEnd::Past => text.push_str(";past")?,
        PieceEnd::Done => text.push_str(";done")?,
        PieceEnd::Malformed(cut) => write!(text, ";malformed {} {}", cut.cpu, cut.page)?,
    }
    Ok(())
}

// What the two passes make of these sub-buffers.
fn text_of(alloc: Global, name: &str, words: &str) -> Result<String, Fail> {
    let cpus = cpus_of(name);
    let mut file = WatchedFile::good(bytes_of(alloc, cpus)?);
    let layout = layout();
    let parts = parts_in_row(&layout, [cpus[0].len(), cpus[1].len()]);
    let mut list = LaneList::new(alloc, &layout, &parts)?;
    let mut text = String::new(alloc);
    let end = put_pieces(alloc, &layout, &mut file, &mut list, words, &mut text)?;
    put_end(&mut text, end)?;
    let reads = file.reads / PAGE as u64;
    write!(text, " {reads}")?;
    Ok(text)
}

fn agrees(alloc: Global, row: &str) -> Result<bool, Fail> {
    let Some((name, row)) = row.split_once(';') else {
        return Ok(false);
    };
    let Some((words, told)) = row.split_once(';') else {
        return Ok(false);
    };
    Ok(text_of(alloc, name, words)?.as_str() == told)
}

#[test]
fn pieces_are_packed(rt: HostRuntime) -> Result<(), Fail> {
    for row in ROWS.lines() {
        assert!(rt; agrees(rt.alloc(), row)?, "{row}");
    }
    Ok(())
}

const THREE: [&[Page]; 2] = [&[Of(&[10, 20]), Of(&[30])], &[Of(&[15])]];

// How the passes over all items end, where so many reads are good and the sink has room for so many bytes.
fn passes(
    alloc: Global,
    reads: u64,
    then: Then,
    room: u64,
) -> Result<Result<(PieceEnd, Result<End, IoFault>), Failed>, Fail> {
    let mut file = WatchedFile::new(bytes_of(alloc, THREE)?, reads, then);
    let mut out = MemSink::new(alloc);
    out.short(1);
    out.fail_from(room.saturating_add(1));
    let layout = layout();
    let parts = parts_in_row(&layout, [THREE[0].len(), THREE[1].len()]);
    let mut list = LaneList::new(alloc, &layout, &parts)?;
    let mut page = [0; PAGE];
    match pass_piece(&mut file, &mut list, All, None, &mut page, &mut out) {
        Ok(passed) => Ok(Ok((passed.end, passed.packed))),
        Err(Failed) => Ok(Err(Failed)),
    }
}

// How many reads are good, what comes then, how many bytes there is room for, and how both passes end. There are three
// sub-buffers, each of which both passes read.
const FAULTS: &[(
    u64,
    Then,
    u64,
    Result<(PieceEnd, Result<End, IoFault>), Failed>,
)] = &[
    (6, Then::Fails, 8192, Ok((Done, Ok(End::Done)))),
    (0, Then::Fails, 8192, Err(Failed)),
    (2, Then::Fails, 8192, Err(Failed)),
    (3, Then::Fails, 8192, Ok((Done, Err(IoFault::Read)))),
    (5, Then::Fails, 8192, Ok((Done, Err(IoFault::Read)))),
    (
        3,
        Then::Zeros,
        8192,
        Ok((Done, Ok(End::Malformed(CutPlace { cpu: 0, page: 1 })))),
    ),
    (
        5,
        Then::Zeros,
        8192,
        Ok((Done, Ok(End::Malformed(CutPlace { cpu: 1, page: 0 })))),
    ),
    (6, Then::Fails, 0, Ok((Done, Err(IoFault::Write)))),
    (6, Then::Fails, 4096, Ok((Done, Err(IoFault::Write)))),
];

#[test]
fn faults_and_other_bytes(rt: HostRuntime) -> Result<(), Fail> {
    for (reads, then, room, passed) in FAULTS {
        let found = passes(rt.alloc(), *reads, *then, *room)?;
        assert!(rt; found == *passed, "{reads} reads");
    }
    Ok(())
}
