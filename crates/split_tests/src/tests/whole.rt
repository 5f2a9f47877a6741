// Whole traces, cut by the words of a command line, and read back.

use super::splits::{put_end, put_file, split_into, words_of};
use super::traces::file_of;
use std::alloc::Global;
use std::test::Fail;
use trace_args::{Command, read_words};
use trace_outside::MemFolder;
use trace_samples::Page;
use trace_samples::Page::{Lossy, Of};

const NONE: &[&[Page]] = &[];

const NO_PAGES: &[&[Page]] = &[&[]];

const FIVE: &[&[Page]] = &[&[Of(&[10_000, 20_000, 30_000, 40_000, 50_000])]];

const LATE: &[&[Page]] = &[&[Of(&[999_999_500])]];

const TWO: &[&[Page]] = &[
    &[Of(&[10_000, 30_000]), Of(&[50_000])],
    &[Of(&[20_000]), Of(&[30_000, 40_000])],
];

const APART: &[&[Page]] = &[
    &[Of(&[1_000_000, 2_000_000])],
    &[Of(&[1_500_000, 2_200_000])],
];

const FALLS: &[&[Page]] = &[&[Of(&[5_000]), Of(&[3_000])], &[Of(&[4_000, 5_000])]];

const LOST: &[&[Page]] = &[&[Lossy(1_000, Some(3), &[]), Of(&[2_000])]];

const LOST_LAST: &[&[Page]] = &[&[Of(&[10_000]), Lossy(11_000, None, &[])]];

const LOST_WITHIN: &[&[Page]] = &[&[Of(&[10_000]), Lossy(11_000, Some(2), &[12_000])]];

const ENDS_IN_ONE: &[&[Page]] = &[&[Of(&[10_000, 30_000])], &[Of(&[20_000]), Page::Malformed]];

const ENDS_AT_ONCE: &[&[Page]] = &[&[Page::Malformed], &[Of(&[1_000])]];

// Each processor goes on for several events before the other has its turn.
const VISITS: &[&[Page]] = &[
    &[
        Of(&[10_000, 20_000, 30_000, 40_000, 50_000, 60_000]),
        Of(&[90_000]),
    ],
    &[Of(&[35_000, 36_000, 37_000, 38_000, 39_000, 70_000, 80_000])],
];

const TIES: &[&[Page]] = &[
    &[Of(&[10_000, 20_000, 30_000, 40_000, 50_000])],
    &[Of(&[30_000, 30_000, 31_000, 40_000, 60_000])],
];

// The first processor's second sub-buffer goes back in time.
const BACK: &[&[Page]] = &[
    &[Of(&[50_000]), Of(&[10_000, 20_000, 30_000, 60_000, 70_000])],
    &[Of(&[45_000, 55_000, 65_000])],
];

const HALVES: &[&[Page]] = &[&[Of(&[10_000, 20_000, 36_000, 36_499, 36_500, 40_000])]];

const LOST_BETWEEN: &[&[Page]] = &[&[
    Of(&[10_000, 20_000, 30_000]),
    Lossy(40_000, Some(2), &[41_000, 42_000, 43_000]),
]];

fn trace_of(name: &str) -> &'static [&'static [Page<'static>]] {
    match name {
        "five" => FIVE,
        "no sub-buffer" => NO_PAGES,
        "late" => LATE,
        "two" => TWO,
        "apart" => APART,
        "falls" => FALLS,
        "lost" => LOST,
        "lost last" => LOST_LAST,
        "lost within" => LOST_WITHIN,
        "lost between" => LOST_BETWEEN,
        "visits" => VISITS,
        "ties" => TIES,
        "back" => BACK,
        "halves" => HALVES,
        "ends in one" => ENDS_IN_ONE,
        "ends at once" => ENDS_AT_ONCE,
        _ => NONE,
    }
}

/// A row a line: the processors' sub-buffers, the words of the split, the items of the new files, and how it ends.
///
/// `|` follows each processor's items of a file, `/` the file.
const ROWS: &str = "\
five;;10 20 30 40 50 |/;done
five;-r;10 20 30 40 50 |/;done
five;-e 2 -r;10 20 |/30 40 |/50 |/;done
five;-e 2;10 20 |/;done
five;-u 15 -r;10 20 |/30 40 |/50 |/;done
five;-e 2 -r 0.000020 0.000040;20 30 |/40 |/;done
five;0.000020 0.000030;20 30 |/;done
five;0.000040 0.000020;|/;done
five;-r 0.000060;|/;done
five;-C 7;|/;done
no sub-buffer;;|/;done
no processor;;/;done
late;1.000000;999999.500 |/;done
late;1.000000000;|/;done
two;;10 30 50 |20 30 40 |/;done
two;-e 2 -r;10 |20 |/30 |30 |/50 |40 |/;done
two;-e 3 -r;10 30 |20 |/50 |30 40 |/;done
two;-e 2 -r -C 1;|20 30 |/|40 |/;done
two;-c -e 2 -r;10 30 |20 30 |/50 |40 |/;done
two;-c -e 2;10 30 |20 30 |/;done
two;-c -u 11 -r;10 |20 30 |/30 |40 |/50 ||/;done
two;-c -r;10 30 50 |20 30 40 |/;done
apart;-c -m 1;1000 |1500 2200 |/;done
falls;-e 1 -r;|4 |/5 ||/3 ||/|5 |/;done
lost;;!1#3 2 |/;done
lost last;-e 1 -r;10 |/!11 |/;done
lost last;-e 1;10 |/;done
lost within;-u 2 -r;10 !11#2 |/12 |/;done
lost between;-e 4 -r;10 20 30 !40#2 41 |/42 43 |/;done
lost between;-e 5 -r;10 20 30 !40#2 41 42 |/43 |/;done
visits;-e 4 -r;10 20 30 |35 |/|36 37 38 39 |/40 50 60 |70 |/90 |80 |/;done
visits;-e 5 -r;10 20 30 |35 36 |/40 50 |37 38 39 |/60 90 |70 80 |/;done
visits;-u 3 -r 0.000035 0.000050;|35 36 37 |/40 |38 39 |/50 ||/;done
visits;0 0.000037;10 20 30 |35 36 37 |/;done
visits;0.000036 0.000050;40 50 |36 37 38 39 |/;done
visits;-e 2 -r 0.000036 0.000038;|36 37 |/|38 |/;done
visits;-C 1 -e 3 -r;|35 36 37 |/|38 39 70 |/|80 |/;done
visits;-c -e 3 -r;10 20 30 |35 36 37 |/40 50 60 |38 39 70 |/90 |80 |/;done
ties;-e 4 -r;10 20 30 |30 |/40 |30 31 40 |/50 |60 |/;done
ties;-e 7 -r;10 20 30 40 |30 30 31 |/50 |40 60 |/;done
ties;0 0.000030;10 20 30 |30 30 |/;done
back;-e 3 -r;50 10 |45 |/20 30 |55 |/60 70 |65 |/;done
back;-u 6 -r;50 10 20 30 |45 |/60 |55 |/70 |65 |/;done
back;0 0.000050;50 10 20 30 |45 |/;done
halves;0 0.000036;10 20 36 36.499 |/;done
halves;0 0.000036498;10 20 36 |/;done
halves;0 0.000036499;10 20 36 36.499 |/;done
halves;-e 4 -r 0.000020;20 36 36.499 36.500 |/40 |/;done
ends in one;;10 |20 |/;malformed 1 1
ends in one;-e 1 -r;10 ||/|20 |/;malformed 1 1
ends in one;-e 1;10 ||/;done
ends in one;-e 2;10 |20 |/;done
ends in one;-e 3;10 |20 |/;malformed 1 1
ends in one;0 0.000015;10 ||/;done
ends in one;0 0.000025;10 |20 |/;malformed 1 1
ends in one;0.000015;|20 |/;malformed 1 1
ends in one;-C 0;10 30 ||/;done
ends in one;-c -e 2 -r;10 30 |20 |/;malformed 1 1
ends in one;-c -e 1 -r;10 |20 |/30 ||/;malformed 1 1
ends in one;-c -e 1;10 |20 |/;done
ends at once;;||/;malformed 0 0
ends at once;-C 1;|1 |/;done
ends at once;-c -u 5 -r;|1 |/;malformed 0 0
";

// The items of all new files, in the order of their numbers.
fn put_files(alloc: Global, text: &mut String, folder: &MemFolder) -> Result<(), Fail> {
    for name in ["part.1", "part.2", "part.3", "part.4", "part.5", "part.6"] {
        if let Some(bytes) = folder.get(name) {
            put_file(alloc, text, bytes)?;
        }
    }
    Ok(())
}

// The new files of a trace by these words, and how the split ends.
fn text_of(alloc: Global, trace: &str, line: &str) -> Result<String, Fail> {
    let mut text = String::new(alloc);
    let words = words_of(alloc, line)?;
    let Ok(Command::Split(words)) = read_words(alloc, &words) else {
        return Ok(text);
    };
    let mut folder = MemFolder::new(alloc);
    let bytes = file_of(alloc, trace_of(trace))?;
    let end = split_into(alloc, &words, bytes, &mut folder)?;
    put_files(alloc, &mut text, &folder)?;
    text.push_str(";")?;
    put_end(&mut text, end)?;
    Ok(text)
}

fn agrees(alloc: Global, row: &str) -> Result<bool, Fail> {
    let Some((trace, row)) = row.split_once(';') else {
        return Ok(false);
    };
    let Some((words, told)) = row.split_once(';') else {
        return Ok(false);
    };
    Ok(text_of(alloc, trace, words)?.as_str() == told)
}

#[test]
fn pieces_read_back(rt: HostRuntime) -> Result<(), Fail> {
    for row in ROWS.lines() {
        assert!(rt; agrees(rt.alloc(), row)?, "{row}");
    }
    Ok(())
}
