// Restorings in folders where nothing fails.

use crate::restores::told::{ALL, Data, Partial, Row, text_of};
use std::test::Fail;

const ROWS: &[Row] = &[
    Row {
        partial: Partial::Cut(83),
        files: &[("c0", Data::Event)],
        output: "out.dat",
        told: "done 8192 4096+4096",
    },
    // the rest of a sub-buffer, after which nothing stands
    Row {
        partial: Partial::Cut(83),
        files: &[("c0", Data::Event), ("c1", Data::Zeros(100))],
        output: "out.dat",
        told: "done 8292 4096+4096 8192+100",
    },
    // without command lines, and cut inside them
    Row {
        partial: Partial::Cut(75),
        files: &[("c0", Data::Event)],
        output: "out.dat",
        told: "done 8192 4096+4096",
    },
    Row {
        partial: Partial::Cut(80),
        files: &[("c0", Data::Event)],
        output: "out.dat",
        told: "truncated 80",
    },
    // empty data files, the last of which leaves the zero bytes in front of it
    Row {
        partial: Partial::Cut(83),
        files: &[("c0", Data::Zeros(0)), ("c1", Data::Rising(5))],
        output: "out.dat",
        told: "done 4101 4096+0 4096+5",
    },
    Row {
        partial: Partial::Cut(83),
        files: &[("c0", Data::Rising(5)), ("c1", Data::Zeros(0))],
        output: "out.dat",
        told: "done 8192 4096+5 8192+0",
    },
    // more than a buffer
    Row {
        partial: Partial::Cut(83),
        files: &[
            ("c0", Data::Rising(70_000)),
            ("c1", Data::Rising(65_536)),
            ("c2", Data::Rising(1)),
        ],
        output: "out.dat",
        told: "done 143361 4096+70000 77824+65536 143360+1",
    },
    // in place of a data file, and of the partial one
    Row {
        partial: Partial::Cut(83),
        files: &[("c0", Data::Event), ("c1", Data::Rising(9))],
        output: "c0",
        told: "done 8201 4096+4096 8192+9",
    },
    Row {
        partial: Partial::Cut(83),
        files: &[("c0", Data::Event)],
        output: "p.dat",
        told: "done 8192 4096+4096",
    },
    // the other byte order, larger pages, and command lines with more after them
    Row {
        partial: Partial::Big,
        files: &[("c0", Data::Event), ("c1", Data::Rising(7))],
        output: "out.dat",
        told: "done 8199 4096+4096 8192+7",
    },
    Row {
        partial: Partial::Wide,
        files: &[("c0", Data::Event), ("c1", Data::Rising(7))],
        output: "out.dat",
        told: "done 131079 65536+4096 131072+7",
    },
    // data begin at a multiple of the page, whatever the length of a sub-buffer
    Row {
        partial: Partial::Large,
        files: &[("c0", Data::Rising(8192)), ("c1", Data::Rising(7))],
        output: "out.dat",
        told: "done 12295 4096+8192 12288+7",
    },
    Row {
        partial: Partial::Longer(20),
        files: &[("c0", Data::Event)],
        output: "out.dat",
        told: "done 8192 4096+4096",
    },
    Row {
        partial: Partial::Longer(118),
        files: &[("c0", Data::Event)],
        output: "out.dat",
        told: "truncated 200",
    },
    // the first file that is missing decides, and a header that is none before the data files
    Row {
        partial: Partial::Missing,
        files: &[("c0", Data::Missing)],
        output: "out.dat",
        told: "read partial",
    },
    Row {
        partial: Partial::Cut(80),
        files: &[("c0", Data::Missing)],
        output: "out.dat",
        told: "truncated 80",
    },
    Row {
        partial: Partial::Cut(83),
        files: &[
            ("c0", Data::Event),
            ("c1", Data::Missing),
            ("c2", Data::Missing),
        ],
        output: "out.dat",
        told: "read 1",
    },
];

const ONE: &[(&str, Data)] = &[("c0", Data::Rising(3))];

#[test]
fn files_are_made(rt: HostRuntime) -> Result<(), Fail> {
    for row in ROWS {
        for most in [ALL, 1] {
            let text = text_of(rt.alloc(), row, None, most)?;
            assert!(rt; text.as_str() == row.told, "{most}: {text}");
        }
    }
    Ok(())
}

// A partial file is one where it ends before its command lines or after them, and is cut everywhere else.
#[test]
fn every_cut_of_the_partial_file(rt: HostRuntime) -> Result<(), Fail> {
    let alloc = rt.alloc();
    for count in 0..84 {
        let row = Row {
            partial: Partial::Cut(count),
            files: ONE,
            output: "out.dat",
            told: "",
        };
        let text = text_of(alloc, &row, None, ALL)?;
        let told = match count {
            75 | 83 => format!(in alloc; "done 4099 4096+3")?,
            _ => format!(in alloc; "truncated {count}")?,
        };
        assert!(rt; text.as_str() == told.as_str(), "{text}");
    }
    Ok(())
}

// The table of 256 processors reaches into a second page.
#[test]
fn as_many_files_as_may_be(rt: HostRuntime) -> Result<(), Fail> {
    const FILES: &[(&str, Data)] = &[("c0", Data::Rising(3)); 256];
    let row = Row {
        partial: Partial::Cut(75),
        files: FILES,
        output: "out.dat",
        told: "",
    };
    let text = text_of(rt.alloc(), &row, None, ALL)?;
    assert!(rt;
        text.as_str().starts_with("done 1052675 8192+3 12288+3 "),
        "{text}"
    );
    assert!(rt; text.as_str().ends_with(" 1052672+3"), "{text}");
    Ok(())
}
