//! Rows of texts, and what is read in them: a kind of text, the text, or several with ` ; ` between them, and after ` => ` what
//! each comes to.

use crate::{directives, literals, tokens, trees};
use std::alloc::{AllocError, Global};
use std::process::Abort;
use std::test::Fail;

/// Appends a piece to a text so many times.
pub(crate) fn put_often(text: &mut Vec<u8>, piece: &str, count: u32) -> Result<(), AllocError> {
    for _ in 0..count {
        text.extend_from_slice(piece.as_bytes())?;
    }
    Ok(())
}

fn joined(
    alloc: Global,
    front: &str,
    piece: &str,
    count: u32,
    end: &str,
) -> Result<Vec<u8>, AllocError> {
    let mut text = front.as_bytes().to_vec(alloc)?;
    put_often(&mut text, piece, count)?;
    text.extend_from_slice(end.as_bytes())?;
    Ok(text)
}

/// The text of a row that has so many of a piece between a front and an end: `count|front|piece|end`.
pub(crate) fn repeated(alloc: Global, text: &str) -> Result<Vec<u8>, AllocError> {
    let (count, rest) = text.split_once('|').unwrap_or(("", ""));
    let (front, rest) = rest.split_once('|').unwrap_or(("", ""));
    let (piece, end) = rest.split_once('|').unwrap_or(("", ""));
    let count = count.parse::<u32>().unwrap_or(0);
    joined(alloc, front, piece, count, end)
}

fn told(alloc: Global, kind: &str, text: &str) -> Result<Vec<u8>, Fail> {
    match kind {
        "outline" | "bytes" | "tokens" => tokens::told(alloc, kind, text),
        "count" | "long-count" => directives::told(alloc, kind, text),
        "trees" | "fmt" | "narrow-fmt" | "nested" | "sizes" => trees::told(alloc, kind, text),
        _ => literals::told(alloc, kind, text),
    }
}

fn holds(rt: &impl Abort, alloc: Global, row: &str) -> Result<(), Fail> {
    let (kind, rest) = row.split_once(' ').unwrap_or(("", ""));
    let (texts, expected) = rest.split_once(" => ").unwrap_or(("", "no row"));
    for text in texts.split(" ; ") {
        let found = told(alloc, kind, text)?;
        assert!(rt; found.as_slice() == expected.as_bytes(), "{row}");
    }
    Ok(())
}

#[test]
fn texts_are_read_as_the_rows_say(rt: HostRuntime) -> Result<(), Fail> {
    for rows in [literals::ROWS, directives::ROWS, tokens::ROWS, trees::ROWS] {
        for row in rows.lines() {
            holds(&rt, rt.alloc(), row)?;
        }
    }
    Ok(())
}
