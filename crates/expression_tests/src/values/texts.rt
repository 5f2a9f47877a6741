// The texts of flags, symbols and bytes.

use super::samples::{PAYLOAD, boxed, field, int, rec};
use fmt_eval::{bytes, put_text};
use fmt_expr::{Entry, Expr};
use std::alloc::{AllocError, Global};
use trace_base::{ByteText, FieldKind, Tail};

type Rows<'a> = &'a [(u64, &'a [u8])];

const NONE: Rows<'static> = &[];

const TWO: Rows<'static> = &[(1, b"A"), (4, b"C")];

const OVERLAPPING: Rows<'static> = &[(1, b"A"), (5, b"X")];

const AGAIN: Rows<'static> = &[(1, b"A"), (4, b"C"), (4, b"D")];

const ZEROS: Rows<'static> = &[(0, b"none"), (0, b"again")];

const ZERO_FIRST: Rows<'static> = &[(0, b"none"), (1, b"A"), (2, b"B")];

const EMPTY_TEXT: Rows<'static> = &[(1, b""), (0, b"none")];

const ALL: Rows<'static> = &[(0xffffffffffffffff, b"all")];

fn text_is(expr: &Expr, text: &[u8]) -> bool {
    let mut room = [0; 40];
    let mut tail = Tail::new(&mut room);
    put_text(expr, &rec(&PAYLOAD), &mut tail);
    tail.kept() == text && tail.total() == text.len() as u64
}

fn entries(alloc: Global, rows: Rows<'_>) -> Result<Vec<Entry>, AllocError> {
    let mut entries = Vec::new(alloc);
    for row in rows {
        entries.push(Entry {
            value: int(row.0),
            text: ByteText::copy(alloc, row.1)?,
        })?;
    }
    Ok(entries)
}

/// Whether a value's flags and its symbol have these texts.
fn value_has(
    alloc: Global,
    value: u64,
    rows: Rows<'_>,
    flags: &[u8],
    symbol: &[u8],
) -> Result<bool, AllocError> {
    let flagged = Expr::Flags {
        value: boxed(alloc, int(value))?,
        between: ByteText::copy(alloc, b"|")?,
        entries: entries(alloc, rows)?,
    };
    let named = Expr::Symbolic {
        value: boxed(alloc, int(value))?,
        entries: entries(alloc, rows)?,
    };
    Ok(text_is(&flagged, flags) && text_is(&named, symbol))
}

#[test]
fn bits_that_are_left_are_hexadecimal(rt: HostRuntime) -> Result<(), AllocError> {
    let alloc = rt.alloc();
    assert!(rt; value_has(alloc, 13, TWO, b"A|C|0x8", b"0xd")?);
    assert!(rt; value_has(alloc, 13, OVERLAPPING, b"A|0xc", b"0xd")?);
    assert!(rt; value_has(alloc, 4, AGAIN, b"C", b"C")?);
    assert!(rt; value_has(alloc, 16, TWO, b"0x10", b"0x10")?);
    Ok(())
}

#[test]
fn zero_has_the_first_text_of_zero(rt: HostRuntime) -> Result<(), AllocError> {
    let alloc = rt.alloc();
    assert!(rt; value_has(alloc, 0, ZEROS, b"none", b"none")?);
    assert!(rt; value_has(alloc, 3, ZERO_FIRST, b"A|B", b"0x3")?);
    assert!(rt; value_has(alloc, 1, EMPTY_TEXT, b"", b"")?);
    assert!(rt; value_has(alloc, 0, TWO, b"", b"0x0")?);
    Ok(())
}

#[test]
fn all_bits_are_one_value(rt: HostRuntime) -> Result<(), AllocError> {
    let alloc = rt.alloc();
    assert!(rt; value_has(alloc, u64::MAX, ALL, b"all", b"all")?);
    assert!(rt;
        value_has(
            alloc,
            u64::MAX,
            NONE,
            b"0xffffffffffffffff",
            b"0xffffffffffffffff"
        )?
    );
    Ok(())
}

/// Whether so many of the first five bytes have these digits.
fn hex_is(alloc: Global, count: u64, text: &[u8]) -> Result<bool, AllocError> {
    let field = field(alloc, FieldKind::Text, (0, 5), false, 1)?;
    let expr = Expr::Hex {
        bytes: boxed(alloc, Expr::FieldText { field })?,
        count: boxed(alloc, int(count))?,
    };
    Ok(text_is(&expr, text))
}

#[test]
fn bytes_are_shown_in_hexadecimal(rt: HostRuntime) -> Result<(), AllocError> {
    let alloc = rt.alloc();
    assert!(rt; hex_is(alloc, 3, b"61 62 00")?);
    assert!(rt; hex_is(alloc, 0, b"")?);
    assert!(rt; hex_is(alloc, u64::MAX, b"")?);
    assert!(rt; hex_is(alloc, 9, b"61 62 00 64 ff")?);
    Ok(())
}

/// Whether so many elements of a size, of the first five bytes, have this text.
fn array_is(alloc: Global, count: u64, size: u64, text: &[u8]) -> Result<bool, AllocError> {
    let field = field(alloc, FieldKind::Bytes, (0, 5), false, 1)?;
    let expr = Expr::Array {
        bytes: boxed(alloc, Expr::FieldBytes { field })?,
        count: boxed(alloc, int(count))?,
        size: boxed(alloc, int(size))?,
    };
    Ok(text_is(&expr, text))
}

#[test]
fn arrays_have_their_whole_elements(rt: HostRuntime) -> Result<(), AllocError> {
    let alloc = rt.alloc();
    assert!(rt; array_is(alloc, 2, 1, b"{0x61,0x62}")?);
    assert!(rt; array_is(alloc, 2, 2, b"{0x6261,0x6400}")?);
    assert!(rt; array_is(alloc, 9, 2, b"{0x6261,0x6400}")?);
    assert!(rt; array_is(alloc, 1, 4, b"{0x64006261}")?);
    Ok(())
}

#[test]
fn arrays_may_have_no_element(rt: HostRuntime) -> Result<(), AllocError> {
    let alloc = rt.alloc();
    assert!(rt; array_is(alloc, 1, 8, b"{}")?);
    assert!(rt; array_is(alloc, 2, 3, b"{}")?);
    assert!(rt; array_is(alloc, 2, u64::MAX, b"{}")?);
    assert!(rt; array_is(alloc, u64::MAX, 1, b"{}")?);
    Ok(())
}

#[test]
fn texts_end_at_their_nul(rt: HostRuntime) -> Result<(), AllocError> {
    let expr = Expr::FieldText {
        field: field(rt.alloc(), FieldKind::Text, (0, 5), false, 1)?,
    };
    assert!(rt; text_is(&expr, b"ab"));
    assert_eq!(rt; bytes(&expr, &rec(&PAYLOAD)), b"ab\0d\xff".as_slice());
    Ok(())
}
