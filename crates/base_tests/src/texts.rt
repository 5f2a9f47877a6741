use std::alloc::{AllocError, Global};
use std::test::Fail;
use trace_base::{
    ByteText, Field, FieldKind, FieldPlace, ListOf, Order, Words, field_named, micros, put_u16,
    put_u32, put_u64, read_u16, read_u32, read_u64, two_digits, until_nul,
};

static BYTES: [u8; 8] = [1, 2, 3, 4, 5, 6, 7, 8];

#[test]
fn numbers_are_read(rt: HostRuntime) {
    let two = (
        read_u16(Order::Little, &BYTES),
        read_u16(Order::Big, &BYTES),
    );
    let four = (
        read_u32(Order::Little, &BYTES),
        read_u32(Order::Big, &BYTES),
    );
    let eight = (
        read_u64(Order::Little, &BYTES),
        read_u64(Order::Big, &BYTES),
    );
    assert!(rt; two == (0x0201, 0x0102) && four == (0x0403_0201, 0x0102_0304));
    assert!(rt; eight == (0x0807_0605_0403_0201, 0x0102_0304_0506_0708));
}

#[test]
fn numbers_are_put(rt: HostRuntime) {
    let mut two = [0; 2];
    put_u16(Order::Little, 0x0201, &mut two);
    let mut four = [0; 4];
    put_u32(Order::Little, 0x0403_0201, &mut four);
    let mut eight = [0; 8];
    put_u64(Order::Big, 0x0102_0304_0506_0708, &mut eight);
    assert!(rt; two == [1, 2] && four == [1, 2, 3, 4] && eight == BYTES);
}

#[test]
fn texts_and_lists(rt: HostRuntime) -> Result<(), Fail> {
    let alloc = rt.alloc();
    let large = vec![in alloc; b'x'; 100_000]?;
    let text = ByteText::copy(alloc, &large)?;
    let short = ByteText::copy(alloc, b"short")?;
    assert!(rt; short.as_bytes() == b"short".as_slice());
    let list = ListOf::from_vec(vec![in alloc; 3, 4]?);
    assert!(rt; text.as_bytes() == large.as_slice() && list.as_slice() == [3, 4].as_slice());
    assert!(rt; list.into_vec().len() == 2);
    Ok(())
}

fn put_long(text: &mut String) -> Result<(), AllocError> {
    for _ in 0..100_000 {
        text.push_str("n")?;
    }
    Ok(())
}

fn push_many(words: &mut Words, last: &str) -> Result<(), AllocError> {
    words.push("")?;
    for _ in 0..3_000 {
        words.push("report")?;
    }
    words.push(last)
}

#[test]
fn many_words(rt: HostRuntime) -> Result<(), Fail> {
    let mut long = String::new(rt.alloc());
    put_long(&mut long)?;
    let mut words = Words::new(rt.alloc());
    assert!(rt; words.is_empty());
    push_many(&mut words, long.as_str())?;
    assert!(rt;
        words.len() == 3_002 && words.word(3_000) == "report" && words.word(3_001) == long.as_str()
    );
    Ok(())
}

const NULS: &[(&[u8], &[u8])] = &[
    (b"", b""),
    (b"bash", b"bash"),
    (b"ab\x00c", b"ab"),
    (b"bash\x00bash\x00bash\x00b", b"bash"),
    (b"a name of 16 by.\x00", b"a name of 16 by."),
    (
        b"a name of more than sixteen\x00x",
        b"a name of more than sixteen",
    ),
];

#[test]
fn texts_end_at_their_first_nul(rt: HostRuntime) {
    for (text, front) in NULS {
        assert!(rt; until_nul(text) == *front);
    }
}

#[test]
fn bytes_and_times_as_they_are_printed(rt: HostRuntime) {
    assert!(rt; two_digits(0x0f) == *b"0f" && two_digits(0xa0) == *b"a0");
    assert!(rt; micros(1_499) == 1 && micros(1_500) == 2);
}

fn relative_text(alloc: Global) -> Result<Field, AllocError> {
    Ok(Field {
        name: ByteText::copy(alloc, b"comm")?,
        offset: 8,
        size: 16,
        signed: true,
        kind: FieldKind::Text,
        place: FieldPlace::RelLoc,
        element: 1,
    })
}

// Whether the first field of this name has it, and lies where the field above does.
fn is_found(name: &[u8], fields: &[Field]) -> bool {
    match field_named(name, fields) {
        Some(field) => field.name.as_bytes() == name && field.place == FieldPlace::RelLoc,
        None => false,
    }
}

#[test]
fn fields_are_copied_and_found(rt: HostRuntime) -> Result<(), Fail> {
    let field = relative_text(rt.alloc())?;
    let fields = vec![in rt.alloc(); field.copy(rt.alloc())?]?;
    assert!(rt; is_found(b"comm", &fields) && field_named(b"com", &fields).is_none());
    Ok(())
}
