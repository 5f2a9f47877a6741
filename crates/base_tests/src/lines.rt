// The lines of texts.

use text_lines::{first_after, first_line, line_end};

#[test]
fn a_line_ends_at_a_newline_alone(rt: HostRuntime) {
    let rows: [(&[u8], &[u8], Option<&[u8]>); 7] = [
        (b"", b"", None),
        (b"\n", b"", Some(b"")),
        (b"name: a", b"name: a", None),
        (b"name: a\nID: 3\n", b"name: a", Some(b"ID: 3\n")),
        (b"a\r\nb", b"a\r", Some(b"b")),
        (b"\n\n\tx", b"", Some(b"\n\tx")),
        (b"a\x00b\nc", b"a\x00b", Some(b"c")),
    ];
    for (text, line, behind) in rows {
        let found = first_line(text);
        assert_eq!(rt; found.0, line);
        assert_eq!(rt; found.1, behind);
    }
}

#[test]
fn the_first_line_that_begins_with_a_word_counts(rt: HostRuntime) {
    let text = b"id\nname: a\nx name: b\nname: c\nID: 7".as_slice();
    let rows: [(&[u8], Option<&[u8]>); 5] = [
        (b"name: ", Some(b"a")),
        (b"ID: ", Some(b"7")),
        (b"name", Some(b": a")),
        (b"", Some(b"id")),
        (b"print", None),
    ];
    for (word, rest) in rows {
        assert_eq!(rt; first_after(word, text), rest);
    }
}

#[test]
fn a_stored_text_ends_in_one_newline(rt: HostRuntime) {
    let rows: [(&[u8], &[u8]); 4] = [(b"", b""), (b"a", b"\n"), (b"a\n", b""), (b"a\n\n", b"")];
    for (text, end) in rows {
        assert_eq!(rt; line_end(text), end);
    }
}
