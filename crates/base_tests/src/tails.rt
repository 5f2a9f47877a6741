use std::test::Fail;
use trace_base::Tail;

// A piece, the room that it is put into after `ab`, and what is kept of both.
const PIECES: &[(&[u8], usize, &[u8])] = &[
    (b"", 2, b"ab"),
    (b"", 1, b"a"),
    (b"0123456", 9, b"ab0123456"),
    (b"0123456", 8, b"ab012345"),
    (b"01234567", 10, b"ab01234567"),
    (b"01234567", 9, b"ab0123456"),
    (b"0123456789abcde", 17, b"ab0123456789abcde"),
    (b"0123456789abcde", 16, b"ab0123456789abcd"),
    (b"0123456789abcdef", 18, b"ab0123456789abcdef"),
    (b"0123456789abcdef", 17, b"ab0123456789abcde"),
    (
        b"0123456789abcdefghijklmnopqrstu",
        33,
        b"ab0123456789abcdefghijklmnopqrstu",
    ),
    (
        b"0123456789abcdefghijklmnopqrstu",
        32,
        b"ab0123456789abcdefghijklmnopqrst",
    ),
    (
        b"0123456789abcdefghijklmnopqrstuv",
        34,
        b"ab0123456789abcdefghijklmnopqrstuv",
    ),
    (
        b"0123456789abcdefghijklmnopqrstuv",
        33,
        b"ab0123456789abcdefghijklmnopqrstu",
    ),
    (
        b"0123456789abcdefghijklmnopqrstuvw",
        35,
        b"ab0123456789abcdefghijklmnopqrstuvw",
    ),
    (
        b"0123456789abcdefghijklmnopqrstuvw",
        34,
        b"ab0123456789abcdefghijklmnopqrstuv",
    ),
];

// Puts the piece after two bytes, and tells whether so much is kept of both.
fn keeps(piece: &[u8], watches: bool, room: &mut [u8], kept: &[u8]) -> bool {
    let mut tail = Tail::new(room);
    if watches {
        tail.watch();
    }
    tail.put(b"ab");
    tail.put_piece(piece);
    let all = piece.len() as u64 + 2;
    tail.kept() == kept && tail.total() == all && tail.text_end() == all
}

#[test]
fn pieces_are_kept_up_to_the_end_of_the_room(rt: HostRuntime) -> Result<(), Fail> {
    for (piece, room, kept) in PIECES {
        for watches in [false, true] {
            let mut bytes = vec![in rt.alloc(); b'.'; *room]?;
            assert!(rt; keeps(piece, watches, &mut bytes, kept) && bytes.as_slice() == *kept);
        }
    }
    Ok(())
}
