// Fields that are found by their names.

use field_names::FieldNames;
use std::test::Fail;
use trace_base::{ByteText, Field, FieldKind, FieldPlace};

#[test]
fn the_first_of_equal_names_is_found(rt: HostRuntime) -> Result<(), Fail> {
    let alloc = rt.alloc();
    let mut fields = Vec::new(alloc);
    for offset in 0..300 {
        let name = [b'a' + (offset % 20) as u8, b'a' + (offset / 20 % 13) as u8];
        fields.push(Field {
            name: ByteText::copy(alloc, &name)?,
            offset,
            size: 4,
            signed: false,
            kind: FieldKind::Number,
            place: FieldPlace::Fixed,
            element: 4,
        })?;
    }
    for (count, name, offset) in [
        (0, b"aa".as_slice(), None),
        (1, b"aa".as_slice(), Some(0)),
        (256, b"pm".as_slice(), Some(255)),
        (256, b"qm".as_slice(), None),
        (257, b"pm".as_slice(), Some(255)),
        (257, b"qm".as_slice(), Some(256)),
        (257, b"rm".as_slice(), None),
        (300, b"aa".as_slice(), Some(0)),
        (300, b"tm".as_slice(), Some(259)),
        (300, b"t".as_slice(), None),
        (300, b"tee".as_slice(), None),
    ] {
        let some = fields.get(..count).ok_or("so many fields")?;
        let names = FieldNames::of(alloc, some)?;
        assert_eq!(rt; names.field(name).map(|field| field.offset), offset);
    }
    Ok(())
}
