//! Directives of format texts.

use crate::rows::repeated;
use fmt_directives::{Amount, Base, Directive, Length, PointerForm, Spec, directives};
use std::alloc::{AllocError, Global};
use std::test::Fail;

/// How many directives spell a text; none where a conversion is not listed.
fn count(alloc: Global, text: &[u8]) -> Result<Option<usize>, AllocError> {
    if text.len() > 100_000 {
        return Ok(None);
    }
    match directives(alloc, text)? {
        Some(row) => Ok(Some(row.len())),
        None => Ok(None),
    }
}

pub(crate) fn told(alloc: Global, kind: &str, text: &str) -> Result<Vec<u8>, Fail> {
    let count = if kind == "count" {
        count(alloc, text.as_bytes())?
    } else {
        count(alloc, &repeated(alloc, text)?)?
    };
    Ok(format!(in alloc; "{count:?}")?.as_bytes().to_vec(alloc)?)
}

const NUMBER: Spec = Spec {
    left: true,
    zero: true,
    plus: true,
    space: false,
    alternate: false,
    width: Amount::Fixed(8),
    precision: Amount::FromArgument,
    length: Length::LongLongSize,
};

const LETTER: Spec = Spec {
    left: false,
    zero: false,
    plus: false,
    space: true,
    alternate: true,
    width: Amount::FromArgument,
    precision: Amount::Fixed(0),
    length: Length::Usual,
};

const POINTER: Spec = Spec {
    left: false,
    zero: false,
    plus: false,
    space: false,
    alternate: false,
    width: Amount::Absent,
    precision: Amount::Fixed(0),
    length: Length::Usual,
};

const PARTS: &[Directive] = &[
    Directive::Literal { start: 0, end: 1 },
    Directive::Number {
        spec: NUMBER,
        base: Base::UpperHex,
    },
    Directive::Literal { start: 12, end: 13 },
    Directive::Letter { spec: LETTER },
    Directive::Pointer {
        spec: POINTER,
        form: PointerForm::NameOffset,
    },
];

#[test]
fn parts_are_kept(rt: HostRuntime) -> Result<(), Fail> {
    let row = directives(rt.alloc(), b"a%-+08.*llX%%% #*.c%.0pS")?.ok_or("no directives")?;
    assert!(rt; row.as_slice() == PARTS);
    Ok(())
}

// Format texts, and how many directives spell them; none where a conversion is not listed.
pub(crate) static ROWS: &str = r#"count  => Some(0)
count plain => Some(1)
count % => None
count %% => Some(1)
count %%% => None
count 100%%. => Some(3)
count %5% => None
count %d => Some(1)
count %d %i %u %x %X %o %c %s %p => Some(17)
count %y => None
count %n => None
count %f => None
count %-0+ #d => Some(1)
count %#08llx => Some(1)
count %00005d => Some(1)
count %5-d => None
count %65535d => Some(1)
count %65536d => None
count %99999999999999999999d => None
count %.65535d => Some(1)
count %.65536d => None
count %.d => Some(1)
count %.007d => Some(1)
count %.-3d => None
count %*d => Some(1)
count %*.*d => Some(1)
count %.*s => Some(1)
count %*5d => None
count %5*d => None
count %**d => None
count %hhd%hd%ld%lld%zd%td%jd%Ld => Some(8)
count %hhhd => None
count %llld => None
count %lhd => None
count %zzd => None
count %qd => None
count %hc%ls%Lp => Some(3)
count %l => None
count %5 => None
count %. => None
count %p => Some(1)
count %p_ => Some(2)
count %p %p => Some(3)
count %p%p => Some(2)
count %ps%pf%pS%pF => Some(4)
count %pI4 => Some(1)
count %pI4. => Some(2)
count %pM: => Some(2)
count %px => None
count %p4 => None
count %ps4 => None
count %pI => None
count %pI6 => None
count %pI4c => None
count %pMx => None
count %20pS => Some(1)
count %-16.3ps => Some(1)
count a%db%dc => Some(5)
count \0%s\0 => Some(3)
count %s\n => Some(2)
long-count 70000||a| => Some(1)
long-count 5000||%d| => Some(5000)"#;
