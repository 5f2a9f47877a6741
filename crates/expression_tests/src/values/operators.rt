// The operators and casts of C, whose rows are in `OPERANDS_AND_VALUES`.

use super::samples::{boxed, chain, no_payload};
use crate::marks::BINARY;
use fmt_eval::{Num, number};
use fmt_expr::CKind::{I32, I64, U32, U64};
use fmt_expr::{CKind, CastTo, Expr, PrefixOp};
use std::alloc::Global;
use std::process::Abort;
use std::test::Fail;

/// The first line of a part has operands, and each line after it an operator and its value for each of them. A number is its
/// 64 bits, written with a sign, and after them `u`, `l` or `ul` where it is no int but unsigned, long or both. The values
/// were computed by gcc -fwrapv: volatile variables of int, unsigned, long long and unsigned long long, and the value's type
/// told by _Generic; casts are of a long long, and their values promoted. The parts after the casts are cases of their own,
/// and the last four what C leaves undefined: a quotient or a remainder by 0 is 0, and so is a shift by a negative count or by
/// the width and more.
static OPERANDS_AND_VALUES: &str = "\
-7,2 -1,1u 5u,-3 -1,3ul -5000000000l,4000000000u 4294967295u,-1l -1l,1ul 2147483647,3
|| 1 1 1 1 1 1 1 1
&& 1 1 1 1 1 1 1 1
| -5 4294967295u 4294967293u -1ul -4295283200l -1l -1ul 2147483647
^ -5 4294967294u 4294967288u -4ul -7590566400l -4294967296l -2ul 2147483644
& 0 1u 5u 3ul 3295283200l 4294967295l 1ul 3
== 0 0 0 0 0 0 0 0
!= 1 1 1 1 1 1 1 1
< 1 0 1 0 1 0 0 0
<= 1 0 1 0 1 0 0 0
> 0 1 0 1 0 1 1 1
>= 0 1 0 1 0 1 1 1
+ -5 0u 2u 2ul -1000000000l 4294967294l 0ul -2147483646
- -9 4294967294u 8u -4ul -9000000000l 4294967296l -2ul 2147483644
* -14 4294967295u 4294967281u -3ul -1553255926290448384l -4294967295l -1ul 2147483645
/ -3 4294967295u 0u 6148914691236517205ul -1l -4294967295l -1ul 715827882
% -1 0u 5u 0ul -1000000000l 0l 0ul 1

-7,1 3,31 2147483649u,1 1u,31ul -9l,2 5l,63u -9223372036854775807ul,1 255ul,60l
<< -14 -2147483648 2u 2147483648u -36l -9223372036854775808l 2ul -1152921504606846976ul
>> -4 0 1073741824u 0u -3l 0l 4611686018427387904ul 0ul

-2147483648 1u 5l 0ul
+ -2147483648 1u 5l 0ul
- -2147483648 4294967295u -5l 0ul
! 0 0 0 1
~ 2147483647 4294967294u -6l -1ul

-1l 1311768467294899695l 128l -32769l 4294967296l 0l
(s8) -1 -17 -128 -1 0 0
(u8) 255 239 128 255 0 0
(s16) -1 -12817 128 32767 0 0
(u16) 65535 52719 128 32767 0 0
(s32) -1 -1867788817 128 -32769 0 0
(u32) 4294967295u 2427178479u 128u 4294934527u 0u 0u
(s64) -1l 1311768467294899695l 128l -32769l 4294967296l 0l
(u64) -1ul 1311768467294899695ul 128ul -32769ul 4294967296ul 0ul
(bool) 1 1 1 1 1 0

1099511627776ul,2199023255552ul
&& 1

0,0ul
|| 0

65536,65536 -1ul,-1ul
* 0 1ul

9223372036854775807l,1
+ -9223372036854775808l

-1ul,2
/ 9223372036854775807ul

-9000000000l,4000000000l
% -1000000000l

7,0 -2147483648,-1
/ 0 -2147483648

7,0ul -9223372036854775808l,-1l
% 0ul 0l

1,32 1,-1 1,4294967295u 1ul,64 3,31ul
<< 0 0 0 0ul -2147483648

-7,32 -7l,64 128u,-1l
>> 0 0l 0u";

const PREFIXES: &[(&str, PrefixOp)] = &[
    ("+", PrefixOp::Plus),
    ("-", PrefixOp::Minus),
    ("!", PrefixOp::LogicNot),
    ("~", PrefixOp::Invert),
];

/// How many bits a type has, and whether it has a sign.
const TYPES: &[(&str, (u32, bool))] = &[
    ("(s8)", (8, true)),
    ("(u8)", (8, false)),
    ("(s16)", (16, true)),
    ("(u16)", (16, false)),
    ("(s32)", (32, true)),
    ("(u32)", (32, false)),
    ("(s64)", (64, true)),
    ("(u64)", (64, false)),
];

const KINDS: &[(&str, CKind)] = &[("ul", U64), ("u", U32), ("l", I64)];

/// What has this name.
fn named<T: Copy>(all: &[(&str, T)], name: &str) -> Option<T> {
    for (text, what) in all {
        if *text == name {
            return Some(*what);
        }
    }
    None
}

fn cast(name: &str) -> Option<CastTo> {
    if name == "(bool)" {
        return Some(CastTo::Truth);
    }
    let (width, signed) = named(TYPES, name)?;
    Some(CastTo::Bits { width, signed })
}

/// The digits of a number, and its kind.
fn parts(word: &str) -> (&str, CKind) {
    for (end, kind) in KINDS {
        if let Some(digits) = word.strip_suffix(*end) {
            return (digits, *kind);
        }
    }
    (word, I32)
}

fn num(word: &str) -> Result<Num, Fail> {
    let (digits, kind) = parts(word);
    let bits = digits.parse::<i64>().ok().ok_or("no number")?;
    Ok(Num {
        bits: bits.cast_unsigned(),
        kind,
    })
}

fn written(num: Num) -> Expr {
    Expr::Number {
        bits: num.bits,
        kind: num.kind,
    }
}

fn binary(alloc: Global, name: &str, left: &str, right: &str) -> Result<Expr, Fail> {
    let op = named(BINARY, name).ok_or("no operator")?;
    let left = num(left)?;
    let right = num(right)?;
    Ok(chain(alloc, written(left), op, written(right))?)
}

fn unary(alloc: Global, name: &str, operand: &str) -> Result<Expr, Fail> {
    let operand = num(operand)?;
    let of = boxed(alloc, written(operand))?;
    match (named(PREFIXES, name), cast(name)) {
        (Some(op), _) => Ok(Expr::Prefix { op, of }),
        (None, Some(to)) => Ok(Expr::Cast { to, of }),
        (None, None) => Err(Fail::from("no operator")),
    }
}

fn value(alloc: Global, name: &str, operands: &str) -> Result<Num, Fail> {
    let tree = match operands.split_once(',') {
        Some((left, right)) => binary(alloc, name, left, right)?,
        None => unary(alloc, name, operands)?,
    };
    Ok(number(&tree, &no_payload()))
}

/// An operator has just these values, one for each of the operands.
fn has(alloc: Global, name: &str, operands: &str, values: &str) -> Result<bool, Fail> {
    let mut values = values.split(' ');
    for operand in operands.split(' ') {
        if value(alloc, name, operand)? != num(values.next().unwrap_or(""))? {
            return Ok(false);
        }
    }
    Ok(values.next().is_none())
}

fn holds(rt: &impl Abort, alloc: Global, part: &str) -> Result<(), Fail> {
    let (operands, lines) = part.split_once('\n').unwrap_or(("", ""));
    for line in lines.lines() {
        let (name, values) = line.split_once(' ').unwrap_or(("", ""));
        assert!(rt; has(alloc, name, operands, values)?, "{line}");
    }
    Ok(())
}

#[test]
fn operators_and_casts_are_those_of_c(rt: HostRuntime) -> Result<(), Fail> {
    for part in OPERANDS_AND_VALUES.split("\n\n") {
        holds(&rt, rt.alloc(), part)?;
    }
    Ok(())
}
