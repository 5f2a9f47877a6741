// Printed texts.

use fmt_expr::{PrintFmt, parse_args};
use fmt_lexer::tokens;
use fmt_print::{PrintPlan, compile, print};
use format_parse::{EventFormat, parse_format};
use std::alloc::{AllocError, Global};
use std::process::Abort;
use std::test::Fail;
use symbols::Symbols;
use trace_base::{ByteText, Field, Order, Rec, Tail};

/// A format, and the texts of 42, of -42 and of 0. These and those below were printed by snprintf of glibc, compiled by gcc on
/// x86-64, with the number as an int, or as a long long where the length is `l` or more.
const NUMBERS: &str = "%d\t42\t-42\t0
%5d\t   42\t  -42\t    0
%-5d|\t42   |\t-42  |\t0    |
%05d\t00042\t-0042\t00000
%+d\t+42\t-42\t+0
% d\t 42\t-42\t 0
%+05d\t+0042\t-0042\t+0000
%-05d|\t42   |\t-42  |\t0    |
% 05d\t 0042\t-0042\t 0000
%+ d\t+42\t-42\t+0
%.3d\t042\t-042\t000
%8.3d\t     042\t    -042\t     000
%08.3d\t     042\t    -042\t     000
%-8.3d|\t042     |\t-042    |\t000     |
%.0d\t42\t-42\t
%3.d|\t 42|\t-42|\t   |
%+.0d\t+42\t-42\t+
%i\t42\t-42\t0
%u\t42\t4294967254\t0
%x\t2a\tffffffd6\t0
%X\t2A\tFFFFFFD6\t0
%o\t52\t37777777726\t0
%#x\t0x2a\t0xffffffd6\t0
%#X\t0X2A\t0XFFFFFFD6\t0
%#o\t052\t037777777726\t0
%#08x\t0x00002a\t0xffffffd6\t00000000
%#-8x|\t0x2a    |\t0xffffffd6|\t0       |
%#.4x\t0x002a\t0xffffffd6\t0000
%#8.4o\t    0052\t037777777726\t    0000
%#.0o\t052\t037777777726\t0
%#.0x\t0x2a\t0xffffffd6\t
%12u\t          42\t  4294967254\t           0
%+u\t42\t4294967254\t0
%08x\t0000002a\tffffffd6\t00000000
%.10X\t000000002A\t00FFFFFFD6\t0000000000
";

/// A format, and the texts of 0x123456789abcdef0, -1, 200 and 40000.
const LENGTHS: &str = "%hhd\t-16\t-1\t-56\t64
%hhu\t240\t255\t200\t64
%hd\t-8464\t-1\t200\t-25536
%hx\tdef0\tffff\tc8\t9c40
%ld\t1311768467463790320\t-1\t200\t40000
%lu\t1311768467463790320\t18446744073709551615\t200\t40000
%lld\t1311768467463790320\t-1\t200\t40000
%llx\t123456789abcdef0\tffffffffffffffff\tc8\t9c40
%zu\t1311768467463790320\t18446744073709551615\t200\t40000
%td\t1311768467463790320\t-1\t200\t40000
%jd\t1311768467463790320\t-1\t200\t40000
%jo\t110642547423257157360\t1777777777777777777777\t310\t116100
%d\t-1698898192\t-1\t200\t40000
";

/// A format, and the texts of 0, 9, 15, 16, 255, 256, 2^32 - 1, 2^32, 2^63 and 2^64 - 1.
const HEXADECIMAL: &str =
    "%lx\t0\t9\tf\t10\tff\t100\tffffffff\t100000000\t8000000000000000\tffffffffffffffff
%1lx\t0\t9\tf\t10\tff\t100\tffffffff\t100000000\t8000000000000000\tffffffffffffffff
%01lx\t0\t9\tf\t10\tff\t100\tffffffff\t100000000\t8000000000000000\tffffffffffffffff
%08lx\t00000000\t00000009\t0000000f\t00000010\t000000ff\t00000100\tffffffff\t100000000\t8000000000000000\tffffffffffffffff
%016lx\t0000000000000000\t0000000000000009\t000000000000000f\t0000000000000010\t00000000000000ff\t0000000000000100\t00000000ffffffff\t0000000100000000\t8000000000000000\tffffffffffffffff
%017lx\t00000000000000000\t00000000000000009\t0000000000000000f\t00000000000000010\t000000000000000ff\t00000000000000100\t000000000ffffffff\t00000000100000000\t08000000000000000\t0ffffffffffffffff
%8lx\t       0\t       9\t       f\t      10\t      ff\t     100\tffffffff\t100000000\t8000000000000000\tffffffffffffffff
%-08lx|\t0       |\t9       |\tf       |\t10      |\tff      |\t100     |\tffffffff|\t100000000|\t8000000000000000|\tffffffffffffffff|
%#lx\t0\t0x9\t0xf\t0x10\t0xff\t0x100\t0xffffffff\t0x100000000\t0x8000000000000000\t0xffffffffffffffff
%#08lx\t00000000\t0x000009\t0x00000f\t0x000010\t0x0000ff\t0x000100\t0xffffffff\t0x100000000\t0x8000000000000000\t0xffffffffffffffff
%.3lx\t000\t009\t00f\t010\t0ff\t100\tffffffff\t100000000\t8000000000000000\tffffffffffffffff
%08.3lx\t     000\t     009\t     00f\t     010\t     0ff\t     100\tffffffff\t100000000\t8000000000000000\tffffffffffffffff
%.0lx\t\t9\tf\t10\tff\t100\tffffffff\t100000000\t8000000000000000\tffffffffffffffff
%+ 08lx\t00000000\t00000009\t0000000f\t00000010\t000000ff\t00000100\tffffffff\t100000000\t8000000000000000\tffffffffffffffff
%08x\t00000000\t00000009\t0000000f\t00000010\t000000ff\t00000100\tffffffff\t00000000\t00000000\tffffffff
%02x\t00\t09\t0f\t10\tff\t100\tffffffff\t00\t00\tffffffff
%016x\t0000000000000000\t0000000000000009\t000000000000000f\t0000000000000010\t00000000000000ff\t0000000000000100\t00000000ffffffff\t0000000000000000\t0000000000000000\t00000000ffffffff
%08lX\t00000000\t00000009\t0000000F\t00000010\t000000FF\t00000100\tFFFFFFFF\t100000000\t8000000000000000\tFFFFFFFFFFFFFFFF
%06hhx\t000000\t000009\t00000f\t000010\t0000ff\t000000\t0000ff\t000000\t000000\t0000ff
%05hx\t00000\t00009\t0000f\t00010\t000ff\t00100\t0ffff\t00000\t00000\t0ffff
";

/// A format, and the texts of an empty text and of `abc`, from snprintf in the same way.
const TEXTS: &str = "%s\t\tabc
%5s\t     \t  abc
%-5s|\t     |\tabc  |
%.2s\t\tab
%5.2s\t     \t   ab
%-5.2s|\t     |\tab   |
%.0s\t\t
%2s\t  \tabc
%.9s\t\tabc
";

/// What C leaves open, and what symbols and printk formats give: a format, a number, and the text.
const OTHERS: &str = "%c\t321l\tA
%3c\t65l\t  A
%-3c|\t65l\tA  |
%03c\t65l\t  A
%.0c\t65l\tA
%s\t16l\t0x10
%s\t-1l\t0xffffffffffffffff
%6s\t16l\t  0x10
%06s\t16l\t  0x10
%.3s\t16l\t0x1
%.1s\t16l\t0
%-5.2s|\t16l\t0x   |
%s\t49152l\tfault %d
%.5s\t49152l\tfault
%p\t31l\t0x1f
%p\t0l\t0x0
%p\t15l\t0xf
%p\t16l\t0x10
%p\t255l\t0xff
%p\t256l\t0x100
%p\t4095l\t0xfff
%p\t65535l\t0xffff
%p\t65536l\t0x10000
%p\t4294967296l\t0x100000000
%p\t81985529216486895l\t0x123456789abcdef
%p\t-9223372036854775807l\t0x8000000000000001
%p\t-1l\t0xffffffffffffffff
%pS\t8192l\tdo_idle+0x0
%pS\t8207l\tdo_idle+0xf
%pS\t8208l\tdo_idle+0x10
%pS\t8447l\tdo_idle+0xff
%pS\t8448l\tdo_idle+0x100
%pS\t-1l\tdo_idle+0xffffffffffffdfff
%08p\t31l\t    0x1f
%.1p\t31l\t0x1f
%ps\t4111l\tschedule
%pf\t4095l\t0xfff
%pS\t4111l\tschedule+0xf
%-14pS|\t4096l\tschedule+0x0  |
%20pF\t8193l\t         do_idle+0x1
%pI4\t16777343l\t0x100007f
%pM\t0l\t0x0
";

/// Each conversion over each kind of argument: a format, and the texts of the number 0x100007f, of a text of the byte 0x7f, and of the
/// bytes 127, 0, 0 and 1.
const KINDS: &str = "%d\t16777343\t0\t0
%i\t16777343\t0\t0
%u\t16777343\t0\t0
%x\t100007f\t0\t0
%X\t100007F\t0\t0
%o\t100000177\t0\t0
%c\t\x7f\t\0\t\0
%s\t0x100007f\t\x7f\t\x7f
%p\t0x100007f\t0x0\t0x0
%ps\tdo_idle\t0x0\t0x0
%pf\tdo_idle\t0x0\t0x0
%pS\tdo_idle+0xffe07f\t0x0\t0x0
%pF\tdo_idle+0xffe07f\t0x0\t0x0
%pI4\t0x100007f\t127.0.0.0\t127.0.0.1
%pM\t0x100007f\t7f:00:00:00:00:00\t7f:00:00:01:00:00
%5ps|\tdo_idle|\t  0x0|\t  0x0|
%-5pF|\tdo_idle+0xffe07f|\t0x0  |\t0x0  |
%3d|%-4x|%+d|%.2u\t16777343|||\t  0|||\t  0|||
";

/// A format, its arguments, and the text.
const ARGUMENTS: &str =
    "%5d|%-5d|%05d|%+d|%#x\tREC->a, REC->a, REC->a, REC->a, REC->a\t   42|42   |00042|+42|0x2a
100%% %d\tREC->a\t100% 42
%d %d|\tREC->a\t42 |
%*d|\tREC->a\t|
%*d|%d|\tREC->a, REC->a\t                                        42||
%.*d%d\tREC->a, REC->a\t000000000000000000000000000000000000000042
%*.*d|\tREC->a, REC->a\t|
none\tREC->a, REC->a, REC->a\tnone
%c%c\tREC->a, REC->a\t**
%d%%%d\tREC->a, REC->a\t42%42
\t\t
%s\t\t
%0*.*d|\t-4, -1, 7\t7   |
%d %d %d\tREC->a, 7 / 0, 1 << 32\t42 0 0
%d\tREC->v >> 1\t-4
[%-6s]\t__print_flags(5, \"|\", { 1, \"A\" }, { 4, \"C\\0D\" })\t[A|C   ]
%*d|\tREC->t, 7\t7|
%*d|\tREC->B, 7\t7|
%.*d|\tREC->t, 0\t|
%-*.*s|\tREC->t, 7, REC->T\tab|
%*ps|\tREC->a, REC->t\t                                       0x0|
%ps %pS %p %ps\tREC->t, REC->t, REC->t, 0\t0x0 0x0 0x0 zero
%pf %pF %p %pF\tREC->b, REC->b, REC->b, 0\t0x0 0x0 0x0 zero+0x0
%ps\t__print_flags(5, \"|\", { 1, \"A\" }, { 4, \"C\\0D\" })\t0x0
%pS\t__print_flags(5, \"|\", { 1, \"A\" }, { 4, \"C\\0D\" })\t0x0
%pI4\t__print_flags(5, \"|\", { 1, \"A\" }, { 4, \"C\\0D\" })\t65.124.67.0
%s.\tREC->T\tab.
%s.\tREC->B\tab.
%4s\tREC->B\t  ab
%16pI4\tREC->b\t       127.0.0.1
%-18pM|\tREC->b\t7f:00:00:01:00:00 |
%pM\tREC->T\t61:62:00:00:00:00
[%s]\tREC->a ? \"yes\" : \"no\"\t[yes]
[%s]\t0 ? REC->t : REC->T\t[ab]
[%s]\tREC->n & 1 ? \"sixteen letters.\" : \"no\"\t[sixteen letters.]
[%s]\tREC->n & 1 ? \"seventeen letters\" : \"no\"\t[seventeen letters]
[%s]\tREC->n & 128 ? \"yes\" : \"\"\t[]
[%s]\tREC->n & 128 ? \"yes\" : \"n\\0o\"\t[n]
[%s]\tREC->n & 128 ? \"yes\" : REC->T\t[ab]
[%5s|%-5s|%.1s]\tREC->a ? \"yes\" : \"\", REC->a ? \"yes\" : \"\", REC->a ? \"yes\" : \"\"\t[  yes|yes  |y]
%ld|%lu|%d|%hd|%lx\tREC->w, REC->w, REC->w, REC->w, REC->w\t-30064771030|18446744043644780586|42|42|fffffff90000002a
%ld|%lu|%d|%hd|%lx\tREC->W, REC->W, REC->W, REC->W, REC->W\t-30064771030|18446744043644780586|42|42|fffffff90000002a
%lx|%8lx|%08lx|%016lx\tREC->W, REC->W, REC->W, REC->W\tfffffff90000002a|fffffff90000002a|fffffff90000002a|fffffff90000002a
%017lx|%#lx|%.17lx\tREC->W, REC->W, REC->W\t0fffffff90000002a|0xfffffff90000002a|0fffffff90000002a
%lx|%4lx|%08lx|%016lx|%017lx|%#lx\tREC->s, REC->s, REC->s, REC->s, REC->s, REC->s\tc8|  c8|000000c8|00000000000000c8|000000000000000c8|0xc8
0x%08lx|%lX|%lo|%08x\tREC->w, REC->w, REC->w, REC->w\t0xfffffff90000002a|FFFFFFF90000002A|1777777777440000000052|0000002a
0x%08lx|%lx|%016lx\t(unsigned long)(REC->W), (unsigned long)(REC->n), (unsigned long)(REC->w)\t0xfffffff90000002a|100007f|fffffff90000002a
%14ld|%+ld|%lld|%zu\tREC->w, REC->s, REC->s, REC->s\t  -30064771030|+200|200|200
%p|%ps|%pS|%6p|%ps|%pS\tREC->s, REC->s, REC->s, REC->s, REC->w, REC->W\t0xc8|zero|zero+0xc8|  0xc8|do_idle|do_idle+0xfffffff8ffffe02a
";

/// The payload of the record: a text with a NUL in it, four bytes of an address, 42, -7, and 200 in eight bytes.
const PAYLOAD: [u8; 24] = *b"ab\0d\x7f\x00\x00\x01\x2a\0\0\0\xf9\xff\xff\xff\xc8\0\0\0\0\0\0\0";

/// The fields of the payload: 42, the address in three kinds, the text in two, -7, both numbers as eight bytes with a sign and
/// without, and 200.
const FORMAT: &[u8] = b"name: payload
ID: 1
\tfield:int a;\toffset:8;\tsize:4;\tsigned:1;
\tfield:int n;\toffset:4;\tsize:4;\tsigned:1;
\tfield:char t[4];\toffset:4;\tsize:4;\tsigned:1;
\tfield:u8 b[4];\toffset:4;\tsize:4;\tsigned:0;
\tfield:char T[4];\toffset:0;\tsize:4;\tsigned:1;
\tfield:u8 B[4];\toffset:0;\tsize:4;\tsigned:0;
\tfield:int v;\toffset:12;\tsize:4;\tsigned:1;
\tfield:long w;\toffset:8;\tsize:8;\tsigned:1;
\tfield:unsigned long W;\toffset:8;\tsize:8;\tsigned:0;
\tfield:long s;\toffset:16;\tsize:8;\tsigned:1;
";

fn format(alloc: Global) -> Result<EventFormat, Fail> {
    Ok(parse_format(alloc, b"tests", FORMAT)?.ok_or("no format")?)
}

/// Two symbols, with others before them, and a printk format.
fn symbols(alloc: Global, before: &str) -> Result<Symbols, AllocError> {
    let mut names = Vec::from_slice(alloc, before.as_bytes())?;
    names.extend_from_slice(b"1000 T schedule\n2000 t do_idle\n")?;
    Symbols::read(
        alloc,
        ByteText::from_vec(names),
        ByteText::copy(alloc, b"0xc000 : \"fault %d\"\n")?,
        ByteText::copy(alloc, b"")?,
    )
}

fn read(alloc: Global, fields: &[Field], text: &[u8]) -> Result<Option<PrintFmt>, AllocError> {
    match tokens(alloc, text)? {
        Some(row) => parse_args(alloc, text, &row, fields, 8),
        None => Ok(None),
    }
}

/// The plan of a print fmt.
fn plan_of(alloc: Global, fields: &[Field], text: &[u8]) -> Result<PrintPlan, Fail> {
    let fmt = read(alloc, fields, text)?.ok_or("no print fmt")?;
    Ok(compile(alloc, fmt)?.ok_or("no plan")?)
}

/// A plan prints a text of the payload.
fn prints(rt: &impl Abort, plan: &PrintPlan, symbols: &Symbols, text: &str, row: &str) {
    let rec = Rec {
        order: Order::Little,
        payload: &PAYLOAD,
    };
    let mut room = [0; 100];
    let mut tail = Tail::new(&mut room);
    print(plan, &rec, symbols, &mut tail);
    assert!(rt;
        tail.kept() == text.as_bytes() && tail.total() == text.len() as u64,
        "{row}"
    );
}

/// Prints a text by a format and its arguments.
fn show_text(
    rt: &impl Abort,
    alloc: Global,
    fields: &[Field],
    symbols: &Symbols,
    format: &str,
    arguments: &str,
    text: &str,
) -> Result<(), Fail> {
    let comma = if arguments.is_empty() { "" } else { ", " };
    let fmt = format!(in alloc; "\"{format}\"{comma}{arguments}")?;
    let plan = plan_of(alloc, fields, fmt.as_bytes())?;
    prints(rt, &plan, symbols, text, fmt.as_str());
    Ok(())
}

/// Prints a text by a format for each of the arguments.
fn show_texts(
    rt: &impl Abort,
    alloc: Global,
    fields: &[Field],
    symbols: &Symbols,
    format: &str,
    arguments: &str,
    texts: &str,
) -> Result<(), Fail> {
    for (argument, text) in arguments.split(';').zip(texts.split('\t')) {
        show_text(rt, alloc, fields, symbols, format, argument, text)?;
    }
    Ok(())
}

/// A row is a format, its arguments where they are not those of all rows, and the text of each of them.
fn show_row(
    rt: &impl Abort,
    alloc: Global,
    fields: &[Field],
    symbols: &Symbols,
    arguments: &str,
    row: &str,
) -> Result<(), Fail> {
    let (format, texts) = row.split_once('\t').unwrap_or((row, ""));
    if arguments.is_empty() {
        let (own, text) = texts.split_once('\t').unwrap_or((texts, "no text"));
        show_texts(rt, alloc, fields, symbols, format, own, text)
    } else {
        show_texts(rt, alloc, fields, symbols, format, arguments, texts)
    }
}

fn show_rows(
    rt: &impl Abort,
    alloc: Global,
    fields: &[Field],
    symbols: &Symbols,
    arguments: &str,
    rows: &str,
) -> Result<(), Fail> {
    for row in rows.lines() {
        show_row(rt, alloc, fields, symbols, arguments, row)?;
    }
    Ok(())
}

fn show(
    rt: &impl Abort,
    alloc: Global,
    before: &str,
    arguments: &str,
    rows: &str,
) -> Result<(), Fail> {
    let symbols = symbols(alloc, before)?;
    let format = format(alloc)?;
    show_rows(
        rt,
        alloc,
        format.fields.as_slice(),
        &symbols,
        arguments,
        rows,
    )
}

#[test]
fn numbers_and_texts_are_shown_as_by_c(rt: HostRuntime) -> Result<(), Fail> {
    let alloc = rt.alloc();
    show(&rt, alloc, "", "42;-42;0", NUMBERS)?;
    show(&rt, alloc, "", "0x123456789abcdef0;-1l;200;40000", LENGTHS)?;
    show(
        &rt,
        alloc,
        "",
        "0;9;15;16;255;256;0xffffffff;0x100000000;0x8000000000000000;-1l",
        HEXADECIMAL,
    )?;
    show(&rt, alloc, "", "\"\";\"abc\"", TEXTS)
}

#[test]
fn arguments_of_every_kind_are_shown(rt: HostRuntime) -> Result<(), Fail> {
    let alloc = rt.alloc();
    let zero = "0000000000000000 A zero\n";
    show(&rt, alloc, "", "", OTHERS)?;
    show(&rt, alloc, zero, "REC->n;REC->t;REC->b", KINDS)?;
    show(&rt, alloc, zero, "", ARGUMENTS)
}

fn put_often(text: &mut Vec<u8>, piece: &[u8]) -> Result<(), AllocError> {
    for _ in 0..5_000 {
        text.extend_from_slice(piece)?;
    }
    Ok(())
}

/// Numbers of two digits, each after 14 bytes of a literal, and as many arguments.
fn put_long_fmt(text: &mut Vec<u8>) -> Result<(), AllocError> {
    text.push(b'"')?;
    put_often(text, b"and a literal %d")?;
    text.push(b'"')?;
    put_often(text, b", 42")
}

/// A plan prints a text that is this long and begins so.
fn prints_front(rt: &impl Abort, plan: &PrintPlan, symbols: &Symbols, front: &[u8], len: u64) {
    let rec = Rec {
        order: Order::Little,
        payload: &[],
    };
    let mut room = [0; 32];
    let mut tail = Tail::new(&mut room);
    print(plan, &rec, symbols, &mut tail);
    assert!(rt; tail.kept() == front && tail.total() == len);
}

#[test]
fn a_long_text_of_many_directives_is_printed(rt: HostRuntime) -> Result<(), Fail> {
    let mut text = Vec::new(rt.alloc());
    put_long_fmt(&mut text)?;
    let plan = plan_of(rt.alloc(), &[], &text)?;
    let symbols = symbols(rt.alloc(), "")?;
    prints_front(
        &rt,
        &plan,
        &symbols,
        b"and a literal 42and a literal 42",
        80_000,
    );
    Ok(())
}
