// The names of symbols, of printk formats and of tasks.

use std::alloc::{AllocError, Global};
use std::process::Abort;
use std::test::Fail;
use symbols::Symbols;
use trace_base::ByteText;

// Lines of kallsyms.
const KALLSYMS: &[u8] = b"ffffffffc0a1b2c3 t open\t[ext4]
ffffffff81000000 T _text
0 A fixed here
00000000000000AF b Mixed\r
12 T \n13 T
14 1 one
15  T one
 16 T one
0x17 T one
10000000000000018 T long

ffffffffc0a1b2d0 t last";

// Lines of printk formats.
const PRINTK: &[u8] = b"0xffffffff82123456 : \"Rescheduling\\n\"
ffff : \"a \"quoted\" word\"
0x1 : \"\"
0X2 : \"a\"
0x : \"a\"
0x3: \"a\"
0x4 : a\"
0x5 : \"
0x6 : \"a\" ";

// Lines of saved command lines, and pids.
const CMDLINES: &[u8] = b"1 systemd
007 x y \n2147483647 last
2147483648 past
2 \n3
-1 minus
 4 blank";

const PIDS: [i32; 9] = [1, 7, i32::MAX, i32::MIN, 2, 3, -1, 4, 0];

// The symbols, the texts, and the names.
const NAMES: &[u8] = b"0 fixed
12 \naf Mixed\r
ffffffff81000000 _text
ffffffffc0a1b2c3 open
ffffffffc0a1b2d0 last
1 \nffff a \"quoted\" word
ffffffff82123456 Rescheduling\\n
systemd
x y \nlast
<...>
<...>
<...>
<...>
<...>
<idle>
";

/// Puts a number and a name on a line.
fn put(alloc: Global, row: Option<(u64, &[u8])>, text: &mut Vec<u8>) -> Result<(), AllocError> {
    match row {
        None => Ok(()),
        Some((key, name)) => {
            text.extend_from_slice(format!(in alloc; "{key:x} ")?.as_bytes())?;
            text.extend_from_slice(name)?;
            text.extend_from_slice(b"\n")
        }
    }
}

fn is(rt: &impl Abort, text: &[u8], expected: &[u8]) {
    assert_eq!(rt; text, expected);
}

fn put_symbols(alloc: Global, symbols: &Symbols, text: &mut Vec<u8>) -> Result<(), AllocError> {
    for i in 0..symbols.symbol_count() {
        put(alloc, symbols.symbol(i), text)?;
    }
    Ok(())
}

fn put_texts(alloc: Global, symbols: &Symbols, text: &mut Vec<u8>) -> Result<(), AllocError> {
    for i in 0..symbols.printk_count() {
        put(alloc, symbols.printk(i), text)?;
    }
    Ok(())
}

fn put_comms(symbols: &Symbols, pids: &[i32], text: &mut Vec<u8>) -> Result<(), AllocError> {
    for pid in pids {
        text.extend_from_slice(symbols.comm_of(*pid))?;
        text.push(b'\n')?;
    }
    Ok(())
}

/// For each address how far it is past a symbol, and that symbol.
fn put_nearest(
    alloc: Global,
    symbols: &Symbols,
    addresses: &[u64],
    text: &mut Vec<u8>,
) -> Result<(), AllocError> {
    for address in addresses {
        let near = symbols.name_at(*address);
        put(alloc, near.map(|(name, behind)| (behind, name)), text)?;
    }
    Ok(())
}

/// The symbols, the printk formats and the names of the pids.
fn names_are(rt: &impl Abort, alloc: Global, symbols: &Symbols) -> Result<(), AllocError> {
    let mut text = Vec::new(alloc);
    put_symbols(alloc, symbols, &mut text)?;
    put_texts(alloc, symbols, &mut text)?;
    put_comms(symbols, &PIDS, &mut text)?;
    is(rt, &text, NAMES);
    Ok(())
}

/// The names that these texts give.
fn symbols_of(
    alloc: Global,
    kallsyms: &[u8],
    printk: &[u8],
    cmdlines: &[u8],
) -> Result<Symbols, AllocError> {
    Symbols::read(
        alloc,
        ByteText::copy(alloc, kallsyms)?,
        ByteText::copy(alloc, printk)?,
        ByteText::copy(alloc, cmdlines)?,
    )
}

#[test]
fn a_line_gives_a_name_only_in_its_form(rt: HostRuntime) -> Result<(), Fail> {
    let symbols = symbols_of(rt.alloc(), KALLSYMS, PRINTK, CMDLINES)?;
    names_are(&rt, rt.alloc(), &symbols)?;
    Ok(())
}

/// What is found of each of the addresses, and then of each of the pids.
fn finds(
    rt: &impl Abort,
    alloc: Global,
    symbols: &Symbols,
    addresses: &[u64],
    pids: &[i32],
    expected: &[u8],
) -> Result<(), AllocError> {
    let mut text = Vec::new(alloc);
    put_nearest(alloc, symbols, addresses, &mut text)?;
    put_comms(symbols, pids, &mut text)?;
    is(rt, &text, expected);
    Ok(())
}

const EQUAL_SYMBOLS: &[u8] = b"30 T late\nno line\n10 T first\n10 t second\n20 T middle\n";

const EQUAL_PRINTK: &[u8] = b"0x5 : \"one\"\n7 : \"two\"\n0x5 : \"again\"";

const EQUAL_PIDS: &[u8] = b"7 old\n0 swapper\n7 one\n\n1031 two\n2055 three";

#[test]
fn of_equal_numbers_one_counts(rt: HostRuntime) -> Result<(), Fail> {
    let symbols = symbols_of(rt.alloc(), EQUAL_SYMBOLS, EQUAL_PRINTK, EQUAL_PIDS)?;
    finds(
        &rt,
        rt.alloc(),
        &symbols,
        &[0, 0xf, 0x10, 0x1f, 0x20, 0x31, u64::MAX],
        &[7, 1031, 2055, 3079, 0],
        b"0 first\nf first\n0 middle\n1 late\nffffffffffffffcf late\none\ntwo\nthree\n<...>\n<idle>\n",
    )?;
    assert!(rt; symbols.printk_at(5) == Some(b"one".as_slice()) && symbols.printk_at(6).is_none());
    Ok(())
}

/// One symbol in page 1, two in page 2, and so on up to five.
const PAGES: &[u8] = b"10 T low\n1010 T a\n2010 T b\n2020 T bb\n3010 T c\n3020 T cc\n3030 T ccc
4010 T d\n4020 T dd\n4030 T ddd\n4040 T dddd\n5010 T e\n5020 T ee\n5030 T eee\n5040 T eeee\n5050 T eeeee\n7000 T high\n";

#[test]
fn pages_have_few_symbols_and_more(rt: HostRuntime) -> Result<(), Fail> {
    let symbols = symbols_of(rt.alloc(), PAGES, b"", b"")?;
    let addresses = [
        0x100f, 0x1010, 0x1fff, 0x200f, 0x2010, 0x201f, 0x2020, 0x300f, 0x3010, 0x3020, 0x302f,
        0x3030, 0x3fff, 0x400f, 0x4010, 0x4020, 0x4030, 0x403f, 0x4040, 0x500f, 0x5010, 0x5040,
        0x504f, 0x5050, 0x6000, 0x7000,
    ];
    let expected = b"fff low\n0 a\nfef a\nfff a\n0 b\nf b\n0 bb\nfef bb\n0 c\n0 cc\nf cc\n0 ccc
fcf ccc\nfdf ccc\n0 d\n0 dd\n0 ddd\nf ddd\n0 dddd\nfcf dddd\n0 e\n0 eeee\nf eeee\n0 eeeee
fb0 eeeee\n0 high\n";
    finds(&rt, rt.alloc(), &symbols, &addresses, &[], expected)?;
    Ok(())
}

/// So many lines of kallsyms, sixteen bytes apart.
fn put_kallsyms(text: &mut String, count: u64) -> Result<(), AllocError> {
    for i in 0..count {
        write!(text, "{i:015x}0 t symbol_{i}\n")?;
    }
    Ok(())
}

/// So many printk formats, from address 0 on.
fn put_printk(text: &mut String, count: u64) -> Result<(), AllocError> {
    for i in 0..count {
        write!(text, "0x{i:x} : \"text {i}\"\n")?;
    }
    Ok(())
}

/// So many saved command lines, from pid 0 on.
fn put_cmdlines(text: &mut String, count: u64) -> Result<(), AllocError> {
    for i in 0..count {
        write!(text, "{i} task_{i}\n")?;
    }
    Ok(())
}

/// Symbols of three texts, each of more than a hundred thousand bytes.
fn many(rt: &impl Abort, alloc: Global) -> Result<Symbols, AllocError> {
    let mut kallsyms = String::new(alloc);
    put_kallsyms(&mut kallsyms, 6_000)?;
    let mut printk = String::new(alloc);
    put_printk(&mut printk, 6_000)?;
    let mut cmdlines = String::new(alloc);
    put_cmdlines(&mut cmdlines, 9_000)?;
    let least = kallsyms.len().min(printk.len()).min(cmdlines.len());
    assert!(rt; least > 100_000);
    symbols_of(
        alloc,
        kallsyms.as_bytes(),
        printk.as_bytes(),
        cmdlines.as_bytes(),
    )
}

#[test]
fn long_texts_are_read(rt: HostRuntime) -> Result<(), Fail> {
    let symbols = many(&rt, rt.alloc())?;
    finds(
        &rt,
        rt.alloc(),
        &symbols,
        &[0x13, 0xff_ff00, 0x1_76f0],
        &[1, 1_025, 3_000, 8_999, 9_000],
        b"3 symbol_1\nfe8810 symbol_5999\n0 symbol_5999\ntask_1\ntask_1025\ntask_3000\ntask_8999\n<...>\n",
    )?;
    assert!(rt;
        symbols.symbol_count() == 6_000 && symbols.printk_at(5_999) == Some(b"text 5999".as_slice())
    );
    Ok(())
}
