//! Print fmts and their trees.

ghost use Rattle.std.specs.Prelude.{◌≡◌, ◌⊎◌};

use crate::marks::{add, put_mark};
use crate::rows::{put_often, repeated};
use fmt_expr::{Entry, Expr, Operand, PrefixOp, PrintFmt, parse_args};
use fmt_lexer::tokens;
use fmt_literal::{CKind, CastTo};
use std::alloc::{AllocError, Global};
use std::test::Fail;
use trace_base::{ByteText, Field, FieldKind, FieldPlace};

fn prefix_text(op: PrefixOp) -> &'static [u8] {
    match op {
        PrefixOp::Plus => b"(+",
        PrefixOp::Minus => b"(-",
        PrefixOp::LogicNot => b"(!",
        PrefixOp::Invert => b"(~",
    }
}

fn kind_text(kind: CKind) -> &'static [u8] {
    match kind {
        CKind::I32 => b"i",
        CKind::U32 => b"u",
        CKind::I64 => b"I",
        CKind::U64 => b"U",
    }
}

fn cast_text(to: CastTo) -> &'static [u8] {
    match to {
        CastTo::Bits { width, signed } => match (width, signed) {
            (8, true) => b"<8i ",
            (8, false) => b"<8u ",
            (16, true) => b"<16i ",
            (16, false) => b"<16u ",
            (32, true) => b"<32i ",
            (32, false) => b"<32u ",
            (64, true) => b"<64i ",
            (64, false) => b"<64u ",
            _ => b"<? ",
        },
        CastTo::Truth => b"<bool ",
        CastTo::Same => b"<",
    }
}

fn put_field(out: &mut Vec<u8>, mark: &[u8], field: &Field) {
    add(out, mark);
    add(out, field.name.as_bytes());
}

fn put_text(out: &mut Vec<u8>, text: &ByteText) {
    add(out, b"\"");
    add(out, text.as_bytes());
    add(out, b"\"");
}

#[cycle(put)]
fn put_rest(out: &mut Vec<u8>, rest: &[Operand]) {
    for operand in rest {
        put_mark(out, operand.op);
        put(out, &operand.value);
    }
}

#[cycle(put)]
fn put_entries(out: &mut Vec<u8>, entries: &[Entry]) {
    for entry in entries {
        add(out, b",");
        put(out, &entry.value);
        add(out, b" ");
        put_text(out, &entry.text);
    }
}

#[cycle(put)]
fn put(out: &mut Vec<u8>, expr: &Expr) {
    match expr {
        Expr::Number { bits, kind } => {
            add(out, itoa::Buffer::new().format(*bits).as_bytes());
            add(out, kind_text(*kind));
        }
        Expr::Literal { text } => put_text(out, text),
        Expr::FieldNumber { field } => put_field(out, b"", field),
        Expr::FieldText { field } => put_field(out, b"$", field),
        Expr::FieldBytes { field } => put_field(out, b"@", field),
        Expr::Length { field } => put_field(out, b"#", field),
        Expr::Element { field, index } => {
            put_field(out, b"", field);
            add(out, b"[");
            put(out, index);
            add(out, b"]");
        }
        Expr::Prefix { op, of } => {
            add(out, prefix_text(*op));
            put(out, of);
            add(out, b")");
        }
        Expr::Cast { to, of } => {
            add(out, cast_text(*to));
            put(out, of);
            add(out, b">");
        }
        Expr::Chain { first, rest } => {
            add(out, b"(");
            put(out, first);
            put_rest(out, rest);
            add(out, b")");
        }
        Expr::Choice { test, yes, no } => {
            put(out, test);
            add(out, b"?");
            put(out, yes);
            add(out, b":");
            put(out, no);
        }
        Expr::Flags {
            value,
            between,
            entries,
        } => {
            add(out, b"F(");
            put(out, value);
            add(out, b",");
            put_text(out, between);
            put_entries(out, entries);
            add(out, b")");
        }
        Expr::Symbolic { value, entries } => {
            add(out, b"S(");
            put(out, value);
            put_entries(out, entries);
            add(out, b")");
        }
        Expr::Hex { bytes, count } => {
            add(out, b"H(");
            put(out, bytes);
            add(out, b",");
            put(out, count);
            add(out, b")");
        }
        Expr::Array { bytes, count, size } => {
            add(out, b"A(");
            put(out, bytes);
            add(out, b",");
            put(out, count);
            add(out, b",");
            put(out, size);
            add(out, b")");
        }
    }
}

/// How the arguments of a print fmt are written below.
fn written(alloc: Global, fmt: &PrintFmt) -> Vec<u8> {
    let mut out = Vec::new(alloc);
    for (i, arg) in fmt.args.as_slice().iter().enumerate() {
        if i > 0 {
            add(&mut out, b";");
        }
        put(&mut out, arg);
    }
    out
}

/// The print fmt that a text is.
fn read(
    alloc: Global,
    text: &[u8],
    fields: &[Field],
    long: u32,
) -> Result<Option<PrintFmt>, AllocError>
    requires { (long ≡ 4) ⊎ (long ≡ 8) }
{
    match tokens(alloc, text)? {
        Some(row) => parse_args(alloc, text, &row, fields, long),
        None => Ok(None),
    }
}

/// A field's name, its kind, its place, and how many bytes its elements have.
const FIELDS: &[(&str, FieldKind, FieldPlace, u32)] = &[
    ("a", FieldKind::Number, FieldPlace::Fixed, 1),
    ("p", FieldKind::Pointer, FieldPlace::Fixed, 1),
    ("t", FieldKind::Text, FieldPlace::Fixed, 1),
    ("b", FieldKind::Bytes, FieldPlace::Fixed, 2),
    ("w", FieldKind::Bytes, FieldPlace::Fixed, 3),
    ("twice", FieldKind::Number, FieldPlace::Fixed, 1),
    ("twice", FieldKind::Text, FieldPlace::Fixed, 1),
    ("d", FieldKind::Text, FieldPlace::DataLoc, 1),
    ("e", FieldKind::Bytes, FieldPlace::RelLoc, 1),
    ("ip", FieldKind::Number, FieldPlace::Fixed, 1),
    ("parent_ip", FieldKind::Number, FieldPlace::Fixed, 1),
    ("prev_comm", FieldKind::Text, FieldPlace::Fixed, 1),
    ("prev_pid", FieldKind::Number, FieldPlace::Fixed, 1),
    ("prev_prio", FieldKind::Number, FieldPlace::Fixed, 1),
    ("prev_state", FieldKind::Number, FieldPlace::Fixed, 1),
    ("next_comm", FieldKind::Text, FieldPlace::Fixed, 1),
    ("next_pid", FieldKind::Number, FieldPlace::Fixed, 1),
    ("next_prio", FieldKind::Number, FieldPlace::Fixed, 1),
];

fn field(
    alloc: Global,
    name: &str,
    kind: FieldKind,
    place: FieldPlace,
    element: u32,
) -> Result<Field, AllocError> {
    Ok(Field {
        name: ByteText::copy(alloc, name.as_bytes())?,
        offset: 8,
        size: 4,
        signed: false,
        kind,
        place,
        element,
    })
}

fn fields(alloc: Global) -> Result<Vec<Field>, AllocError> {
    let mut fields = Vec::new(alloc);
    for (name, kind, place, element) in FIELDS {
        fields.push(field(alloc, name, *kind, *place, *element)?)?;
    }
    Ok(fields)
}

/// How the arguments of the print fmt that a text is are written below; `!` where it is none.
fn trees(alloc: Global, text: &[u8], long: u32) -> Result<Vec<u8>, AllocError>
    requires { (long ≡ 4) ⊎ (long ≡ 8) }
{
    match read(alloc, text, &fields(alloc)?, long)? {
        Some(fmt) => Ok(written(alloc, &fmt)),
        None => b"!".to_vec(alloc),
    }
}

/// The same of the arguments after a text.
fn behind_text(alloc: Global, arguments: &str) -> Result<Vec<u8>, AllocError> {
    let text = format!(in alloc; "\"x\", {arguments}")?;
    trees(alloc, text.as_bytes(), 8)
}

fn in_brackets(alloc: Global, many: u32, behind: &str) -> Result<Vec<u8>, AllocError> {
    let mut text = b"\"%d\", ".to_vec(alloc)?;
    put_often(&mut text, "(", many)?;
    text.extend_from_slice(b"REC->a")?;
    put_often(&mut text, ")", many)?;
    text.extend_from_slice(behind.as_bytes())?;
    Ok(text)
}

/// The same of a field in so many brackets, with something after it.
fn nested(alloc: Global, row: &str) -> Result<Vec<u8>, AllocError> {
    let (many, behind) = row.split_once(' ').unwrap_or((row, ""));
    let many = many.parse::<u32>().unwrap_or(0);
    trees(alloc, &in_brackets(alloc, many, behind)?, 8)
}

/// How many arguments a print fmt has, how many operands its last one, and how long its text is.
fn sizes(fmt: &PrintFmt) -> (usize, usize, usize) {
    let args = fmt.args.as_slice();
    let operands = match args.last() {
        Some(Expr::Chain { rest, .. }) => rest.len(),
        _ => 0,
    };
    (args.len(), operands, fmt.text.as_bytes().len())
}

fn sizes_text(alloc: Global, text: &[u8]) -> Result<Vec<u8>, AllocError> {
    let (args, operands, len) = match read(alloc, text, &[], 8)? {
        Some(fmt) => sizes(&fmt),
        None => (0, 0, 0),
    };
    format!(in alloc; "{args} {operands} {len}")?
        .as_bytes()
        .to_vec(alloc)
}

pub(crate) fn told(alloc: Global, kind: &str, text: &str) -> Result<Vec<u8>, Fail> {
    Ok(match kind {
        "trees" => behind_text(alloc, text),
        "fmt" => trees(alloc, text.as_bytes(), 8),
        "narrow-fmt" => trees(alloc, text.as_bytes(), 4),
        "nested" => nested(alloc, text),
        _ => sizes_text(alloc, &repeated(alloc, text)?),
    }?)
}

// Arguments, and how they are written; `!` stands for none.
//
// A number is its digits and `i`, `u`, `I` or `U` for its kind; fields of numbers, texts and bytes are `a`, `$t` and
// `@b`, a length `#d`; operators of one level stand in one pair of round brackets, and so does each operator before
// its operand; casts are `<8i x>`, `<bool x>` and `<x>`.
//
// Then whole print fmts, some with a long of 4 bytes; a field in so many brackets, and what follows it; how many arguments,
// operands and bytes long ones have; and the print fmts of a kernel's `function` and `sched_switch`.
pub(crate) static ROWS: &str = r#"trees REC->a => a
trees REC->p => p
trees REC->t => $t
trees REC->b => @b
trees REC->none => !
trees REC a => !
trees REC-> => !
trees a => !
trees  => !
trees REC->twice => twice
trees REC->b[REC->a] => b[a]
trees REC->t[0] => t[0i]
trees REC->w[0] => !
trees REC->a[0] => !
trees REC->p[0] => !
trees REC->b[REC->t] => !
trees REC->b[0 => !
trees REC->b[REC->b[1]] + 1 => (b[b[1i]] + 1i)
trees REC->b[0][1] => !
trees 2147483647 => 2147483647i
trees 2147483648 => 2147483648I
trees 0x7fffffff => 2147483647i
trees 0x80000000 => 2147483648u
trees 0xffffffff => 4294967295u
trees 0x100000000 => 4294967296I
trees 9223372036854775807 => 9223372036854775807I
trees 9223372036854775808 => 9223372036854775808U
trees 0x8000000000000000 => 9223372036854775808U
trees 010 => 8i
trees 0 => 0i
trees 1u => 1u
trees 4294967296u => 4294967296U
trees 1l => 1I
trees 0xffffffffl => 4294967295I
trees 1ul => 1U
trees 1LL => 1I
trees 1llu => 1U
trees 07777777777777777777777 => !
trees 'a' => 97i
trees '\n' => 10i
trees '\0' => 0i
trees '\x41' => 65i
trees '\377' => 255i
trees '\400' => 0i
trees '\q' => 113i
trees "a" "b" => "ab"
trees "\1234" => "S4"
trees "a" 1 => !
trees "" => ""
trees -REC->a => (-a)
trees !~+-1 => (!(~(+(-1i))))
trees -REC->t => !
trees - => !
trees REC->a - -1 => (a - (-1i))
trees REC->a - 1 - 2 => (a - 1i - 2i)
trees 1 + 2 * 3 => (1i + (2i * 3i))
trees 1 * 2 + 3 => ((1i * 2i) + 3i)
trees REC->a & 1 == 2 => (a & (1i == 2i))
trees 1 << 2 + 3 => (1i << (2i + 3i))
trees 1 | 2 ^ 3 & 4 => (1i | (2i ^ (3i & 4i)))
trees 1 || 2 && 3 => (1i || (2i && 3i))
trees 1 < 2 >= 3 != 4 => ((1i < 2i >= 3i) != 4i)
trees 1 / 2 % 3 => (1i / 2i % 3i)
trees REC->a + REC->t => !
trees REC->t + REC->a => !
trees 1 + => !
trees REC->a ? 1 : 2 => a?1i:2i
trees 1 ? 2 : 3 ? 4 : 5 => 1i?2i:3i?4i:5i
trees REC->a ? REC->t : "no" => a?$t:"no"
trees REC->a ? REC->t : 1 => !
trees REC->t ? 1 : 2 => !
trees 1 ? 2 => !
trees 1 ? REC->b : REC->b => 1i?@b:@b
trees (REC->a) => a
trees ((1 + 2)) * 3 => ((1i + 2i) * 3i)
trees (REC->a => !
trees (u8)REC->a => <8u a>
trees (signed char)1 => <8i 1i>
trees (unsigned short int)1 => <16u 1i>
trees (const long)1 => <64i 1i>
trees (unsigned long)(REC->a) => <64u a>
trees (long long int)1 => <64i 1i>
trees (pid_t)1 => <32i 1i>
trees (bool)1 => <bool 1i>
trees (gfp_t)1 => <1i>
trees (struct page *)1 => <64u 1i>
trees (void **)1 => <64u 1i>
trees (const)1 => <1i>
trees (long unsigned)1 => <1i>
trees (u8)REC->t => <8u $t>
trees (int)1 + 2 => (<32i 1i> + 2i)
trees (u8)(u16)-1 => <8u <16u (-1i)>>
trees (REC)1 => !
trees (u8) => !
trees (char * const)1 => !
trees sizeof(u32) => 4U
trees sizeof(unsigned long) => 8U
trees sizeof(void *) => 8U
trees sizeof(bool) => 1U
trees sizeof(struct page) => !
trees sizeof(1) => !
trees sizeof u32 => !
trees __get_str(d) => $d
trees __get_rel_str(e) => $e
trees __get_dynamic_array(d) => @d
trees __get_rel_dynamic_array(e) => @e
trees __get_dynamic_array_len(d) => #d
trees __get_rel_dynamic_array_len(e) / 4 => (#e / 4i)
trees __get_str(t) => !
trees __get_str(none) => !
trees __get_str(1) => !
trees __get_str(d => !
trees __print_flags(REC->a, "|", { 1, "S" }, { 0x2, "D" "E" }) => F(a,"|",1i "S",2i "DE")
trees __print_flags(REC->a, "", {1, ""})  => F(a,"",1i "")
trees __print_flags(REC->a, "|") => !
trees __print_flags(REC->t, "|", { 1, "S" }) => !
trees __print_flags(REC->a, 1, { 1, "S" }) => !
trees __print_flags(REC->a, "|", { REC->t, "S" }) => !
trees __print_flags(REC->a, "|", { 1, "S" },) => !
trees __print_symbolic(REC->a + 1, { -1, "x" }, { 2, "y" }) => S((a + 1i),(-1i) "x",2i "y")
trees __print_symbolic(REC->a) => !
trees __print_symbolic(REC->a, { 1 }) => !
trees __print_hex(REC->b, 4) => H(@b,4i)
trees __print_hex((u8 *)(REC->t), REC->a) => H(<64u $t>,a)
trees __print_hex(__get_str(d), __get_dynamic_array_len(d)) => H($d,#d)
trees __print_hex(1 ? REC->b : REC->b, 1) => H(1i?@b:@b,1i)
trees __print_hex(1 ? REC->t : REC->t, 1) => !
trees __print_hex("x", 1) => !
trees __print_hex(REC->a, 1) => !
trees __print_hex(REC->b, REC->t) => !
trees __print_hex(REC->b) => !
trees __print_array(__get_dynamic_array(e), 2, 4) => A(@e,2i,4i)
trees __print_array(REC->b, 2) => !
trees __print_array(REC->b, 2, REC->t) => !
trees __print_sth(1) => !
trees 1, REC->t, 2 => 1i;$t;2i
trees 1, => !
trees 1 2 => !
trees REC->a, (REC->a & 0x7f) ? __print_flags(REC->a & 0x7f, "|", { 1, "S" }) : "R", REC->a & (0x7f + 1) ? "+" : "" => a;(a & 127i)?F((a & 127i),"|",1i "S"):"R";(a & (127i + 1i))?"+":""
trees ((unsigned int) ((REC->p) >> 20)), ((unsigned int) ((REC->p) & ((1U << 20) - 1))) => <32u (p >> 20i)>;<32u (p & ((1u << 20i) - 1i))>
trees "\x41\102\x20\"\q\x" => "AB "qx"
fmt "x" => 
fmt  => !
fmt REC->a => !
narrow-fmt "x" "y", 1l => 1i
narrow-fmt "x", 0xfffffffful => 4294967295u
narrow-fmt "x", 1ll => 1I
narrow-fmt "x", (unsigned long)1 => <32u 1i>
narrow-fmt "x", sizeof(long) => 4u
nested 64 => a
nested 65 => !
nested 63 ? 1 : 2 => a?1i:2i
nested 64 ? 1 : 2 => !
nested 64 + 1 + 2 => (a + 1i + 2i)
nested 64 + sizeof(int) => (a + 4U)
sizes 1500|""|, 1| => 1500 0 0
sizes 1500|"", 1| + 1| => 1 1500 0
sizes 70000|"|a|" => 0 0 70000
fmt " %ps <-- %ps", (void *)REC->ip, (void *)REC->parent_ip => <64u ip>;<64u parent_ip>
fmt "prev_comm=%s prev_pid=%d prev_prio=%d prev_state=%s%s ==> next_comm=%s next_pid=%d next_prio=%d", REC->prev_comm, REC->prev_pid, REC->prev_prio, (REC->prev_state & ((((0x00 | 0x01 | 0x02 | 0x04 | 0x08 | 0x10 | 0x20 | 0x40) + 1) << 1) - 1)) ? __print_flags(REC->prev_state & ((((0x00 | 0x01 | 0x02 | 0x04 | 0x08 | 0x10 | 0x20 | 0x40) + 1) << 1) - 1), "|", { 0x01, "S" }, { 0x02, "D" }, { 0x04, "T" }, { 0x08, "t" }, { 0x10, "X" }, { 0x20, "Z" }, { 0x40, "P" }, { 0x80, "I" }) : "R", REC->prev_state & (((0x00 | 0x01 | 0x02 | 0x04 | 0x08 | 0x10 | 0x20 | 0x40) + 1) << 1) ? "+" : "", REC->next_comm, REC->next_pid, REC->next_prio => $prev_comm;prev_pid;prev_prio;(prev_state & ((((0i | 1i | 2i | 4i | 8i | 16i | 32i | 64i) + 1i) << 1i) - 1i))?F((prev_state & ((((0i | 1i | 2i | 4i | 8i | 16i | 32i | 64i) + 1i) << 1i) - 1i)),"|",1i "S",2i "D",4i "T",8i "t",16i "X",32i "Z",64i "P",128i "I"):"R";(prev_state & (((0i | 1i | 2i | 4i | 8i | 16i | 32i | 64i) + 1i) << 1i))?"+":"";$next_comm;next_pid;next_prio"#;
