//! Typed trees.

use c_operators::BinaryOp;
use fmt_literal::{CKind, CastTo};
use trace_base::{ByteText, Field};

/// An operator before its operand (C11 6.5.3.3).
#[derive(Clone, Copy, Debug, PartialEq, Eq)]
pub enum PrefixOp {
    /// `+`
    Plus,
    /// `-`
    Minus,
    /// `!`
    LogicNot,
    /// `~`
    Invert,
}

/// A typed tree: what one argument of a print fmt computes from a record.
#[derive(Drop)]
#[cycle(expr)]
pub enum Expr {
    /// A number that is written out: its 64 bits, sign-extended from a signed kind. Letters and `sizeof` are numbers too.
    Number {
        bits: u64,
        kind: CKind,
    },
    /// A text that is written out, with its escapes resolved.
    Literal {
        text: ByteText,
    },
    /// `REC->field` of a number or a pointer.
    FieldNumber {
        field: Field,
    },
    /// `REC->field` of a text, and `__get_str(field)`.
    FieldText {
        field: Field,
    },
    /// `REC->field` of bytes, and `__get_dynamic_array(field)`.
    FieldBytes {
        field: Field,
    },
    /// `REC->field[index]`: an element of a text or of bytes.
    Element {
        field: Field,
        index: Box<Expr>,
    },
    /// `__get_dynamic_array_len(field)`: how many bytes a dynamic field has.
    Length {
        field: Field,
    },
    /// An operator before its operand.
    Prefix {
        op: PrefixOp,
        of: Box<Expr>,
    },
    /// A cast.
    Cast {
        to: CastTo,
        of: Box<Expr>,
    },
    /// Operands with operators of one level between them, grouped from the left. `rest` is not empty.
    Chain {
        first: Box<Expr>,
        rest: Vec<Operand>,
    },
    /// `test ? yes : no`
    Choice {
        test: Box<Expr>,
        yes: Box<Expr>,
        no: Box<Expr>,
    },
    /// `__print_flags(value, between, entries)`: the texts of the flags that are set.
    Flags {
        value: Box<Expr>,
        between: ByteText,
        entries: Vec<Entry>,
    },
    /// `__print_symbolic(value, entries)`: the text of the value.
    Symbolic {
        value: Box<Expr>,
        entries: Vec<Entry>,
    },
    /// `__print_hex(bytes, count)`: bytes as hexadecimal digits.
    Hex {
        bytes: Box<Expr>,
        count: Box<Expr>,
    },
    /// `__print_array(bytes, count, size)`: elements of so many bytes each.
    Array {
        bytes: Box<Expr>,
        count: Box<Expr>,
        size: Box<Expr>,
    },
}

/// An operator with the operand after it.
#[derive(Drop)]
#[cycle(expr)]
pub struct Operand {
    pub op: BinaryOp,
    pub value: Expr,
}

/// A value with the text that is printed for it.
#[derive(Drop)]
#[cycle(expr)]
pub struct Entry {
    pub value: Expr,
    pub text: ByteText,
}
