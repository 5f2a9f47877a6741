//! What conditions are made of when they are computed: numbers of 128 bits, texts, or nothing.

ghost use Rattle.std.specs.Prelude.{◌≡◌};
ghost use Rattle.filter_truth.specs.Values.{is_true, bit, arithmetic, compared, same_text, is_comparison, comparison, computed, binary, prefixed, shift_left, shift_right};
ghost use Rattle.filter_truth.specs.ValueView.{data_of};

use c_operators::BinaryOp;
use filter_lang::FilterPrefix;

/// A value.
#[derive(Clone, Copy, Debug)]
pub enum Value<'a> {
    Number(i128),
    Text(&'a [u8]),
    Absent,
}

/// Whether a value is a number other than 0.
pub fn is_true(value: Value<'_>) -> bool
    ensures { result ≡ is_true (data_of value.entry) }
{
    match value {
        Value::Number(n) => n != 0,
        Value::Text(_) | Value::Absent => false,
    }
}

/// 1 or 0.
pub fn bit(test: bool) -> Value<'static>
    ensures { data_of result ≡ bit test }
{
    Value::Number(i128::from(u64::from(test)))
}

/// A shift to the left; a count outside 0 to 127 gives 0.
#[tactic(auto, unfolding(crate::specs::Values::shift_left))]
fn shift_left(a: i128, by: i128) -> i128
    ensures { result ≡ shift_left a by }
{
    if by < 0 || by > 127 {
        return 0;
    }
    a << by.cast_unsigned()
}

/// An arithmetic shift to the right; a count outside 0 to 127 gives 0.
#[tactic(auto, unfolding(crate::specs::Values::shift_right))]
fn shift_right(a: i128, by: i128) -> i128
    ensures { result ≡ shift_right a by }
{
    if by < 0 || by > 127 {
        return 0;
    }
    a >> by.cast_unsigned()
}

/// An operator of arithmetic on two numbers. All wrap; a division by 0 gives 0.
#[tactic(auto, unfolding(crate::specs::Values::arithmetic))]
pub fn arithmetic(op: BinaryOp, a: i128, b: i128) -> i128
    ensures { result ≡ arithmetic op a b }
{
    match op {
        BinaryOp::BitOr => a | b,
        BinaryOp::BitXor => a ^ b,
        BinaryOp::BitAnd => a & b,
        BinaryOp::ShiftLeft => shift_left(a, b),
        BinaryOp::ShiftRight => shift_right(a, b),
        BinaryOp::Plus => a.wrapping_add(b),
        BinaryOp::Minus => a.wrapping_sub(b),
        BinaryOp::Times => a.wrapping_mul(b),
        BinaryOp::Divide => {
            if b == 0 {
                return 0;
            }
            a.wrapping_div(b)
        }
        BinaryOp::Remainder => {
            if b == 0 {
                return 0;
            }
            a.wrapping_rem(b)
        }
        _ => 0,
    }
}

/// A comparison of two numbers.
fn compared(op: BinaryOp, a: i128, b: i128) -> bool
    ensures { result ≡ compared op a b }
{
    match op {
        BinaryOp::Equal => a == b,
        BinaryOp::NotEqual => a != b,
        BinaryOp::Less => a < b,
        BinaryOp::LessEqual => a <= b,
        BinaryOp::Greater => a > b,
        BinaryOp::GreaterEqual => a >= b,
        _ => false,
    }
}

/// A comparison of two texts.
fn same_text(op: BinaryOp, a: &[u8], b: &[u8]) -> bool
    ensures { result ≡ same_text op a.now b.now }
{
    match op {
        BinaryOp::Equal => a == b,
        BinaryOp::NotEqual => a != b,
        _ => false,
    }
}

fn is_comparison(op: BinaryOp) -> bool
    ensures { result ≡ is_comparison op }
{
    matches!(
        op,
        BinaryOp::Equal
            | BinaryOp::NotEqual
            | BinaryOp::Less
            | BinaryOp::LessEqual
            | BinaryOp::Greater
            | BinaryOp::GreaterEqual
    )
}

/// A comparison; one with an absent value, or of a text with a number, is false.
fn comparison(op: BinaryOp, a: Value<'_>, b: Value<'_>) -> bool
    ensures { result ≡ comparison op (data_of a.entry) (data_of b.entry) }
{
    match (a, b) {
        (Value::Number(a), Value::Number(b)) => compared(op, a, b),
        (Value::Text(a), Value::Text(b)) => same_text(op, a, b),
        _ => false,
    }
}

fn computed<'a>(op: BinaryOp, a: Value<'a>, b: Value<'a>) -> Value<'a>
    ensures { data_of result ≡ computed op (data_of a.entry) (data_of b.entry) }
{
    match (a, b) {
        (Value::Number(a), Value::Number(b)) => Value::Number(arithmetic(op, a, b)),
        _ => Value::Absent,
    }
}

/// An operator on two values.
pub fn binary<'a>(op: BinaryOp, a: Value<'a>, b: Value<'a>) -> Value<'a>
    ensures { data_of result ≡ binary op (data_of a.entry) (data_of b.entry) }
{
    match op {
        BinaryOp::LogicOr => bit(is_true(a) || is_true(b)),
        BinaryOp::LogicAnd => bit(is_true(a) && is_true(b)),
        _ if is_comparison(op) => bit(comparison(op, a, b)),
        _ => computed(op, a, b),
    }
}

/// An operator before its operand.
pub fn prefixed<'a>(op: FilterPrefix, of: Value<'a>) -> Value<'a>
    ensures { data_of result ≡ prefixed op (data_of of.entry) }
{
    match (op, of) {
        (FilterPrefix::Not, _) => bit(!is_true(of)),
        (FilterPrefix::Minus, Value::Number(n)) => Value::Number(n.wrapping_neg()),
        (FilterPrefix::Invert, Value::Number(n)) => Value::Number(!n),
        _ => Value::Absent,
    }
}
