//! What is known of an event, and the values that it gives.

ghost use Rattle.std.specs.Prelude.{◌≡◌, true};
ghost use Rattle.std.specs.Option.{option_copied};
ghost use Rattle.filter_truth.specs.Values.{ValueData, is_true, bit, binary};
ghost use Rattle.filter_truth.specs.Naming.{field_value, value_if};
ghost use Rattle.filter_truth.specs.Bound.{bound_value, bound_along};
ghost use Rattle.filter_truth.specs.BoundView.{bound_of, bound_row};
ghost use Rattle.filter_truth.specs.Columns.{field_at};
ghost use Rattle.filter_truth.specs.EventView.{event_of};
ghost use Rattle.filter_truth.specs.ValueView.{data_of};

use crate::bound_expr::{BoundExpr, BoundOperand};
use crate::column::Column;
use crate::value::{Value, binary, bit, is_true, prefixed};
use c_operators::BinaryOp;
use trace_base::{Field, FieldKind, Rec, bytes_of, number_of, until_nul};

/// An event: its record, its task's name and its processor.
#[derive(Clone, Copy, Drop)]
pub struct Event<'a> {
    pub rec: Rec<'a>,
    pub comm: &'a [u8],
    pub cpu: u32,
}

/// Where the fields of a format are found by the numbers of their names.
#[derive(Clone, Copy, Drop)]
pub struct FormatFields<'a> {
    pub columns: &'a [Column],
    pub format: usize,
}

impl<'a> FormatFields<'a> {
    /// What the name of this number stands for in the format.
    fn field(&self, number: usize) -> Option<&'a Field>
        ensures { option_copied result ≡ field_at self.now.columns.now self.now.format number }
    {
        self.columns.get(number)?.field(self.format)
    }
}

/// The value of a field of an event, if it has one.
fn field_value<'a>(event: &Event<'a>, field: Option<&Field>) -> Value<'a>
    ensures { data_of result ≡ value_if (event_of event.now) (option_copied field.entry) }
{
    let Some(field) = field else {
        return Value::Absent;
    };
    match field.kind {
        FieldKind::Number => Value::Number(number_of(&event.rec, field)),
        FieldKind::Pointer => Value::Number(number_of(&event.rec, field)),
        FieldKind::Text => Value::Text(until_nul(bytes_of(&event.rec, field))),
        FieldKind::Bytes => Value::Absent,
    }
}

/// Whether a value before this operator decides, whatever follows it.
fn decides(op: BinaryOp, value: Value<'_>) -> bool
    ensures { (other : ValueData) → result ≡ true → binary op (data_of value.entry) other ≡ bit (is_true (data_of value.entry)) }
{
    match op {
        BinaryOp::LogicOr => is_true(value),
        BinaryOp::LogicAnd => !is_true(value),
        _ => false,
    }
}

/// The value of a condition at an event.
#[cycle(walk)]
pub fn value<'a>(expr: &'a BoundExpr, fields: &FormatFields<'_>, event: &Event<'a>) -> Value<'a>
    ensures { data_of result ≡ bound_value (event_of event.now) (bound_of (field_at fields.now.columns.now fields.now.format) expr.now) }
{
    match expr {
        BoundExpr::Number(n) => Value::Number(i128::from(*n)),
        BoundExpr::Text(bytes) => Value::Text(bytes.as_bytes()),
        BoundExpr::Task => Value::Text(event.comm),
        BoundExpr::Cpu => Value::Number(i128::from(event.cpu)),
        BoundExpr::Named(number) => field_value(event, fields.field(*number)),
        BoundExpr::Prefix { op, of } => prefixed(*op, value(of, fields, event)),
        BoundExpr::Chain { first, rest } => along(value(first, fields, event), rest, fields, event),
    }
}

/// The value of the operators of one level, from the left. What follows a decision is not looked at.
#[cycle(walk)]
fn along<'a>(
    start: Value<'a>,
    rest: &'a [BoundOperand],
    fields: &FormatFields<'_>,
    event: &Event<'a>,
) -> Value<'a>
    ensures { data_of result ≡ bound_along (event_of event.now) (data_of start.entry) (bound_row (field_at fields.now.columns.now fields.now.format) rest.now) }
{
    let mut so_far = start;
    for operand in rest {
        so_far = if decides(operand.op, so_far) {
            bit(is_true(so_far))
        } else {
            binary(operand.op, so_far, value(&operand.value, fields, event))
        };
    }
    so_far
}
