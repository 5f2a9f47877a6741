//! Conditions are bound: their names get numbers.

ghost use Rattle.std.specs.Prelude.{◌≡◌, ℕ, Option, option_map, IfOk};
ghost use Rattle.trace_base.specs.declared.field.Field.{Field};
ghost use Rattle.filter_lang.specs.TreeView.{tree_of, operands_of};
ghost use Rattle.filter_truth.specs.Bound.{bind_name, bind_tree, bind_row, b_chain};
ghost use Rattle.filter_truth.specs.BoundFilter.{bind_cond};
ghost use Rattle.filter_truth.specs.BoundView.{bound_of, bound_row, asked};
ghost use Rattle.filter_truth.specs.Numbers.{Keeps, IsBound};

use crate::bound_expr::{BoundExpr, BoundOperand};
use crate::name_numbers::NameNumbers;
use filter_lang::{FilterExpr, FilterOperand};
use std::alloc::{AllocError, Global};
use trace_base::ByteText;

/// What a name stands for, whatever the fields of an event are.
fn bind_name<'a>(numbers: &mut NameNumbers<'a>, name: &'a [u8]) -> Result<BoundExpr, AllocError>
    ensures kept { Keeps numbers.old numbers.new }
    ensures bound { IfOk result (λ e. IsBound numbers.new (λ at. bound_of at e) (λ fields. bind_name fields name.now)) }
{
    if name == b"COMM".as_slice() {
        Ok(BoundExpr::Task)
    } else if name == b"CPU".as_slice() {
        Ok(BoundExpr::Cpu)
    } else {
        Ok(BoundExpr::Named(numbers.number(name)?))
    }
}

fn bound_chain(first: Box<BoundExpr>, rest: Vec<BoundOperand>) -> BoundExpr
    ensures { (at : ℕ → Option Field) → bound_of at result ≡ b_chain (bound_of at first.value) (bound_row at rest.items) }
{
    BoundExpr::Chain { first, rest }
}

/// A condition, with its names among the numbers.
#[cycle(binder)]
pub fn bind_expr<'a>(
    alloc: Global,
    numbers: &mut NameNumbers<'a>,
    expr: &'a FilterExpr,
) -> Result<BoundExpr, AllocError>
    ensures kept { Keeps numbers.old numbers.new }
    ensures bound { IfOk result (λ e. IsBound numbers.new (λ at. bound_of at e) (λ fields. bind_tree fields (tree_of expr.now))) }
{
    match expr {
        FilterExpr::Number(n) => Ok(BoundExpr::Number(*n)),
        FilterExpr::Text(bytes) => {
            let bytes = ByteText::copy(alloc, bytes.as_bytes())?;
            Ok(BoundExpr::Text(bytes))
        }
        FilterExpr::Field(name) => bind_name(numbers, name.as_bytes()),
        FilterExpr::Prefix { op, of } => {
            let of = Box::new(alloc, bind_expr(alloc, numbers, of)?)?;
            Ok(BoundExpr::Prefix { op: *op, of })
        }
        FilterExpr::Chain { first, rest } => {
            let start = bind_expr(alloc, numbers, first)?;
            let row = bind_operands(alloc, numbers, rest)?;
            let boxed = Box::new(alloc, start)?;
            Ok(bound_chain(boxed, row))
        }
    }
}

#[cycle(binder)]
fn bind_operands<'a>(
    alloc: Global,
    numbers: &mut NameNumbers<'a>,
    rest: &'a [FilterOperand],
) -> Result<Vec<BoundOperand>, AllocError>
    ensures kept { Keeps numbers.old numbers.new }
    ensures bound { IfOk result (λ v. IsBound numbers.new (λ at. bound_row at v.items) (λ fields. bind_row fields (operands_of rest.now))) }
{
    let mut bound = Vec::with_capacity(alloc, rest.len())?;
    for operand in rest {
        let value = bind_expr(alloc, numbers, &operand.value)?;
        bound.push(BoundOperand {
            op: operand.op,
            value,
        })?;
    }
    Ok(bound)
}

/// A filter's condition, with its names among the numbers.
pub fn bind_cond<'a>(
    alloc: Global,
    numbers: &mut NameNumbers<'a>,
    cond: &'a Option<FilterExpr>,
) -> Result<Option<BoundExpr>, AllocError>
    ensures { IfOk result (λ c. IsBound numbers.new (asked c) (bind_cond (option_map tree_of cond.now))) }
{
    match cond {
        None => Ok(None),
        Some(expr) => {
            let bound = bind_expr(alloc, numbers, expr)?;
            Ok(Some(bound))
        }
    }
}
