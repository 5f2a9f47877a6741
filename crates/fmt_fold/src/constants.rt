//! Numbers that read no record.

ghost use Rattle.std.specs.Prelude.{◌≡◌, ◌&&◌, true};
ghost use Rattle.fmt_expr.specs.TreeView.{tree_of, operands_of};
ghost use Rattle.fmt_fold.specs.Constants.{is_written, all_written, is_fixed, is_constant, all_constant};
ghost use Rattle.fmt_fold.specs.Folded.{IsSettled, IsFolded};

use fmt_eval::number;
use fmt_expr::{Expr, Operand};
use trace_base::{Order, Rec};

fn is_written(expr: &Expr) -> bool
    ensures { result ≡ is_written (tree_of expr.now) }
{
    match expr {
        Expr::Number { .. } => true,
        _ => false,
    }
}

fn all_written(rest: &[Operand]) -> bool
    ensures { result ≡ all_written (operands_of rest.now) }
{
    for operand in rest {
        if !is_written(&operand.value) {
            return false;
        }
    }
    true
}

fn is_fixed_row(first: &Expr, rest: &[Operand]) -> bool
    ensures { result ≡ (is_written (tree_of first.now) && all_written (operands_of rest.now)) }
{
    is_written(first) && all_written(rest)
}

/// Whether a number is made of numbers that are written out.
fn is_fixed(expr: &Expr) -> bool
    ensures { result ≡ is_fixed (tree_of expr.now) }
{
    match expr {
        Expr::Number { .. } => true,
        Expr::Prefix { of, .. } | Expr::Cast { of, .. } => is_written(of),
        Expr::Chain { first, rest } => is_fixed_row(first, rest.as_slice()),
        Expr::Choice { test, yes, no } => is_written(test) && is_written(yes) && is_written(no),
        _ => false,
    }
}

/// Whether a number reads no record.
#[cycle(constant)]
pub fn is_constant(expr: &Expr) -> bool
    ensures { result ≡ is_constant (tree_of expr.now) }
{
    match expr {
        Expr::Number { .. } => true,
        Expr::Prefix { of, .. } | Expr::Cast { of, .. } => is_constant(of),
        Expr::Chain { first, rest } => is_constant_row(first, rest.as_slice()),
        Expr::Choice { test, yes, no } => is_constant(test) && is_constant(yes) && is_constant(no),
        _ => false,
    }
}

#[cycle(constant)]
fn is_constant_row(first: &Expr, rest: &[Operand]) -> bool
    ensures { result ≡ (is_constant (tree_of first.now) && all_constant (operands_of rest.now)) }
{
    is_constant(first) && all_constant(rest)
}

#[cycle(constant)]
fn all_constant(rest: &[Operand]) -> bool
    ensures { result ≡ all_constant (operands_of rest.now) }
{
    for operand in rest {
        if !is_constant(&operand.value) {
            return false;
        }
    }
    true
}

/// The same tree; where it is made of written numbers alone, the number that it is, written out.
#[tactic(auto, using(crate::proofs::Settled::settled_number, crate::proofs::Settled::settled_as_is))]
pub fn settled(expr: Expr) -> Expr
    ensures { IsSettled (tree_of result) (tree_of expr) }
{
    if !is_fixed(&expr) {
        return expr;
    }
    let nowhere = Rec {
        order: Order::Little,
        payload: &[],
    };
    let number = number(&expr, &nowhere);
    Expr::Number {
        bits: number.bits,
        kind: number.kind,
    }
}

/// The number that a constant is, written out. No memory is taken.
#[tactic(auto, using(crate::proofs::Fixed::constant_folded))]
pub fn written(expr: &Expr) -> Expr
    requires { is_constant (tree_of expr.now) ≡ true }
    ensures { IsFolded (tree_of result) (tree_of expr.now) }
{
    let nowhere = Rec {
        order: Order::Little,
        payload: &[],
    };
    let number = number(expr, &nowhere);
    Expr::Number {
        bits: number.bits,
        kind: number.kind,
    }
}
