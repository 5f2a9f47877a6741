//! Fields of a record.

ghost use Rattle.std.specs.Prelude.{◌≡◌, ◌<◌, ◌≤◌, ◌+◌, length, option_map, IfOk, IfSome};
ghost use Rattle.fmt_expr.specs.Source.{is_dynamic};
ghost use Rattle.fmt_expr.specs.Fields.{field_tree, got_tree, is_indexed, named_at, dynamic_at};
ghost use Rattle.fmt_expr.specs.SourceView.{source};
ghost use Rattle.fmt_expr.specs.TreeView.{tree_of};

use crate::expr::Expr;
use crate::head::Got;
use crate::reader::Reader;
use std::alloc::{AllocError, Global};
use trace_base::{Field, FieldKind, FieldPlace};

/// Whether a field of this kind has elements, by the size of one.
pub fn is_indexed(kind: FieldKind, element: u32) -> bool
    ensures { result ≡ is_indexed kind element }
{
    matches!(kind, FieldKind::Text | FieldKind::Bytes) && matches!(element, 1 | 2 | 4 | 8)
}

/// Whether a word of the record says where the field's bytes stand.
fn is_dynamic(place: FieldPlace) -> bool
    ensures { result ≡ is_dynamic place }
{
    matches!(place, FieldPlace::DataLoc | FieldPlace::RelLoc)
}

/// The tree of a field.
pub fn field_expr(alloc: Global, field: &Field) -> Result<Expr, AllocError>
    ensures { IfOk result (λ e. tree_of e ≡ field_tree field.now field.now.kind) }
{
    let field = field.copy(alloc)?;
    Ok(match field.kind {
        FieldKind::Number | FieldKind::Pointer => Expr::FieldNumber { field },
        FieldKind::Text => Expr::FieldText { field },
        FieldKind::Bytes => Expr::FieldBytes { field },
    })
}

/// The tree of what a call gives of a field.
pub fn got_expr(alloc: Global, field: &Field, got: Got) -> Result<Expr, AllocError>
    ensures { IfOk result (λ e. tree_of e ≡ got_tree field.now got) }
{
    let field = field.copy(alloc)?;
    Ok(match got {
        Got::Text => Expr::FieldText { field },
        Got::Bytes => Expr::FieldBytes { field },
        Got::Length => Expr::Length { field },
    })
}

impl<'a> Reader<'a> {
    /// The field that is named after `REC` and `->`, which stand at a place.
    #[tactic(auto, unfolding(crate::specs::Fields::named_at))]
    pub fn named(&self, at: usize) -> Option<&'a Field>
        requires { at < length self.now.tokens.now }
        ensures value { option_map (λ f. f.now) result ≡ named_at (source self.now) at }
        ensures within { IfSome result (λ f. at + 3 ≤ length self.now.tokens.now) }
    {
        if !self.is_mark(at + 1, b"->") {
            return None;
        }
        let name = self.name(at + 2)?;
        self.fields.field(name)
    }

    /// The dynamic field that is named in the brackets of a call, whose name stands at a place.
    #[tactic(auto, unfolding(crate::specs::Fields::dynamic_at))]
    pub fn dynamic(&self, at: usize) -> Option<&'a Field>
        requires { at < length self.now.tokens.now }
        ensures value { option_map (λ f. f.now) result ≡ dynamic_at (source self.now) at }
        ensures within { IfSome result (λ f. at + 4 ≤ length self.now.tokens.now) }
    {
        if !self.is_mark(at + 1, b"(") {
            return None;
        }
        let name = self.name(at + 2)?;
        let field = self.fields.field(name)?;
        if !is_dynamic(field.place) || !self.is_mark(at + 3, b")") {
            return None;
        }
        Some(field)
    }
}
