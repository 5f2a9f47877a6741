//! All of a print fmt.

ghost use Rattle.std.specs.Prelude.{◌≡◌, ◌≤◌, ◌⊎◌, map, length, IfOk, IfSome, IfNone, Some, option_map};
ghost use Rattle.fmt_lexer.specs.Tokens.{AreTokens};
ghost use Rattle.fmt_expr.specs.Parsing.{FmtData, args_at, fmt_in};
ghost use Rattle.fmt_expr.specs.Derivation.{IsFmtOf};
ghost use Rattle.fmt_expr.specs.Steps.{Gives};
ghost use Rattle.fmt_expr.specs.SourceView.{source, source_of};
ghost use Rattle.fmt_expr.specs.TreeView.{tree_of};
ghost use Rattle.fmt_expr.specs.FmtView.{fmt_of};

use crate::expr::Expr;
use crate::fault::ParseFault;
use crate::print_fmt::PrintFmt;
use crate::reader::Reader;
use field_names::FieldNames;
use fmt_lexer::Token;
use std::alloc::{AllocError, Global};
use trace_base::{Field, ListOf};

/// How deep an argument may nest.
const DEEPEST: u32 = 64;

impl<'a> Reader<'a> {
    /// The arguments from a place to the end.
    fn args(&self, at: usize) -> Result<Vec<Expr>, ParseFault>
        requires { (at ≤ length self.now.tokens.now) × (1 ≤ at) }
        ensures { Gives (λ v. map tree_of v.items) result (args_at (source self.now) (length self.now.tokens.now) at) }
    {
        let mut args = Vec::new(self.alloc);
        let mut next = at;
        while next != self.tokens.len() {
            if !self.is_mark(next, b",") {
                return Err(ParseFault::NoTree);
            }
            let arg = self.cond(DEEPEST, next + 1)?;
            next = arg.next;
            args.push(Box::into_inner(arg.expr))?;
        }
        Ok(args)
    }

    /// The whole print fmt.
    #[tactic(auto, unfolding(crate::specs::Parsing::fmt_in))]
    fn fmt(&self) -> Result<PrintFmt, ParseFault>
        ensures { Gives fmt_of result (fmt_in (source self.now)) }
    {
        let text = self.text(0)?;
        let args = self.args(text.next)?;
        Ok(PrintFmt {
            text: text.text,
            args: ListOf::from_vec(args),
            long: self.long,
        })
    }
}

/// What the tokens are, as it is computed.
fn given(
    alloc: Global,
    text: &[u8],
    tokens: &[Token],
    fields: &[Field],
    long: u32,
) -> Result<Option<PrintFmt>, AllocError>
    requires tokens { AreTokens text.now tokens.now }
    requires long { (long ≡ 4) ⊎ (long ≡ 8) }
    ensures { IfOk result (λ o. option_map fmt_of o ≡ fmt_in (source_of text.now tokens.now fields.now long)) }
{
    let fields = FieldNames::of(alloc, fields)?;
    let reader = Reader {
        alloc,
        text,
        tokens,
        fields: &fields,
        long,
    };
    match reader.fmt() {
        Ok(fmt) => Ok(Some(fmt)),
        Err(ParseFault::NoTree) => Ok(None),
        Err(ParseFault::Memory) => Err(AllocError),
    }
}

/// The typed trees of a print fmt: of the tokens of its text, with the fields of its event and the size of the
/// kernel's long in bytes, 4 or 8. None exactly where no trees that nest at most 64 deep are spelled by the tokens.
///
/// A tree nests as deep as the brackets, calls, casts, conditionals and operators before their operand, in whose
/// operands one of its tokens stands. Operators of one level add nothing.
///
/// # Errors
///
/// Want of memory alone.
#[tactic(auto, using(crate::proofs::Fmts::found_in, crate::proofs::Fmts::every_in, crate::proofs::Fmts::none_in))]
pub fn parse_args(
    alloc: Global,
    text: &[u8],
    tokens: &[Token],
    fields: &[Field],
    long: u32,
) -> Result<Option<PrintFmt>, AllocError>
    requires tokens { AreTokens text.now tokens.now }
    requires long { (long ≡ 4) ⊎ (long ≡ 8) }
    // What is given stands there.
    ensures found { IfOk result (λ o. IfSome o (λ p. IsFmtOf (source_of text.now tokens.now fields.now long) (fmt_of p))) }
    // What stands there is given, this very tree.
    ensures every { IfOk result (λ o. (f : FmtData) → IsFmtOf (source_of text.now tokens.now fields.now long) f → option_map fmt_of o ≡ Some f) }
    // None only where nothing stands there.
    ensures none { IfOk result (λ o. IfNone o ((f : FmtData) → IsFmtOf (source_of text.now tokens.now fields.now long) f → ⊥)) }
    ensures exact { IfOk result (λ o. option_map fmt_of o ≡ fmt_in (source_of text.now tokens.now fields.now long)) }
{
    given(alloc, text, tokens, fields, long)
}
