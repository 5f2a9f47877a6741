//! What the token at a place begins.

ghost use Rattle.std.specs.Prelude.{◌≡◌, ◌≢◌, ◌<◌, length};
ghost use Rattle.fmt_expr.specs.Heads.{prefix_of, get_of, print_of, call_of, name_head, mark_head, head_at};
ghost use Rattle.fmt_expr.specs.SourceView.{source};

use crate::expr::PrefixOp;
use crate::head::{Builtin, Got, Head};
use crate::reader::Reader;
use fmt_lexer::TokenKind;

/// The operator before its operand that a mark is.
#[tactic(auto, unfolding(crate::specs::Heads::prefix_of))]
fn prefix_of(mark: &[u8]) -> Option<PrefixOp>
    ensures { result ≡ prefix_of mark.now }
{
    match mark {
        b"+" => Some(PrefixOp::Plus),
        b"-" => Some(PrefixOp::Minus),
        b"!" => Some(PrefixOp::LogicNot),
        b"~" => Some(PrefixOp::Invert),
        _ => None,
    }
}

/// The call of a name that gives something of a field.
#[tactic(auto, unfolding(crate::specs::Heads::get_of))]
fn get_of(name: &[u8]) -> Option<Builtin>
    ensures { result ≡ get_of name.now }
{
    if name == b"__get_str".as_slice() || name == b"__get_rel_str".as_slice() {
        Some(Builtin::Get(Got::Text))
    } else if name == b"__get_dynamic_array".as_slice()
        || name == b"__get_rel_dynamic_array".as_slice()
    {
        Some(Builtin::Get(Got::Bytes))
    } else if name == b"__get_dynamic_array_len".as_slice()
        || name == b"__get_rel_dynamic_array_len".as_slice()
    {
        Some(Builtin::Get(Got::Length))
    } else {
        None
    }
}

/// Any other call of a name.
#[tactic(auto, unfolding(crate::specs::Heads::print_of))]
fn print_of(name: &[u8]) -> Option<Builtin>
    ensures { result ≡ print_of name.now }
{
    if name == b"sizeof".as_slice() {
        Some(Builtin::SizeOf)
    } else if name == b"__print_flags".as_slice() {
        Some(Builtin::Flags)
    } else if name == b"__print_symbolic".as_slice() {
        Some(Builtin::Symbolic)
    } else if name == b"__print_hex".as_slice() {
        Some(Builtin::Hex)
    } else if name == b"__print_array".as_slice() {
        Some(Builtin::Array)
    } else {
        None
    }
}

/// The call of a name.
#[tactic(auto, unfolding(crate::specs::Heads::call_of))]
fn call_of(name: &[u8]) -> Option<Builtin>
    ensures { result ≡ call_of name.now }
{
    match get_of(name) {
        Some(call) => Some(call),
        None => print_of(name),
    }
}

/// What a name begins.
#[tactic(auto, unfolding(crate::specs::Heads::name_head))]
fn name_head(name: &[u8]) -> Head
    ensures { result ≡ name_head name.now }
{
    if name == b"REC".as_slice() {
        return Head::Record;
    }
    match call_of(name) {
        Some(call) => Head::Builtin(call),
        None => Head::Other,
    }
}

/// What a mark begins.
#[tactic(auto, unfolding(crate::specs::Heads::mark_head))]
fn mark_head(mark: &[u8]) -> Head
    ensures { result ≡ mark_head mark.now }
{
    match prefix_of(mark) {
        Some(op) => Head::Operator(op),
        None if mark == b"(".as_slice() => Head::Open,
        None => Head::Other,
    }
}

impl<'a> Reader<'a> {
    /// What the token at a place begins.
    #[tactic(auto, unfolding(crate::specs::Heads::head_at))]
    pub fn head(&self, at: usize) -> Head
        ensures value { result ≡ head_at (source self.now) at }
        ensures within { result ≢ Head.Other → at < length self.now.tokens.now }
    {
        let Some(token) = self.tokens.get(at) else {
            return Head::Other;
        };
        let bytes = token.bytes(self.text);
        match token.kind {
            TokenKind::Name => name_head(bytes),
            TokenKind::Mark => mark_head(bytes),
            _ => Head::Other,
        }
    }
}
