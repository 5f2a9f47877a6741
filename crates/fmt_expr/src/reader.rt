//! What trees are read from.

ghost use Rattle.std.specs.Prelude.{All, ◌≡◌, ◌≤◌, ◌||◌, ◌==◌, IsTrue, length};

use field_names::FieldNames;
use fmt_lexer::Token;
use std::alloc::Global;

/// The tokens of a print fmt, with what the kinds of its trees depend on. Nothing in it changes: each production is a
/// method from a place in the tokens to what stands there.
#[derive(Clone, Copy)]
pub struct Reader<'a> {
    pub alloc: Global,
    pub text: &'a [u8],
    pub tokens: &'a [Token],
    pub fields: &'a FieldNames<'a>,
    /// The size of the kernel's long.
    pub long: u32,
    ghost sized: { IsTrue (long == 4 || long == 8) },
    ghost within: { All (λ t. (t.start ≤ t.end) × (t.end ≤ length text.now)) tokens.now },
}
