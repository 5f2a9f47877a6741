//! Numbers without a suffix.

ghost use Rattle.std.specs.Prelude.{◌≡◌};
ghost use Rattle.filter_lang.specs.Lexing.{number_in};

use fmt_lexer::number_parts;

/// The number below 2^64 that a run of letters, digits and `_` is as a whole.
#[tactic(auto, unfolding(crate::specs::Lexing::number_in))]
pub fn number(run: &[u8]) -> Option<u64>
    ensures { result ≡ number_in run.now }
{
    let parts = number_parts(run)?;
    if !parts.suffix.is_empty() {
        return None;
    }
    Some(parts.value)
}
