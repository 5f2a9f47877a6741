//! Letters and texts.

ghost use Rattle.std.specs.Prelude.{◌≡◌, ◌++◌, ◌<◌, ◌≤◌, List, ℕ, IfOk, IfSome, IfNone};
ghost use Rattle.fmt_literal.specs.Pushed.{GainedFront};
ghost use Rattle.fmt_literal.specs.Quoted.{inside, text_of, letter_of, IsTextOf, IsLetterOf};

use crate::escape::{is_plain, item, push_meant};
use std::alloc::AllocError;

/// What stands between the two quotes of a letter or a text.
fn inside(spelling: &[u8]) -> &[u8]
    ensures { result.now ≡ inside spelling.now }
{
    match spelling {
        [_, inside @ .., _] => inside,
        _ => &[],
    }
}

/// The one byte that stands between the quotes.
#[tactic(auto, using(crate::proofs::Meant::letter_is, crate::proofs::Meant::no_letter, crate::proofs::Meant::empty_letter))]
fn only_byte(spelling: &[u8]) -> Option<u8>
    ensures { result ≡ letter_of spelling.now }
{
    let (first, behind) = inside(spelling).split_first()?;
    let spelled = item(*first, behind);
    if spelled.len < behind.len() {
        None
    } else {
        Some(spelled.byte)
    }
}

/// The byte that a letter is, by its spelling with both quotes. None exactly where what stands between them does not spell one.
#[tactic(auto, using(crate::proofs::Letters::found_letter, crate::proofs::Letters::none_letter))]
pub fn letter(spelling: &[u8]) -> Option<u8>
    ensures found { IfSome result (λ b. IsLetterOf spelling.now b) }
    ensures none { IfNone result ((b : ℕ) → IsLetterOf spelling.now b → ⊥) }
    ensures exact { result ≡ letter_of spelling.now }
{
    only_byte(spelling)
}

/// The bytes of a text, by its spelling with both quotes, where each of them stands for itself. None tells nothing.
pub fn plain_text(spelling: &[u8]) -> Option<&[u8]>
    ensures { IfSome result (λ bytes. bytes.now ≡ text_of spelling.now) }
{
    let bytes = inside(spelling);
    if is_plain(bytes) { Some(bytes) } else { None }
}

/// Appends a text, by its spelling with both quotes.
///
/// # Errors
///
/// Want of memory alone; then the first bytes of the text may have been put there. What was there still stands in front.
#[tactic(auto, unfolding(crate::specs::Quoted::text_of), using(crate::proofs::Pushing::front_of_text))]
pub fn push_text(into: &mut Vec<u8>, spelling: &[u8]) -> Result<(), AllocError>
    ensures whole { IfOk result (λ _. into.new.items ≡ into.old.items ++ text_of spelling.now) }
    ensures front { GainedFront into.old.items into.new.items (text_of spelling.now) }
{
    push_meant(into, inside(spelling))
}
