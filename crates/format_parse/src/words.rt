// Words at the front of a text.

ghost use Rattle.std.specs.Prelude.{◌≡◌, ◌<◌, length};
ghost use Rattle.std.specs.Option.{option_map};
ghost use Rattle.trace_base.specs.FieldReading.{after_word};

use trace_base::after_word;

/// What follows the word that the text begins with. Most texts differ from it in their first byte, which is looked at first.
#[inline(always)]
#[tactic(auto, using(crate::proofs::Fronts::no_text, crate::proofs::Fronts::other_front))]
pub(crate) fn after_front<'a>(word: &[u8], text: &'a [u8]) -> Option<&'a [u8]>
    requires { 0 < length word.now }
    ensures { option_map (λ rest. rest.now) result ≡ after_word word.now text.now }
{
    if text.is_empty() {
        return None;
    }
    if text[0] == word[0] {
        after_word(word, text)
    } else {
        None
    }
}
