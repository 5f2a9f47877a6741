// A text on both sides of one of its bytes.

ghost use Rattle.std.specs.Prelude.{◌≡◌, ◌==◌, ◌+◌, ◌<◌, drop, length, option_map, take};
ghost use Rattle.std.specs.List.{position};
ghost use Rattle.word_values.specs.Cut.{cut};
ghost use Rattle.word_values.specs.Views.{parts_view};

/// What stands before and after the byte at a place.
pub fn around(text: &[u8], at: usize) -> (&[u8], &[u8])
    requires { at < length text.now }
    ensures before { result.0.now ≡ take at text.now }
    ensures after { result.1.now ≡ drop (at + 1) text.now }
{
    (&text[..at], &text[at + 1..])
}

/// What stands before and after the first such byte.
#[tactic(auto, using(crate::proofs::CutLaws::cut_by_position, crate::proofs::CutLaws::position_inside))]
pub fn around_first(text: &[u8], stop: u8) -> Option<(&[u8], &[u8])>
    ensures { option_map parts_view result ≡ cut (λ byte. byte == stop) text.now }
{
    let at = place_of(text, stop)?;
    Some(around(text, at))
}

// The place of the first such byte.
fn place_of(text: &[u8], stop: u8) -> Option<usize>
    ensures { result ≡ position (λ byte. byte == stop) text.now }
{
    text.iter().position(|byte| *byte == stop)
}
