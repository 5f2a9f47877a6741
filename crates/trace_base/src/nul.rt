// Texts that end at their first NUL.

ghost use Rattle.std.specs.Prelude.{◌≡◌, ◌≤◌, length};
ghost use Rattle.std.specs.List.{prefix_len};
ghost use Rattle.trace_base.specs.Kept.{is_letter, until_nul};

fn is_letter(byte: u8) -> bool
    ensures { result ≡ is_letter byte }
{
    byte != 0
}

/// How many bytes stand before the first NUL.
#[tactic(auto, using(crate::proofs::TailNuls::prefix_within))]
pub fn text_len(bytes: &[u8]) -> usize
    ensures value { result ≡ prefix_len is_letter bytes.now }
    ensures within { result ≤ length bytes.now }
{
    bytes.iter().take_while(|byte| is_letter(**byte)).count()
}

/// How many bytes stand before the first NUL, of at least 16, as the names of tasks have. A loop of a known length is unrolled.
#[inline(always)]
#[tactic(auto, using(crate::proofs::NulLemmas::letters_end, crate::proofs::NulLemmas::letters_more, crate::proofs::TailNuls::prefix_within))]
pub fn long_text_len(bytes: &[u8]) -> usize
    requires { 16 ≤ length bytes.now }
    ensures value { result ≡ prefix_len is_letter bytes.now }
    ensures within { result ≤ length bytes.now }
{
    let mut len: usize = 0;
    while len < 16 {
        if !is_letter(bytes[len]) {
            return len;
        }
        len += 1;
    }
    16 + text_len(&bytes[16..])
}

/// The text up to its first NUL.
pub fn until_nul(bytes: &[u8]) -> &[u8]
    ensures { result.now ≡ until_nul bytes.now }
{
    if bytes.len() < 16 {
        &bytes[..text_len(bytes)]
    } else {
        &bytes[..long_text_len(bytes)]
    }
}
