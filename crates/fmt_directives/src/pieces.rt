//! The directives of a format text.

ghost use Rattle.std.specs.Prelude.{◌≡◌, ◌^◌, ◌<◌, ◌≤◌, ◌+◌, length, drop, IfOk, IfSome, IfNone};
ghost use Rattle.std.specs.List.{All, prefix_len};
ghost use Rattle.std.specs.Option.{option_map};
ghost use Rattle.fmt_directives.specs.Bytes.{is_plain};
ghost use Rattle.fmt_directives.specs.Reading.{first_directive, directives_of};
ghost use Rattle.fmt_directives.specs.Directives.{AreDirectives, IsUnlisted, IsWithin};

use crate::conversion::conversion;
use crate::directive::Directive;
use std::alloc::{AllocError, Global};

fn is_plain(byte: u8) -> bool
    ensures { result ≡ is_plain byte }
{
    byte != b'%'
}

#[tactic(auto, using(crate::proofs::Runs::plain_within))]
fn plain_len(bytes: &[u8]) -> usize
    ensures value { result ≡ prefix_len is_plain bytes.now }
    ensures within { result ≤ length bytes.now }
{
    bytes.iter().take_while(|byte| is_plain(**byte)).count()
}

/// The directive that begins at a place, and how many bytes spell it.
#[tactic(auto, unfolding(crate::specs::Reading::first_directive))]
fn first_directive(at: usize, bytes: &[u8]) -> Option<(Directive, usize)>
    requires { at + length bytes.now < 2 ^ 32 }
    ensures value { result ≡ first_directive at bytes.now }
    ensures within { IfSome result (λ d. (0 < d.1) × (d.1 ≤ length bytes.now)) }
{
    if bytes.is_empty() {
        return None;
    }
    let rest = &bytes[1..];
    if bytes[0] != b'%' {
        let run = 1 + plain_len(rest);
        let start = at as u32;
        return Some((
            Directive::Literal {
                start,
                end: start + run as u32,
            },
            run,
        ));
    }
    if !rest.is_empty() && rest[0] == b'%' {
        let start = at as u32 + 1;
        return Some((
            Directive::Literal {
                start,
                end: start + 1,
            },
            2,
        ));
    }
    let (directive, len) = conversion(rest)?;
    Some((directive, 1 + len))
}

/// The directive that begins at a place of a text.
fn directive_at(text: &[u8], at: usize) -> Option<(Directive, usize)>
    requires within { at ≤ length text.now }
    requires short { length text.now < 2 ^ 32 }
    ensures value { result ≡ first_directive at (drop at text.now) }
    ensures within { IfSome result (λ d. (0 < d.1) × (d.1 ≤ length (drop at text.now))) }
{
    first_directive(at, &text[at..])
}

/// The directives that spell a format text of less than 2^32 bytes, in order. None exactly where none begins after some of
/// them: there stands a conversion that is not listed.
///
/// # Errors
///
/// Want of memory alone.
pub fn directives(alloc: Global, text: &[u8]) -> Result<Option<Vec<Directive>>, AllocError>
    requires { length text.now < 2 ^ 32 }
    ensures found { IfOk result (λ row. IfSome row (λ v. AreDirectives text.now v.items)) }
    ensures within { IfOk result (λ row. IfSome row (λ v. All (IsWithin (length text.now)) v.items)) }
    ensures none { IfOk result (λ row. IfNone row (IsUnlisted text.now)) }
    ensures exact { IfOk result (λ row. option_map (λ v. v.items) row ≡ directives_of text.now) }
{
    let mut directives = Vec::new(alloc);
    let mut at = 0;
    while at < text.len() {
        let Some((directive, len)) = directive_at(text, at) else {
            return Ok(None);
        };
        directives.push(directive)?;
        at += len;
    }
    Ok(Some(directives))
}
