//! Texts that are shown in their widths, as much of them as a precision shows.

ghost use Rattle.std.specs.Prelude.{◌≡◌, ◌-◌, ◌++◌, codes, false};
ghost use Rattle.std.specs.Fmt.{digits};
ghost use Rattle.std.specs.Option.{option_map};
ghost use Rattle.trace_base.specs.Kept.{until_nul};
ghost use Rattle.fmt_forms.specs.Shows.{Shows};
ghost use Rattle.fmt_forms.specs.Texts.{cut_to, padded};

use crate::form::Form;
use crate::hexadecimal::show_hexadecimal;
use crate::integer::written;
use crate::layout::put_padded;
use trace_base::{Tail, until_nul};

/// Shows a text as it is. Most texts of choices have one byte or none, for which a call to copy them is dear.
#[tactic(auto, using(crate::proofs::Gathering::put_shown, crate::proofs::Gathering::empty_shown))]
fn show_piece(text: &[u8], into: &mut Tail<'_>)
    ensures { Shows into.old into.new text.now }
{
    match text.len() {
        0 => {}
        1 => into.put(&text[..1]),
        _ => into.put_piece(text),
    }
}

/// Shows a text in its width. Most have none.
#[inline(always)]
pub fn show_text(form: &Form, text: &[u8], into: &mut Tail<'_>)
    ensures { Shows into.old into.new (padded form.now.left form.now.width text.now) }
{
    if form.width == 0 {
        show_piece(text, into);
    } else {
        put_padded(form, text, b"", b"", into);
    }
}

/// As much of a text as a precision shows.
#[inline(always)]
fn cut_to(precision: Option<u32>, text: &[u8]) -> &[u8]
    ensures { result.now ≡ cut_to precision text.now }
{
    match precision {
        Some(p) if (p as usize) < text.len() => &text[..p as usize],
        _ => text,
    }
}

/// What a precision shows after two bytes.
fn behind_prefix(precision: Option<u32>) -> Option<u32>
    ensures { result ≡ option_map (λ p. p - 2) precision }
{
    precision.map(|p| p.saturating_sub(2))
}

/// Shows a text in its width, as much of it as the precision shows.
#[inline(always)]
pub fn show_cut(form: &Form, text: &[u8], into: &mut Tail<'_>)
    ensures { Shows into.old into.new (padded form.now.left form.now.width (cut_to form.now.precision text.now)) }
{
    show_text(form, cut_to(form.precision, text), into);
}

/// Shows a text up to its first NUL in its width, as much of it as the precision shows.
#[inline(never)]
pub fn show_until_nul(form: &Form, text: &[u8], into: &mut Tail<'_>)
    ensures { Shows into.old into.new (padded form.now.left form.now.width (cut_to form.now.precision (until_nul text.now))) }
{
    show_cut(form, until_nul(text), into);
}

/// The same of the text of a choice. Most have one letter or none, for which calls are dear.
#[inline(always)]
#[tactic(auto, using(crate::proofs::ShownLemmas::nothing_short, crate::proofs::ShownLemmas::letter_short))]
pub fn show_short(form: &Form, text: &[u8], into: &mut Tail<'_>)
    ensures { Shows into.old into.new (padded form.now.left form.now.width (cut_to form.now.precision (until_nul text.now))) }
{
    let bare = form.width == 0 && form.precision.is_none();
    if bare && text.is_empty() {
        return;
    }
    if bare && text.len() == 1 && text[0] != 0 {
        into.put(text);
    } else {
        show_until_nul(form, text, into);
    }
}

/// Shows an address in its width, as much of it as a precision shows.
#[inline(never)]
fn show_cut_address(form: &Form, precision: Option<u32>, n: u64, into: &mut Tail<'_>)
    ensures { Shows into.old into.new (padded form.now.left form.now.width (cut_to precision (codes "0x" ++ digits 16 false n))) }
{
    let mut buffer = [0; 64];
    let digits = written(n, false, false, &mut buffer);
    let prefix = cut_to(precision, b"0x");
    let shown = cut_to(behind_prefix(precision), digits);
    put_padded(form, prefix, shown, b"", into);
}

/// Shows an address as `0x` and its digits, as much of it as a precision shows. Most have no width, and are shown as they are.
#[inline(never)]
#[tactic(auto, using(crate::proofs::ShownLemmas::bare_shown))]
pub fn show_address(form: &Form, precision: Option<u32>, n: u64, into: &mut Tail<'_>)
    ensures { Shows into.old into.new (padded form.now.left form.now.width (cut_to precision (codes "0x" ++ digits 16 false n))) }
{
    if form.width == 0 && precision.is_none() {
        show_hexadecimal(b"0x", n, into);
    } else {
        show_cut_address(form, precision, n, into);
    }
}

/// Shows a name and how far after its address an address is, in a width. Most have none, and are shown as they are.
#[inline(always)]
#[tactic(auto, using(crate::proofs::Gathering::kept_shown))]
pub fn show_offset(form: &Form, name: &[u8], behind: u64, into: &mut Tail<'_>)
    ensures { Shows into.old into.new (padded form.now.left form.now.width (name.now ++ (codes "+0x" ++ digits 16 false behind))) }
{
    if form.width == 0 {
        into.put_piece(name);
        show_hexadecimal(b"+0x", behind, into);
    } else {
        let mut buffer = [0; 64];
        let digits = written(behind, false, false, &mut buffer);
        put_padded(form, name, b"+0x", digits, into);
    }
}
