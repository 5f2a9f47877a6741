//! Texts whose length is known only once they were put.

ghost use Rattle.std.specs.Prelude.{◌≡◌, length, map, min, slice_index};
ghost use Rattle.std.specs.Fmt.{decimal};
ghost use Rattle.trace_base.specs.Kept.{most, put, put_held, until_nul};
ghost use Rattle.trace_base.specs.TailView.{held, kept, lent};
ghost use Rattle.fmt_expr.specs.TreeView.{tree_of};
ghost use Rattle.fmt_eval.specs.Pieces.{join};
ghost use Rattle.fmt_eval.specs.Texts.{text_of};
ghost use Rattle.fmt_eval.specs.Values.{given};
ghost use Rattle.fmt_forms.specs.Texts.{cut_to, padded};
ghost use Rattle.fmt_print.specs.Addresses.{four_bytes, six_bytes};
ghost use Rattle.fmt_print.specs.Flows.{flow_text};
ghost use Rattle.fmt_forms.specs.Shows.{Shows};
ghost use Rattle.fmt_print.specs.Strings.{limit_of};

use fmt_eval::{put_octets, put_piece, put_text};
use fmt_expr::Expr;
use fmt_forms::{Fill, Form, put_repeated};
use itoa::Buffer;
use trace_base::{Rec, Tail};

/// A text whose length is known only once it was put.
#[derive(Clone, Copy)]
pub enum Flow<'e> {
    /// That of a tree up to its first NUL, as far as a precision shows it.
    Text(&'e Expr, Option<u32>),
    /// The first bytes as an IPv4 address.
    Ip4(&'e [u8]),
    /// The first bytes as a hardware address.
    Mac(&'e [u8]),
}

/// The most bytes that a precision shows.
fn limit_of(precision: Option<u32>) -> u64
    ensures { result ≡ limit_of precision }
{
    match precision {
        Some(p) => p as u64,
        None => u64::MAX,
    }
}

/// Puts the text of a tree up to its first NUL, as far as a precision shows it.
fn put_shown(expr: &Expr, rec: &Rec<'_>, precision: Option<u32>, into: &mut Tail<'_>)
    ensures same_slice { lent into.new ≡ lent into.old }
    ensures value { held into.new ≡ put_held (held into.old) (cut_to precision (until_nul (text_of (given rec.now) (tree_of expr.now)))) }
{
    let start = into.total();
    into.watch();
    put_text(expr, rec, into);
    let end = into
        .text_end()
        .min(start.saturating_add(limit_of(precision)));
    into.cut(end);
}

fn at(bytes: &[u8], place: usize) -> u8
    ensures { result ≡ slice_index bytes.now place }
{
    if place < bytes.len() { bytes[place] } else { 0 }
}

fn four_bytes(b: &[u8]) -> [u8; 4]
    ensures { result ≡ four_bytes b.now }
{
    [at(b, 0), at(b, 1), at(b, 2), at(b, 3)]
}

fn six_bytes(b: &[u8]) -> [u8; 6]
    ensures { result ≡ six_bytes b.now }
{
    [at(b, 0), at(b, 1), at(b, 2), at(b, 3), at(b, 4), at(b, 5)]
}

/// Puts bytes in decimal, with a text between them.
fn put_decimals(between: &[u8], bytes: &[u8], into: &mut Tail<'_>)
    ensures same_slice { lent into.new ≡ lent into.old }
    ensures value { kept into.new ≡ put (kept into.old) (join between.now (map decimal bytes.now)) }
{
    let mut some = false;
    for byte in bytes {
        put_piece(some, between, Buffer::new().format(*byte).as_bytes(), into);
        some = true;
    }
}

/// Puts a text as it is.
#[inline(always)]
#[tactic(auto, using(trace_base::proofs::TailJoins::held_put))]
fn put_flow(flow: Flow<'_>, rec: &Rec<'_>, into: &mut Tail<'_>)
    ensures same_slice { lent into.new ≡ lent into.old }
    ensures value { held into.new ≡ put_held (held into.old) (flow_text (given rec.now) flow.entry) }
{
    match flow {
        Flow::Text(tree, precision) => put_shown(tree, rec, precision, into),
        Flow::Ip4(bytes) => put_decimals(b".", &four_bytes(bytes), into),
        Flow::Mac(bytes) => put_octets(b":", &six_bytes(bytes), into),
    }
}

/// The length of a text.
#[tactic(auto, unfolding(trace_base::specs::Kept::put_held))]
fn flow_len(flow: Flow<'_>, rec: &Rec<'_>) -> u64
    ensures { result ≡ min (length (flow_text (given rec.now) flow.entry)) most }
{
    let mut none = [];
    let mut tail = Tail::new(&mut none);
    put_flow(flow, rec, &mut tail);
    tail.total()
}

/// Puts a text in its width, for which it is measured before.
#[inline(never)]
fn put_measured(form: &Form, flow: Flow<'_>, rec: &Rec<'_>, into: &mut Tail<'_>)
    ensures same_slice { lent into.new ≡ lent into.old }
    ensures value { held into.new ≡ put_held (held into.old) (padded form.now.left form.now.width (flow_text (given rec.now) flow.entry)) }
{
    let len = flow_len(flow, rec);
    let pad = (form.width as u64).saturating_sub(len) as usize;
    if form.left {
        put_flow(flow, rec, into);
        put_repeated(Fill::Space, pad, into);
    } else {
        put_repeated(Fill::Space, pad, into);
        put_flow(flow, rec, into);
    }
}

/// Shows a text of unknown length in its width. Most have none.
#[inline(always)]
#[tactic(auto, using(fmt_forms::proofs::Gathering::put_shown, fmt_forms::proofs::PlainLemmas::padded_bare))]
pub fn flowing(form: &Form, flow: Flow<'_>, rec: &Rec<'_>, into: &mut Tail<'_>)
    ensures { Shows into.old into.new (padded form.now.left form.now.width (flow_text (given rec.now) flow.entry)) }
{
    if form.width == 0 {
        put_flow(flow, rec, into);
    } else {
        put_measured(form, flow, rec, into);
    }
}
