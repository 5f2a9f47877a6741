//! The texts of flags and symbols.

ghost use Rattle.std.specs.Prelude.{◌≡◌, ℕ, List, [], false, IfSome};
ghost use Rattle.trace_base.specs.Kept.{put};
ghost use Rattle.trace_base.specs.TailView.{kept, lent};
ghost use Rattle.fmt_expr.specs.TreeView.{tree_of};
ghost use Rattle.fmt_eval.specs.Numbers.{pattern};
ghost use Rattle.fmt_eval.specs.Values.{given, number_of};
ghost use Rattle.fmt_eval.specs.Flags.{is_flag, flags_text, flags_from, symbol_text};
ghost use Rattle.fmt_eval.specs.Entered.{rows_in, row_of};

use crate::eval::operand_number;
use crate::pieces::{put_between, put_hexadecimal, put_piece};
use crate::short::quick_number;
use fmt_expr::{Entry, Expr};
use trace_base::{Rec, Tail};

/// The number of an entry, as 64 bits.
#[inline(always)]
fn mask_of(entry: &Entry, rec: &Rec<'_>) -> u64
    ensures { result ≡ (row_of (given rec.now) entry.now).0 }
{
    operand_number(&entry.value, rec).pattern()
}

/// Whether a mask is printed.
#[inline(always)]
fn is_flag(value: u64, left: u64, some: bool, mask: u64) -> bool
    ensures { result ≡ is_flag value left some mask }
{
    left & mask == mask && (mask != 0 || (value == 0 && !some))
}

/// Puts what is left of the value after the last mask.
#[tactic(auto, using(crate::proofs::FlagLemmas::rest_put, crate::proofs::FlagLemmas::rest_none))]
fn put_rest(value: u64, rest: u64, some: bool, between: &[u8], into: &mut Tail<'_>)
    ensures same_slice { lent into.new ≡ lent into.old }
    ensures value { kept into.new ≡ put (kept into.old) (flags_from between.now value rest some []) }
{
    if rest == 0 {
        return;
    }
    put_between(some, between, into);
    put_hexadecimal(rest, into);
}

#[inline(never)]
fn put_all_flags(value: u64, between: &[u8], entries: &[Entry], rec: &Rec<'_>, into: &mut Tail<'_>)
    ensures same_slice { lent into.new ≡ lent into.old }
    ensures value { kept into.new ≡ put (kept into.old) (flags_from between.now value value false (rows_in (given rec.now) entries.now)) }
{
    let mut left = value;
    let mut some = false;
    for entry in entries {
        let mask = mask_of(entry, rec);
        if is_flag(value, left, some, mask) {
            put_piece(some, between, entry.text.as_bytes(), into);
            left &= !mask;
            some = true;
            if left == 0 {
                // Most values have few flags, and no further mask is printed of nothing.
                return;
            }
        }
    }
    put_rest(value, left, some, between, into);
}

/// Puts the flags of a value.
#[tactic(auto, unfolding(crate::specs::Flags::flags_from, crate::specs::Flags::flags_text))]
pub fn put_flags(value: u64, between: &[u8], entries: &[Entry], rec: &Rec<'_>, into: &mut Tail<'_>)
    ensures same_slice { lent into.new ≡ lent into.old }
    ensures value { kept into.new ≡ put (kept into.old) (flags_text between.now value (rows_in (given rec.now) entries.now)) }
{
    put_all_flags(value, between, entries, rec, into);
}

/// The text of the flags of a number, where it is that of one entry alone, as of most: it lies in memory.
pub fn only_flag<'e>(value: &Expr, entries: &'e [Entry], rec: &Rec<'_>) -> Option<&'e [u8]>
    ensures { IfSome result (λ text. (between : List ℕ) → text.now ≡ flags_text between (pattern (number_of (given rec.now) (tree_of value.now)).exact) (rows_in (given rec.now) entries.now)) }
{
    let bits = quick_number(value, rec).pattern();
    for entry in entries {
        let mask = mask_of(entry, rec);
        if is_flag(bits, bits, false, mask) {
            if bits & !mask == 0 {
                return Some(entry.text.as_bytes());
            }
            return None;
        }
    }
    None
}

/// Puts the text of the first entry that has the value, or else the value.
pub fn put_symbol(value: u64, entries: &[Entry], rec: &Rec<'_>, into: &mut Tail<'_>)
    ensures same_slice { lent into.new ≡ lent into.old }
    ensures value { kept into.new ≡ put (kept into.old) (symbol_text value (rows_in (given rec.now) entries.now)) }
{
    for entry in entries {
        if mask_of(entry, rec) == value {
            into.put(entry.text.as_bytes());
            return;
        }
    }
    put_hexadecimal(value, into);
}
