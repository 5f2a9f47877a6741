// The LIST of `--cpu`.

ghost use Rattle.std.specs.Prelude.{◌≡◌, ◌∷◌, ◌<◌, ◌≤◌, [], IfSome, length, option_map};
ghost use Rattle.std.specs.List.{position, slice_split};
ghost use Rattle.std.specs.Option.{option_map_or};
ghost use Rattle.word_values.specs.CpuList.{cpu_number, cpu_set, is_separator, range_of};
ghost use Rattle.word_values.specs.Views.{range_view};

use crate::cut::{around, around_first};
use crate::number::small_within;
use crate::processor_set::CpuSet;

/// The set that the list names.
pub fn cpu_set(text: &[u8]) -> Option<CpuSet>
    ensures { result ≡ cpu_set text.now }
{
    let mut set = CpuSet::new();
    let mut rest = Some(text);
    while let Some(left) = rest {
        let (piece, after) = first_piece(left);
        let (first, last) = range(piece)?;
        set.insert(first, last);
        rest = after;
    }
    Some(set)
}

// What stands before the first separator, and after it, where there is one.
#[tactic(auto, using(crate::proofs::CutLaws::split_by_position, crate::proofs::CutLaws::position_inside))]
fn first_piece(text: &[u8]) -> (&[u8], Option<&[u8]>)
    ensures split { slice_split is_separator text.now
        ≡ result.0.now ∷ option_map_or (λ rest. slice_split is_separator rest.now) result.1 [] }
    ensures shorter { IfSome result.1 (λ rest. length rest.now < length text.now) }
{
    match separator_place(text) {
        Some(at) => {
            let (piece, rest) = around(text, at);
            (piece, Some(rest))
        }
        None => (text, None),
    }
}

// The range that a piece spells.
fn range(piece: &[u8]) -> Option<(u32, u32)>
    ensures value { option_map range_view result ≡ range_of piece.now }
    ensures bounds { IfSome result (λ range. (range.0 ≤ range.1) × (range.1 < 1024)) }
{
    let Some((first, last)) = around_first(piece, b'-') else {
        let cpu = cpu_number(piece)?;
        return Some((cpu, cpu));
    };
    let first = cpu_number(first)?;
    let last = cpu_number(last)?;
    if first <= last {
        Some((first, last))
    } else {
        None
    }
}

// The place of the first separator.
fn separator_place(text: &[u8]) -> Option<usize>
    ensures { result ≡ position is_separator text.now }
{
    text.iter().position(|byte| *byte == b',' || *byte == b':')
}

/// The number of a processor.
pub fn cpu_number(text: &[u8]) -> Option<u32>
    ensures value { result ≡ cpu_number text.now }
    ensures bound { IfSome result (λ cpu. cpu < 1024) }
{
    small_within(text, 0, CpuSet::LIMIT - 1)
}
