ghost use Rattle.std.specs.Prelude.{◌≡◌, Some, position, IfSome};
ghost use Rattle.std.specs.Option.{option_map};
ghost use Rattle.format_parse.specs.Table.{format_at, has_id};

use format_parse::{EventFormat, FormatTable};
use noted_places::Places;
use std::alloc::{AllocError, Global};

/// Where formats stand, by their numbers. Its answer is right for any table, and quick for the one that it was made of.
#[derive(Drop)]
pub struct FormatIndex {
    places: Places,
}

/// A format, and where it stands.
#[derive(Clone, Copy, Drop)]
pub struct PlacedFormat<'a> {
    /// Its place in the table.
    pub place: usize,
    /// The format.
    pub format: &'a EventFormat,
}

/// The format at this place, if it has this number.
#[inline(always)]
fn at_place(formats: &FormatTable, place: usize, id: u32) -> Option<PlacedFormat<'_>>
    ensures place { IfSome result (λ found. Some found.place ≡ position (has_id id) formats.now) }
    ensures format { IfSome result (λ found. Some found.format.now ≡ format_at id formats.now) }
{
    if formats.len() <= place {
        return None;
    }
    let format = formats.get(place)?;
    if format.id == id {
        Some(PlacedFormat { place, format })
    } else {
        None
    }
}

/// The format with this number, found by a search.
#[inline(never)]
#[tactic(auto, using(crate::proofs::Positions::none_searched, crate::proofs::Positions::none_there))]
fn by_search(formats: &FormatTable, id: u32) -> Option<PlacedFormat<'_>>
    ensures place { IfSome result (λ found. Some found.place ≡ position (has_id id) formats.now) }
    ensures format { option_map (λ found. found.format.now) result ≡ format_at id formats.now }
{
    let place = formats.by_id(id)?;
    let format = formats.get(place)?;
    Some(PlacedFormat { place, format })
}

impl FormatIndex {
    /// The places of these formats.
    pub fn of(alloc: Global, formats: &FormatTable) -> Result<FormatIndex, AllocError> {
        let mut numbers = Vec::with_capacity(alloc, formats.len())?;
        for i in 0..formats.len() {
            if let Some(format) = formats.get(i) {
                numbers.push(u64::from(format.id))?;
            }
        }
        let places = Places::noted(alloc, &numbers)?;
        Ok(FormatIndex { places })
    }

    /// The place of the format with this number. None exactly where there is none.
    pub fn place(&self, formats: &FormatTable, id: u32) -> Option<usize>
        ensures { result ≡ position (has_id id) formats.now }
    {
        match at_place(formats, self.places.of(u64::from(id)), id) {
            Some(found) => Some(found.place),
            None => formats.by_id(id),
        }
    }

    /// The format with this number, and its place. None exactly where there is none. It is looked for first at the place that
    /// was noted for the number.
    #[inline(always)]
    pub fn find<'a>(&self, formats: &'a FormatTable, id: u32) -> Option<PlacedFormat<'a>>
        ensures place { IfSome result (λ found. Some found.place ≡ position (has_id id) formats.now) }
        ensures format { option_map (λ found. found.format.now) result ≡ format_at id formats.now }
    {
        match at_place(formats, self.places.of(u64::from(id)), id) {
            Some(found) => Some(found),
            None => by_search(formats, id),
        }
    }
}
