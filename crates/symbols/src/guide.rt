// Where addresses stand among others that rise, roughly.

ghost use Rattle.std.specs.Prelude.{◌≡◌, ◌+◌, ◌<◌, length, IfOk};
ghost use Rattle.std.proofs.Props.{props};

use crate::names::Spot;
use std::alloc::{AllocError, Global};

/// How many pages of memory are told apart: as many as 32 MiB have.
const PAGES: usize = 8192;

/// The places between which a number is looked for first. It may stand elsewhere.
#[derive(Clone, Copy)]
pub(crate) struct Near {
    pub from: usize,
    pub to: usize,
}

impl Near {
    /// Where nothing is known.
    pub const NOWHERE: Near = Near { from: 0, to: 0 };
}

/// For each page the place of the last address before it, among addresses that rise, and after all pages that of the last one.
/// Pages that are equal modulo `PAGES` share one, and so do places that are equal modulo 2^32: an address is only
/// looked for there first.
#[derive(Drop)]
pub(crate) struct Guide {
    before: Vec<u32>,
    ghost pages: { length before.items ≡ 8193 } by { Prim.hlevel props },
}

/// The page of an address, modulo their number.
#[inline(always)]
fn page_of(address: u64) -> usize
    ensures { result < PAGES }
{
    (address / 4096 % PAGES as u64) as usize
}

/// The first place for each page.
fn no_places(alloc: Global) -> Result<Vec<u32>, AllocError>
    ensures { IfOk result (λ before. length before.items ≡ PAGES + 1) }
{
    let mut before = Vec::new(alloc);
    before.resize(PAGES + 1, 0)?;
    Ok(before)
}

/// Notes the places of addresses that rise.
fn note(spots: &[Spot], before: &mut [u32])
    requires { length before.old ≡ PAGES + 1 }
    ensures { length before.new ≡ PAGES + 1 }
{
    for place in 0..spots.len() {
        before[page_of(spots[place].key) + 1] = (place % (1 << 32)) as u32;
    }
}

/// Gives each page in which no address is the place of the page before. The first page follows the last. Each is written, since
/// which of them have an address cannot be foreseen.
fn fill(before: &mut [u32])
    requires { length before.old ≡ PAGES + 1 }
    ensures { length before.new ≡ PAGES + 1 }
{
    let mut last = 0;
    for page in 1..PAGES + 1 {
        let place = before[page];
        last = if place == 0 { last } else { place };
        before[page] = last;
    }
    before[0] = last;
}

impl Guide {
    /// The guide to addresses that rise.
    pub fn to(alloc: Global, spots: &[Spot]) -> Result<Guide, AllocError> {
        let mut before = no_places(alloc)?;
        note(spots, &mut before);
        fill(&mut before);
        Ok(Guide { before })
    }

    /// Between which places an address is looked for first.
    #[inline(always)]
    pub fn near(&self, address: u64) -> Near {
        let page = page_of(address);
        Near {
            from: self.before[page] as usize,
            to: self.before[page + 1] as usize + 1,
        }
    }
}
