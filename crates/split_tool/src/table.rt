// The table of a new file.

ghost use Rattle.std.specs.Prelude.{◌≡◌, ℕ, ◌%◌, ◌^◌, ◌<◌, All, List, length, slice_index_or};
ghost use Rattle.trace_base.specs.declared.layout.Layout.{Layout};
ghost use Rattle.trace_base.specs.declared.part.Part.{Part};
ghost use Rattle.subpage.specs.Arrangement.{Keyed};
ghost use Rattle.page_pool.specs.declared.lane.Lane.{Lane};
ghost use Rattle.page_write.specs.Placed.{parts_from};
ghost use Rattle.split_tool.specs.Counted.{AreCounted, IsSized, LanesCounted, lists_of};
ghost use Rattle.split_tool.specs.Lists.{lanes_of};

use page_pool::Lane;
use split_passes::{LaneList, Tally};
use trace_base::{Layout, Part};

// Makes all sizes 0.
fn clear_sizes(table: &mut [Part])
    ensures long { length table.new ≡ length table.old }
    ensures none { (i : ℕ) (p : Part) → i < length table.old → (slice_index_or table.new i p).size ≡ 0 }
{
    for i in 0..table.len() {
        table[i] = Part { offset: 0, size: 0 };
    }
}

// Gives the processors of lanes their sizes, modulo 2^64. The others keep theirs.
fn put_sizes(layout: &Layout, lanes: &[Lane], tallies: &[Tally], table: &mut [Part])
    requires long { length tallies.now ≡ length lanes.now }
    requires inside { All (λ lane. lane.cpu < length table.old) lanes.now }
    ensures long { length table.new ≡ length table.old }
    ensures keeps { (xs : List Keyed) (cpu : ℕ) → LanesCounted layout.now lanes.now tallies.now xs
        → IsSized layout.now xs table.old cpu → IsSized layout.now xs table.new cpu }
    ensures puts { (xs : List Keyed) (i : ℕ) (d : Lane) → LanesCounted layout.now lanes.now tallies.now xs → i < length lanes.now
        → IsSized layout.now xs table.new (slice_index_or lanes.now i d).cpu }
{
    for i in 0..lanes.len() {
        let cpu = lanes[i].cpu as usize;
        table[cpu] = Part {
            offset: 0,
            size: tallies[i].pages().wrapping_mul(u64::from(layout.page)),
        };
    }
}

// Lets the parts follow one another from `at` on, modulo 2^64.
fn place_parts(at: u64, table: &mut [Part])
    ensures { (layout : Layout) (xs : List Keyed) (place : ℕ) → at ≡ place % 2 ^ 64
        → ((cpu : ℕ) → cpu < length table.old → IsSized layout xs table.old cpu)
        → table.new ≡ parts_from layout place (lists_of (length table.old) xs) }
{
    let mut place = at;
    for cpu in 0..table.len() {
        let size = table[cpu].size;
        table[cpu] = Part {
            offset: place,
            size,
        };
        place = place.wrapping_add(size);
    }
}

/// Fills the table: the lanes' sub-buffers follow one another from `at` on, in order of processors, and a processor
/// without a lane has a part of size 0. Numbers are told modulo 2^64.
pub(crate) fn fill_table(layout: &Layout, at: u64, lists: &[LaneList], table: &mut [Part])
    requires { All (λ lane. lane.cpu < length table.old) (lanes_of lists.now) }
    ensures { (xs : List Keyed) (place : ℕ) → at ≡ place % 2 ^ 64 → AreCounted layout.now lists.now xs
        → table.new ≡ parts_from layout.now place (lists_of (length table.old) xs) }
{
    clear_sizes(table);
    for i in 0..lists.len() {
        put_sizes(layout, lists[i].lanes(), lists[i].tallies(), table);
    }
    place_parts(at, table);
}
