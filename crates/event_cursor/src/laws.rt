//! A law of this crate's definitions. It is the contract of a function that does nothing.

ghost use Rattle.std.specs.Prelude.{◌≡◌, ◌++◌, List, [], ℕ, take, unwrap_or};
ghost use Rattle.subpage.specs.Processor.{items_at, joined, pages_from};
ghost use Rattle.page_pool.specs.declared.cursor.LaneState.{LaneState};
ghost use Rattle.page_pool.specs.declared.lane.Lane.{Lane};
ghost use Rattle.event_cursor.specs.Standing.{Stands};

/// What a lane has used up that holds a sub-buffer: the items of the sub-buffers before it, and as many of its own as the
/// cursor says.
pub fn used_items()
    ensures { (file : List ℕ) (lane : Lane) → (stands : Stands file lane) → lane.cursor.state ≡ LaneState.Held
        → stands.used ≡ joined (pages_from lane.layout file lane.part 0 lane.cursor.held)
        ++ take lane.cursor.at (unwrap_or (items_at lane.layout file lane.part lane.cursor.held) []) }
{}
