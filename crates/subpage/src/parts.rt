// The parts of processors that have bytes.

ghost use Rattle.std.specs.Prelude.{◌≡◌, ◌≤◌, length};
ghost use Rattle.subpage.specs.WithBytes.{with_bytes};

use trace_base::Part;

/// Drops the processors whose part has no bytes. They have no item and no cut (law `empty_parts`).
pub fn drop_empty(parts: &mut Vec<(u32, Part)>)
    ensures left { parts.new.items ≡ with_bytes parts.old.items }
    ensures few { length parts.new.items ≤ length parts.old.items }
{
    parts.retain(|(_, part)| part.size > 0);
}
