ghost use Rattle.std.specs.Prelude.{◌≤◌, length};
ghost use Rattle.page_pool.specs.Moved.{IsNextMark};

/// So many dirty bits are tested at once.
const GROUP: usize = 16;

/// The first place from `from` on whose dirty bit is set. Where few are set, it costs an instruction or two a place.
pub fn next_dirty(moved: &[bool], from: usize) -> Option<usize>
    requires { from ≤ length moved.now }
    ensures { IsNextMark moved.now from result }
{
    let mut at = from;
    while GROUP <= moved.len() - at && !moved[at..at + GROUP].contains(&true) {
        at += GROUP;
    }
    while at < moved.len() {
        if moved[at] {
            return Some(at);
        }
        at += 1;
    }
    None
}
