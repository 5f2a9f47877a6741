ghost use Rattle.std.specs.Prelude.{◌≡◌, ◌≤◌, length};
ghost use Rattle.trace_base.specs.Kept.{put_held};
ghost use Rattle.trace_base.specs.TailView.{held, lent};
ghost use Rattle.report_print.specs.Ending.{empty_held, of_held};
ghost use Rattle.wakeup_lat.specs.Section as spec;

use line_columns::Front;
use report_print::{Context, close, prefix};
use trace_base::Tail;
use wakeup_pairs::{Pair, latency};

/// Puts the line of a pair into an empty tail, and gives its length in bytes with its newline.
pub(crate) fn pair_line(context: &Context, pair: &Pair, into: &mut Tail<'_>) -> u32
    requires empty { held into.old ≡ empty_held (held into.old).room }
    ensures same_slice { lent into.new ≡ lent into.old }
    ensures line { held into.new ≡ of_held (held into.old).room (spec.pair_line context.now pair.now) }
    ensures length { result ≡ length (spec.pair_line context.now pair.now) }
    ensures short { result ≤ 65537 }
{
    put_pair(context, pair, into);
    close(into, false)
}

// Puts the text of a pair's line.
fn put_pair(context: &Context, pair: &Pair, into: &mut Tail<'_>)
    ensures same_slice { lent into.new ≡ lent into.old }
    ensures value { held into.new ≡ put_held (held into.old) (spec.pair_text context.now pair.now) }
{
    let mut waited = Front::new();
    waited.prepend_duration(latency(pair));
    prefix(context, pair.cpu, pair.time, &pair.common, into);
    into.put(b"latency ");
    into.put(waited.as_bytes());
}
