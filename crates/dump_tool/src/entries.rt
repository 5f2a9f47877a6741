// Entries that are put one after another, and lists of them. In the contracts `text` is what a call puts of an entry, and
// `texts` are those of all entries that the iterator gives.

ghost use Rattle.std.specs.Prelude.{List, ℕ, ◌++◌};
ghost use Rattle.std.specs.Iterator.{AlwaysYields, IsFinite, size};
ghost use Rattle.std.specs.List.{concat};
ghost use Rattle.trace_outside.specs.Pending.{PutsText, on_way};
ghost use Rattle.dump_tool.specs.Texts.{heading};
ghost use Rattle.dump_tool.specs.Entries.{PutsEach};

use crate::lines::put_heading;
use trace_outside::{Failed, Pending, Sink};

/// Puts a list below a line with its name and the number of its entries, each entry by this call.
pub(crate) fn put_list<I, O, F>(
    pending: &mut Pending,
    out: &mut O,
    name: &'static str,
    entries: I,
    put: F,
) -> Result<(), Failed>
where
    I: ExactSizeIterator + Drop,
    O: Sink,
    F: Fn(&mut Pending, &mut O, I::Item) -> Result<(), Failed>,
    requires can { I.can_next entries }
    requires ends { IsFinite (I.remaining entries) }
    requires callable { F.IsAlwaysCallable put }
    ensures { (text : I.Item → List ℕ) (texts : List (List ℕ)) → AlwaysYields I.next_gives text entries texts → PutsEach (on_way O.written O.name O.faults) (F.post put) text → PutsText (heading name.now (size (I.remaining entries)) ++ concat texts) (on_way O.written O.name O.faults out.old pending.old) (on_way O.written O.name O.faults out.new pending.new) result }
{
    put_heading(pending, out, name, entries.len() as u128)?;
    put_each(pending, out, entries, put)
}

/// Puts entries one after another, each by this call.
pub(crate) fn put_each<I, O, F>(
    pending: &mut Pending,
    out: &mut O,
    entries: I,
    put: F,
) -> Result<(), Failed>
where
    I: Iterator + Drop,
    O: Sink,
    F: Fn(&mut Pending, &mut O, I::Item) -> Result<(), Failed>,
    requires can { I.can_next entries }
    requires ends { IsFinite (I.remaining entries) }
    requires callable { F.IsAlwaysCallable put }
    ensures { (text : I.Item → List ℕ) (texts : List (List ℕ)) → AlwaysYields I.next_gives text entries texts → PutsEach (on_way O.written O.name O.faults) (F.post put) text → PutsText (concat texts) (on_way O.written O.name O.faults out.old pending.old) (on_way O.written O.name O.faults out.new pending.new) result }
{
    for entry in entries {
        put(pending, out, entry)?;
    }
    Ok(())
}
