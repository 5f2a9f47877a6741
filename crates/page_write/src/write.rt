// Items on their way to a sink, in sub-buffers.

ghost use Rattle.std.specs.Prelude.{◌≡◌, ◌≢◌, [], OnOk, OnErr};
ghost use Rattle.trace_outside.specs.Causes.{HasCause};
ghost use Rattle.subpage.specs.ItemView.{item_view};
ghost use Rattle.page_write.specs.PageBytes.{IsPackable};
ghost use Rattle.page_write.specs.Passes.{GoesOn, StopsAt, Ends, EndsShort};

use crate::added::Added;
use crate::packer::Packer;
use subpage::Item;
use trace_outside::{Failed, Sink, write_all};

/// Packs an item, and writes the sub-buffer that it closes.
///
/// # Errors
/// `Failed` where a write failed; a prefix of what was to be written was written then, whatever items would have
/// followed.
pub fn write_item<O: Sink>(
    packer: &mut Packer<'_>,
    item: &Item<'_>,
    out: &mut O,
) -> Result<(), Failed>
    requires packable { IsPackable packer.old.layout (item_view item.now) }
    ensures layout { packer.new.layout ≡ packer.old.layout }
    ensures goes_on { OnOk result (GoesOn packer.old.layout (item_view item.now) (O.written out.old) packer.old.held (O.written out.new) packer.new.held) }
    ensures stops { OnErr result (StopsAt packer.old.layout (item_view item.now) (O.written out.old) packer.old.held (O.written out.new)) }
    ensures holds { OnOk result (packer.new.held ≢ []) }
    ensures name { O.name out.new ≡ O.name out.old }
    ensures cause { HasCause (O.faults out.old) (O.faults out.new) result }
{
    match packer.add(item) {
        Added::Added => Ok(()),
        Added::Full => {
            write_all(out, packer.close())?;
            packer.restart();
            let _ = packer.add(item);
            Ok(())
        }
    }
}

/// Writes the open sub-buffer, if one is open, which ends a processor's items. Afterwards none is open.
///
/// # Errors
/// `Failed` where a write failed; a prefix of the processor's sub-buffers was written then.
pub fn write_last<O: Sink>(packer: &mut Packer<'_>, out: &mut O) -> Result<(), Failed>
    ensures layout { OnOk result (packer.new.layout ≡ packer.old.layout) }
    ensures empty { OnOk result (packer.new.held ≡ []) }
    ensures ends { OnOk result (Ends packer.old.layout (O.written out.old) packer.old.held (O.written out.new)) }
    ensures short { OnErr result (EndsShort packer.old.layout (O.written out.old) packer.old.held (O.written out.new)) }
    ensures name { O.name out.new ≡ O.name out.old }
    ensures cause { HasCause (O.faults out.old) (O.faults out.new) result }
{
    if packer.is_empty() {
        return Ok(());
    }
    write_all(out, packer.close())?;
    packer.restart();
    Ok(())
}
