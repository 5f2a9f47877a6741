// What a header says of the machine that the file was recorded on.

ghost use Rattle.std.specs.Prelude.{◌≤◌, IfOk};
ghost use Rattle.trace_base.specs.declared.order.Order.TheVariants.{Little};
ghost use Rattle.dat_header.specs.Allowed.{IsLong, IsPageSize};
ghost use Rattle.dat_header.specs.Pieces.{IsMachine};
ghost use Rattle.dat_header.specs.Opening.{machine_at};
ghost use Rattle.dat_header.specs.Steps.{Finds};
ghost use Rattle.dat_header.specs.ItemsAt.{value_at, order_of, long_of, page_of, cpus_of};

use crate::items::{read_byte, read_number};
use crate::pieces::Machine;
use dat_options::OpenFault;
use trace_base::Order;
use trace_outside::File;

pub(crate) fn read_machine<F: File>(file: &mut F, at: u64) -> Result<(Machine, u64), OpenFault>
    requires inside { at ≤ F.size file.old }
    ensures machine { IfOk result (λ found. IsMachine found.0) }
    ensures steps { Finds machine_at at F.File file.old file.new result }
{
    let (order, at_long) = read_order(file, at)?;
    let (long, at_page) = read_long(file, at_long)?;
    let (page, after) = read_page(order, file, at_page)?;
    Ok((Machine { order, long, page }, after))
}

fn read_order<F: File>(file: &mut F, at: u64) -> Result<(Order, u64), OpenFault>
    requires inside { at ≤ F.size file.old }
    ensures { Finds (value_at 1 Little order_of (OpenFault.BadEndian at)) at F.File file.old file.new result }
{
    let (byte, after) = read_byte(file, at)?;
    match byte {
        0 => Ok((Order::Little, after)),
        1 => Ok((Order::Big, after)),
        _ => Err(OpenFault::BadEndian(at)),
    }
}

fn read_long<F: File>(file: &mut F, at: u64) -> Result<(u32, u64), OpenFault>
    requires inside { at ≤ F.size file.old }
    ensures allowed { IfOk result (λ found. IsLong found.0) }
    ensures steps { Finds (value_at 1 Little long_of (OpenFault.BadLong at)) at F.File file.old file.new result }
{
    let (byte, after) = read_byte(file, at)?;
    match byte {
        4 | 8 => Ok((byte as u32, after)),
        _ => Err(OpenFault::BadLong(at)),
    }
}

fn read_page<F: File>(order: Order, file: &mut F, at: u64) -> Result<(u32, u64), OpenFault>
    requires inside { at ≤ F.size file.old }
    ensures allowed { IfOk result (λ found. IsPageSize found.0) }
    ensures steps { Finds (value_at 4 order page_of (OpenFault.BadPageSize at)) at F.File file.old file.new result }
{
    let (page, after) = read_number(order, file, at)?;
    match page {
        4_096 | 8_192 | 16_384 | 32_768 | 65_536 => Ok((page, after)),
        _ => Err(OpenFault::BadPageSize(at)),
    }
}

// How many processors the file has data of.
pub(crate) fn read_cpus<F: File>(
    order: Order,
    file: &mut F,
    at: u64,
) -> Result<(u32, u64), OpenFault>
    requires inside { at ≤ F.size file.old }
    ensures allowed { IfOk result (λ found. found.0 ≤ 1024) }
    ensures steps { Finds (value_at 4 order cpus_of (OpenFault.TooManyCpus at)) at F.File file.old file.new result }
{
    let (cpus, after) = read_number(order, file, at)?;
    if cpus > 1_024 {
        return Err(OpenFault::TooManyCpus(at));
    }
    Ok((cpus, after))
}
