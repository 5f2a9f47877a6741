ghost use Rattle.std.specs.Prelude.{◌≡◌, ◌+◌};
ghost use Rattle.subpage.specs.ElementView.{element_view};
ghost use Rattle.subpage.specs.RunningTime.{in_64_bits, stamped, time_after};

use crate::element::Element;

/// A stamp has this many bits.
const STAMP_BITS: u32 = 59;

/// The running time after a stamp, where it is below 2^64.
fn time_at_stamp(time: u64, stamp: u64) -> Option<u64>
    ensures { result ≡ in_64_bits (stamped time stamp) }
{
    let upper = (time >> STAMP_BITS) << STAMP_BITS;
    if upper == 0 {
        return Some(stamp);
    }
    let near = upper.checked_add(stamp)?;
    if time <= near {
        Some(near)
    } else {
        near.checked_add(1 << STAMP_BITS)
    }
}

/// The running time so much later, where it is below 2^64.
pub fn time_past(time: u64, delta: u32) -> Option<u64>
    ensures { result ≡ in_64_bits (time + delta) }
{
    time.checked_add(u64::from(delta))
}

/// The running time after an element, where it is below 2^64.
pub fn time_behind(time: u64, element: &Element<'_>) -> Option<u64>
    ensures { result ≡ in_64_bits (time_after time (element_view element.now)) }
{
    match *element {
        Element::Event { delta, .. } | Element::Discarded { delta } => time_past(time, delta),
        Element::Extend { delta } => time.checked_add(delta),
        Element::Stamp { time: stamp } => time_at_stamp(time, stamp),
        Element::End => Some(time),
    }
}
