ghost use Rattle.std.specs.Prelude.{◌≡◌};
ghost use Rattle.trace_samples.specs.SampleLayout.{sample_layout};

use trace_base::{Layout, Order};

/// The layout of sub-buffers of 4,096 bytes by a kernel of 64 bits, little end first.
pub fn layout() -> Layout
    ensures value { result ≡ sample_layout }
    ensures page { result.page ≡ 4096 }
{
    Layout::plain(Order::Little, 8, 4096)
}
