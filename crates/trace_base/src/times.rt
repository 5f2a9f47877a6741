ghost use Rattle.std.specs.Prelude.{◌≡◌};
ghost use Rattle.trace_base.specs.Times.{micros};

/// Nanoseconds as microseconds, rounded half up (trace-cmd-report(1), whose times have six decimals).
pub fn micros(nanos: u64) -> u64
    ensures { result ≡ micros nanos }
{
    nanos / 1000 + (nanos % 1000 + 500) / 1000
}
