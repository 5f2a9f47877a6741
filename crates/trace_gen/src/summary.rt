// The line that sums up a report.

ghost use Rattle.std.specs.Prelude.{◌≡◌, ◌++◌, ◌≤◌, IfOk, OnOk};
ghost use Rattle.std.specs.Fmt.{decimal};
ghost use Rattle.trace_gen.specs.Summary.{line_count, weight, weighted_sum, summary_line};

use itoa::Buffer;
use std::alloc::{AllocError, Global};
use trace_base::ByteText;

// How many newlines there are.
fn count_lines(report: &[u8]) -> usize
    ensures { result ≡ line_count report.now }
{
    report.iter().filter(|byte| **byte == b'\n').count()
}

// A byte times one more than its place modulo 1,000.
fn weight(place: usize, byte: u8) -> u128
    ensures value { result ≡ weight (place, byte) }
    ensures small { result ≤ 255000 }
{
    byte as u128 * (1 + place % 1000) as u128
}

// The sum of the bytes, each times one more than its place modulo 1,000.
fn weigh(report: &[u8]) -> u128
    ensures { result ≡ weighted_sum report.now }
{
    let mut sum: u128 = 0;
    for (place, byte) in report.iter().enumerate() {
        sum += weight(place, *byte);
    }
    sum
}

fn put_number(line: &mut Vec<u8>, name: &[u8], number: u128) -> Result<(), AllocError>
    ensures { OnOk result (line.new.items ≡ line.old.items ++ (name.now ++ decimal number)) }
{
    let mut digits = Buffer::new();
    line.extend_from_slice(name)?;
    line.extend_from_slice(digits.format(number).as_bytes())
}

/// The line that a self-test with this seed and so many events prints of its report: the report's lines, its bytes, and
/// the sum of its bytes, each times one more than its place modulo 1,000. The sum is exact.
///
/// # Errors
/// `AllocError` where there was no memory.
pub fn summary_line(
    alloc: Global,
    seed: u64,
    events: u32,
    report: &[u8],
) -> Result<ByteText, AllocError>
    ensures { IfOk result (λ line. line ≡ summary_line seed events report.now) }
{
    let mut line = Vec::new(alloc);
    put_number(&mut line, b"selftest seed=", seed as u128)?;
    put_number(&mut line, b" events=", events as u128)?;
    put_number(&mut line, b" lines=", count_lines(report) as u128)?;
    put_number(&mut line, b" bytes=", report.len() as u128)?;
    put_number(&mut line, b" sum=", weigh(report))?;
    line.extend_from_slice(b"\n")?;
    Ok(ByteText::from_vec(line))
}
