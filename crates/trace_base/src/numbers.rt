// Numbers of 16, 32 and 64 bits in a file's byte order.

ghost use Rattle.std.specs.Prelude.{◌≡◌, ◌≤◌, ◌++◌, length, take, drop};
ghost use Rattle.trace_base.specs.Number.{bytes_of, num};

use crate::order::Order;

/// The 16-bit number that the bytes begin with.
pub fn read_u16(order: Order, bytes: &[u8]) -> u16
    requires { 2 ≤ length bytes.now }
    ensures { result ≡ num order (take 2 bytes.now) }
{
    let front = [bytes[0], bytes[1]];
    match order {
        Order::Little => u16::from_le_bytes(front),
        Order::Big => u16::from_be_bytes(front),
    }
}

/// The 32-bit number that the bytes begin with.
pub fn read_u32(order: Order, bytes: &[u8]) -> u32
    requires { 4 ≤ length bytes.now }
    ensures { result ≡ num order (take 4 bytes.now) }
{
    let front = [bytes[0], bytes[1], bytes[2], bytes[3]];
    match order {
        Order::Little => u32::from_le_bytes(front),
        Order::Big => u32::from_be_bytes(front),
    }
}

/// The 64-bit number that the bytes begin with.
pub fn read_u64(order: Order, bytes: &[u8]) -> u64
    requires { 8 ≤ length bytes.now }
    ensures { result ≡ num order (take 8 bytes.now) }
{
    let front = [
        bytes[0], bytes[1], bytes[2], bytes[3], bytes[4], bytes[5], bytes[6], bytes[7],
    ];
    match order {
        Order::Little => u64::from_le_bytes(front),
        Order::Big => u64::from_be_bytes(front),
    }
}

/// Sets the first two bytes to the number.
pub fn put_u16(order: Order, value: u16, into: &mut [u8])
    requires { 2 ≤ length into.old }
    ensures { into.new ≡ bytes_of order 2 value ++ drop 2 into.old }
{
    let bytes = match order {
        Order::Little => value.to_le_bytes(),
        Order::Big => value.to_be_bytes(),
    };
    into[..2].copy_from_slice(&bytes);
}

/// Sets the first four bytes to the number.
pub fn put_u32(order: Order, value: u32, into: &mut [u8])
    requires { 4 ≤ length into.old }
    ensures { into.new ≡ bytes_of order 4 value ++ drop 4 into.old }
{
    let bytes = match order {
        Order::Little => value.to_le_bytes(),
        Order::Big => value.to_be_bytes(),
    };
    into[..4].copy_from_slice(&bytes);
}

/// Sets the first eight bytes to the number.
pub fn put_u64(order: Order, value: u64, into: &mut [u8])
    requires { 8 ≤ length into.old }
    ensures { into.new ≡ bytes_of order 8 value ++ drop 8 into.old }
{
    into[..8].copy_from_slice(&eight_bytes(order, value));
}

fn eight_bytes(order: Order, value: u64) -> [u8; 8]
    ensures { result ≡ bytes_of order 8 value }
{
    match order {
        Order::Little => value.to_le_bytes(),
        Order::Big => value.to_be_bytes(),
    }
}
