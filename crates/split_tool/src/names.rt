// The names of new files.

ghost use Rattle.std.specs.Prelude.{◌≡◌, ◌≤◌, length};
ghost use Rattle.split_tool.specs.Names.{file_name};

use arrayvec::ArrayString;
use itoa::Buffer;

// A base has up to 4,096 bytes; a point and a number of 128 bits follow it: whatever a file of 64 bits' length tells,
// its items are fewer.
const LONGEST: usize = 4096 + 40;

/// Room for the name of a new file.
pub type FileName = ArrayString<LONGEST>;

/// Puts the name of a new file there: the base, a point and its number in decimal (trace-cmd-split(1)).
pub fn put_name(base: &str, number: u128, name: &mut FileName)
    requires { length base.now ≤ 4096 }
    ensures { name.new.bytes ≡ file_name base.now number }
{
    let mut digits = Buffer::new();
    name.clear();
    name.push_str(base);
    name.push_str(".");
    name.push_str(digits.format(number));
}
