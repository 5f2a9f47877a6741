/// The byte order of a file's numbers (trace-cmd.dat.v6(5), the byte after the version: 0 is little, 1 is big).
#[derive(Clone, Copy, Debug, PartialEq, Eq)]
pub enum Order {
    /// The lowest byte stands first.
    Little,
    /// The highest byte stands first.
    Big,
}
