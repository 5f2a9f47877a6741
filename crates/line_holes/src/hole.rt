/// A hole of a line: its place in the line's bytes, and the time of the line's event.
#[derive(Clone, Copy, Debug, PartialEq, Eq)]
pub struct Hole {
    pub place: u32,
    pub time: u64,
}
