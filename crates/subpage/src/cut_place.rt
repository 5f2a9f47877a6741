/// Where items end: before this malformed sub-buffer, told by its processor and its number there, both counted from 0.
#[derive(Clone, Copy, Debug, PartialEq, Eq)]
pub struct CutPlace {
    pub cpu: u32,
    pub page: u64,
}
