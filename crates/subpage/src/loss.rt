/// A loss that a sub-buffer tells before its events.
#[derive(Clone, Copy, Debug)]
pub struct Loss {
    pub time: u64,
    pub count: Option<u64>,
}
