/// A list that a report prints in place of its events (trace-cmd-report(1)).
#[derive(Clone, Copy, Debug, PartialEq, Eq)]
pub enum Listing {
    /// `-E`: the names of the events.
    Names,
    /// `--events`: the formats of the events.
    Formats,
    /// `-f`: the kernel's symbols.
    Symbols,
    /// `-P`: the printk formats.
    Printk,
}

impl Listing {
    /// All of them.
    pub const ALL: [Listing; 4] = [
        Listing::Names,
        Listing::Formats,
        Listing::Symbols,
        Listing::Printk,
    ];
}
