/// What is shown of each line of a report (trace-cmd-report(1)).
#[derive(Clone, Copy)]
pub struct LineOptions {
    /// `-t`: times have all nine digits of the nanoseconds.
    pub full: bool,
    /// `--ts-diff`: the difference to the last shown event follows an event's time.
    pub diff: bool,
    /// `-l`: the latency columns are shown.
    pub latency: bool,
    /// `-R`: the fields of all events are shown as they are.
    pub raw: bool,
    /// `-I`: events in a hard interrupt are left out.
    pub no_hard: bool,
    /// `-S`: events in a soft interrupt are left out.
    pub no_soft: bool,
}
