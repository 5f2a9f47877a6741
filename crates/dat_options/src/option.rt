use trace_base::ByteText;

/// An option of a trace file: its id and its bytes, which are carried unread (trace-cmd.dat.v6(5), `options`).
#[derive(Drop)]
pub struct Opt {
    /// What kind of option it is. 0 ends the list, so that no option has it.
    pub id: u16,
    /// Its bytes.
    pub bytes: ByteText,
}
