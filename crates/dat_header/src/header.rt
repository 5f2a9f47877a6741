use dat_options::Opt;
use trace_base::{ByteText, Layout, ListOf, Order, Part};

/// What a trace file says before its data (trace-cmd.dat.v6(5)).
#[derive(Drop)]
pub struct Header {
    /// The byte order of every number after the byte that tells it.
    pub order: Order,
    /// The size of the user's long, 4 or 8 bytes.
    pub long: u32,
    /// The page size of the machine, in bytes.
    pub page: u32,
    /// Where the fields of a sub-buffer stand, by `page_text`.
    pub layout: Layout,
    /// The text of the kernel's `events/header_page`.
    pub page_text: ByteText,
    /// The text of the kernel's `events/header_event`.
    pub event_text: ByteText,
    /// The formats of the ftrace system.
    pub ftrace: ListOf<ByteText>,
    /// The other systems with their formats.
    pub systems: ListOf<System>,
    /// The text of `/proc/kallsyms`.
    pub kallsyms: ByteText,
    /// The text of `printk_formats`.
    pub printk: ByteText,
    /// The text of `saved_cmdlines`.
    pub cmdlines: ByteText,
    /// How many processors the file has data of.
    pub cpus: u32,
    /// The options, where the file has that section.
    pub options: Option<ListOf<Opt>>,
    /// What follows the header.
    pub body: Body,
    /// The place just after the header, in bytes.
    pub end: u64,
}

/// A system of events with the format texts of its events.
#[derive(Drop)]
pub struct System {
    /// Its name, which holds no NUL.
    pub name: ByteText,
    /// One format text an event.
    pub formats: ListOf<ByteText>,
}

/// What follows a header.
#[derive(Drop)]
pub enum Body {
    /// The text of a latency tracer, up to the file's end.
    Latency,
    /// The data of each processor, at these parts of the file.
    Fly(ListOf<Part>),
}
