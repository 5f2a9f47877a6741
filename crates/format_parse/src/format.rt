use trace_base::{ByteText, Field, ListOf};

/// What a format text says of an event (Documentation/trace/events.rst, 'Event formats').
#[derive(Drop)]
pub struct EventFormat {
    /// The system that the event belongs to.
    pub system: ByteText,
    /// The event's name, an identifier.
    pub name: ByteText,
    /// The number that events of this kind carry.
    pub id: u32,
    /// The fields of its records, in the text's order, those that all events have included.
    pub fields: ListOf<Field>,
    /// The text after `print fmt:`, unread; empty where there is none.
    pub print: ByteText,
    /// The whole text.
    pub text: ByteText,
}
