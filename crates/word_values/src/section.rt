ghost use Rattle.std.specs.Prelude.{◌≡◌, IfSome};
ghost use Rattle.std.specs.List.{find};
ghost use Rattle.std.specs.Str.{bytes_eq};
ghost use Rattle.word_values.specs.Sections.{place_of, section_name, sections};

/// A section of a dump.
#[derive(Clone, Copy, Debug, PartialEq, Eq)]
pub enum Section {
    /// The file's form and the size of each part.
    Summary,
    /// The text of header_page.
    HeadPage,
    /// The text of header_event.
    HeadEvent,
    /// The formats of ftrace's own events.
    FtraceEvents,
    /// The names of the systems.
    Systems,
    /// The formats of the systems' events.
    Events,
    /// The kernel's symbols.
    Kallsyms,
    /// The printk formats.
    Printk,
    /// The command lines.
    CmdLines,
    /// The options.
    Options,
    /// The table of parts.
    Flyrecord,
    /// That the file is a trace.
    Validate,
}

impl Section {
    /// All sections, in the order of a dump.
    pub const ALL: [Section; 12] = [
        Section::Summary,
        Section::HeadPage,
        Section::HeadEvent,
        Section::FtraceEvents,
        Section::Systems,
        Section::Events,
        Section::Kallsyms,
        Section::Printk,
        Section::CmdLines,
        Section::Options,
        Section::Flyrecord,
        Section::Validate,
    ];

    /// Its place in a dump, from 0.
    pub fn place(self) -> usize
        ensures { result ≡ place_of self }
    {
        self as usize
    }

    /// The name of its option, after the two dashes.
    pub fn name(self) -> &'static str
        ensures { result.now ≡ section_name self }
    {
        match self {
            Section::Summary => "summary",
            Section::HeadPage => "head-page",
            Section::HeadEvent => "head-event",
            Section::FtraceEvents => "ftrace-events",
            Section::Systems => "systems",
            Section::Events => "events",
            Section::Kallsyms => "kallsyms",
            Section::Printk => "printk",
            Section::CmdLines => "cmd-lines",
            Section::Options => "options",
            Section::Flyrecord => "flyrecord",
            Section::Validate => "validate",
        }
    }

    /// The section whose option has this name.
    pub fn named(name: &str) -> Option<Section>
        ensures { result ≡ find (λ section. bytes_eq name.now (section_name section)) sections }
    {
        Section::ALL
            .iter()
            .copied()
            .find(|section| name == section.name())
    }
}
