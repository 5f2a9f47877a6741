ghost use Rattle.std.specs.Prelude.{◌≡◌, [], OnOk, OnErr};
ghost use Rattle.trace_outside.specs.Causes.{HasCause};
ghost use Rattle.trace_outside.specs.Pending.{PutsText, on_way};
ghost use Rattle.trace_outside.specs.Writing.{Gained, GainedPrefix};
ghost use Rattle.dump_tool.specs.Dump.{dump_text, section_text};

use crate::entries::{put_each, put_list};
use crate::lines::put_text;
use crate::lists::{options_of, put_body, put_events, put_option, put_system};
use crate::summary::put_summary;
use dat_header::Header;
use trace_outside::{Failed, Pending, Sink};
use word_values::Section;

/// Prints the chosen sections of the header of a file with this name, in the order of `Section::ALL` (trace-cmd-dump(1)).
/// `sections` has for each whether it is.
///
/// Takes no memory: the text goes out through `pending`, and after `Ok` none of it waits there. After `Failed` the sink has a
/// prefix of it.
pub fn dump<O: Sink>(
    name: &str,
    sections: &[bool; 12],
    header: &Header,
    pending: &mut Pending,
    out: &mut O,
) -> Result<(), Failed>
    requires { pending.old ≡ [] }
    ensures gained { OnOk result (Gained (O.written out.old) (O.written out.new) (dump_text name.now sections.now header.now)) }
    ensures prefix { OnErr result (GainedPrefix (O.written out.old) (O.written out.new) (dump_text name.now sections.now header.now)) }
    ensures empty { OnOk result (pending.new ≡ []) }
    ensures name { O.name out.new ≡ O.name out.old }
    ensures cause { HasCause (O.faults out.old) (O.faults out.new) result }
{
    put_chosen(pending, out, name, sections, header)?;
    pending.flush(out)
}

// Puts the chosen sections.
fn put_chosen<O: Sink>(
    pending: &mut Pending,
    out: &mut O,
    name: &str,
    sections: &[bool; 12],
    header: &Header,
) -> Result<(), Failed>
    ensures { PutsText (dump_text name.now sections.now header.now) (on_way O.written O.name O.faults out.old pending.old) (on_way O.written O.name O.faults out.new pending.new) result }
{
    let chosen = Section::ALL
        .iter()
        .filter(|section| sections[section.place()]);
    put_each(pending, out, chosen, |pending, out, section| {
        put_section(pending, out, *section, name, header)
    })
}

fn put_section<O: Sink>(
    pending: &mut Pending,
    out: &mut O,
    section: Section,
    name: &str,
    header: &Header,
) -> Result<(), Failed>
    ensures { PutsText (section_text name.now header.now section) (on_way O.written O.name O.faults out.old pending.old) (on_way O.written O.name O.faults out.new pending.new) result }
{
    match section {
        Section::Summary => put_summary(pending, out, name, header),
        Section::HeadPage => put_text(pending, out, b"header_page", header.page_text.as_bytes()),
        Section::HeadEvent => put_text(pending, out, b"header_event", header.event_text.as_bytes()),
        Section::FtraceEvents => {
            let formats = header.ftrace.as_slice().iter();
            put_list(
                pending,
                out,
                "ftrace formats",
                formats,
                |pending, out, format| put_text(pending, out, b"format", format.as_bytes()),
            )
        }
        Section::Systems => {
            let systems = header.systems.as_slice().iter();
            put_list(pending, out, "systems", systems, put_system)
        }
        Section::Events => put_events(pending, out, header.systems.as_slice()),
        Section::Kallsyms => put_text(pending, out, b"kallsyms", header.kallsyms.as_bytes()),
        Section::Printk => put_text(pending, out, b"printk formats", header.printk.as_bytes()),
        Section::CmdLines => put_text(pending, out, b"command lines", header.cmdlines.as_bytes()),
        Section::Options => {
            let options = options_of(header).iter();
            put_list(pending, out, "options", options, put_option)
        }
        Section::Flyrecord => put_body(pending, out, &header.body),
        Section::Validate => pending.put(out, b"valid\n"),
    }
}
