// The lists of events.

ghost use Rattle.std.specs.Prelude.{◌≡◌, ◌∷◌, []};
ghost use Rattle.std.specs.List.{concat};
ghost use Rattle.std.specs.Option.{option_copied};
ghost use Rattle.trace_outside.specs.Causes.{HasCause};
ghost use Rattle.trace_outside.specs.Pending.{Puts};
ghost use Rattle.report_lists.specs.Lists as spec;

use format_parse::{EventFormat, FormatTable};
use text_lines::line_end;
use trace_outside::{Failed, Pending, Sink};

/// Puts the events of a file, one `SYSTEM/NAME` a line, in the order of their formats (trace-cmd-report(1), `-E`).
#[tactic(auto, using(trace_outside::proofs::Putting::put_all))]
pub fn put_event_names<O: Sink>(
    pending: &mut Pending,
    out: &mut O,
    formats: &FormatTable,
) -> Result<(), Failed>
    ensures puts { Puts (spec.names_list formats.now) (O.written out.old) pending.old (O.written out.new) pending.new result }
    ensures name { O.name out.new ≡ O.name out.old }
    ensures cause { HasCause (O.faults out.old) (O.faults out.new) result }
{
    for i in 0..formats.len() {
        put_name(pending, out, formats.get(i))?;
    }
    Ok(())
}

/// Puts the format texts of a file's events as they are, in their order, each ended by a newline (`--events`).
#[tactic(auto, using(trace_outside::proofs::Putting::put_all))]
pub fn put_event_formats<O: Sink>(
    pending: &mut Pending,
    out: &mut O,
    formats: &FormatTable,
) -> Result<(), Failed>
    ensures puts { Puts (spec.formats_list formats.now) (O.written out.old) pending.old (O.written out.new) pending.new result }
    ensures name { O.name out.new ≡ O.name out.old }
    ensures cause { HasCause (O.faults out.old) (O.faults out.new) result }
{
    for i in 0..formats.len() {
        put_format(pending, out, formats.get(i))?;
    }
    Ok(())
}

fn put_name<O: Sink>(
    pending: &mut Pending,
    out: &mut O,
    format: Option<&EventFormat>,
) -> Result<(), Failed>
    ensures puts { Puts (spec.entry spec.name_line (option_copied format.entry)) (O.written out.old) pending.old (O.written out.new) pending.new result }
    ensures name { O.name out.new ≡ O.name out.old }
    ensures cause { HasCause (O.faults out.old) (O.faults out.new) result }
{
    match format {
        None => pending.put(out, b""),
        Some(format) => pending.put_parts(
            out,
            &[
                format.system.as_bytes(),
                b"/",
                format.name.as_bytes(),
                b"\n",
            ],
        ),
    }
}

fn put_format<O: Sink>(
    pending: &mut Pending,
    out: &mut O,
    format: Option<&EventFormat>,
) -> Result<(), Failed>
    ensures puts { Puts (spec.entry spec.format_lines (option_copied format.entry)) (O.written out.old) pending.old (O.written out.new) pending.new result }
    ensures name { O.name out.new ≡ O.name out.old }
    ensures cause { HasCause (O.faults out.old) (O.faults out.new) result }
{
    match format {
        None => pending.put(out, b""),
        Some(format) => {
            let text = format.text.as_bytes();
            put_pair(pending, out, text, line_end(text))
        }
    }
}

fn put_pair<'a, O: Sink>(
    pending: &mut Pending,
    out: &mut O,
    text: &'a [u8],
    end: &'a [u8],
) -> Result<(), Failed>
    ensures puts { Puts (concat (text.now ∷ end.now ∷ [])) (O.written out.old) pending.old (O.written out.new) pending.new result }
    ensures name { O.name out.new ≡ O.name out.old }
    ensures cause { HasCause (O.faults out.old) (O.faults out.new) result }
{
    pending.put_parts(out, &[text, end])
}
