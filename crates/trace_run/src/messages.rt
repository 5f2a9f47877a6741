ghost use Rattle.std.specs.Prelude.{◌≡◌, ◌≤◌, [], ◌∷◌, codes, length};
ghost use Rattle.std.specs.List.{flat_map};
ghost use Rattle.trace_outside.specs.Pieces.{text_of};
ghost use Rattle.trace_run.specs.Messages as spec;
ghost use Rattle.trace_run.specs.Messages.{message, usage_line, fault_text, fault_place, Says};
ghost use Rattle.run_endings.specs.Outside.{sink_seen};

use arrayvec::ArrayString;
use dat_header::OpenFault;
use itoa::Buffer;
use run_endings::Status;
use run_words::UsageFault;
use subpage::CutPlace;
use trace_args::WordFault;
use trace_outside::{Sink, write_parts};

/// Says the line of the answer, of an input of this name. Nothing is said of `Done`.
pub(crate) fn say<E: Sink>(input: &str, status: Status, err: &mut E)
    ensures { Says (message input.now status) (sink_seen E.Sink err.old) (sink_seen E.Sink err.new) }
{
    let input = input.as_bytes();
    match status {
        // what is said of words is said by `say_usage`
        Status::Done | Status::Usage => {}
        Status::Refused(fault) => say_of(input, refused_text(fault).as_bytes(), err),
        Status::Malformed(cut) => say_of(input, malformed_text(cut).as_bytes(), err),
        Status::ReadFault => say_parts(&[b"trace-cmd: ", input, b": read failed\n"], err),
        Status::WriteFault => say_parts(&[b"trace-cmd: write failed\n"], err),
        Status::NoMemory => say_parts(&[b"trace-cmd: out of memory\n"], err),
    }
}

/// Says what is wrong with the words, or with a filter of theirs.
pub(crate) fn say_usage<E: Sink>(fault: UsageFault, err: &mut E)
    ensures { Says (usage_line fault) (sink_seen E.Sink err.old) (sink_seen E.Sink err.new) }
{
    match fault {
        UsageFault::Word(fault) => say_word(fault, err),
        UsageFault::Filter { word, place } => say_filter(word, place, err),
    }
}

fn say_word<E: Sink>(fault: WordFault, err: &mut E)
    ensures { Says (usage_line (UsageFault.Word fault)) (sink_seen E.Sink err.old) (sink_seen E.Sink err.new) }
{
    let mut digits = Buffer::new();
    let word = digits.format(fault.word).as_bytes();
    say_parts(
        &[
            b"trace-cmd: word ",
            word,
            b": ",
            fault.kind.text().as_bytes(),
            b"\n",
        ],
        err,
    )
}

fn say_filter<E: Sink>(word: u64, place: u64, err: &mut E)
    ensures { Says (usage_line (UsageFault.Filter word place)) (sink_seen E.Sink err.old) (sink_seen E.Sink err.new) }
{
    let mut word_digits = Buffer::new();
    let mut place_digits = Buffer::new();
    let word = word_digits.format(word).as_bytes();
    let place = place_digits.format(place).as_bytes();
    say_parts(
        &[
            b"trace-cmd: word ",
            word,
            b": bad filter at byte ",
            place,
            b"\n",
        ],
        err,
    )
}

// Says this of an input.
fn say_of<'a, E: Sink>(input: &'a [u8], what: &'a [u8], err: &mut E)
    ensures { Says (text_of (codes "trace-cmd: " ∷ input.now ∷ codes ": " ∷ what.now ∷ codes "\n" ∷ []))
        (sink_seen E.Sink err.old) (sink_seen E.Sink err.new) }
{
    let parts: [&'a [u8]; 5] = [b"trace-cmd: ", input, b": ", what, b"\n"];
    say_parts(&parts, err)
}

// The longest text is that of a malformed sub-buffer, with two numbers.
const LONGEST: usize = 80;

fn refused_text(fault: OpenFault) -> ArrayString<LONGEST>
    ensures { result.bytes ≡ spec.refused_text fault }
{
    let mut digits = Buffer::new();
    let mut what = ArrayString::new();
    what.push_str(fault_text(fault));
    what.push_str(" at byte ");
    what.push_str(digits.format(fault_place(fault)));
    what
}

fn malformed_text(cut: CutPlace) -> ArrayString<LONGEST>
    ensures { result.bytes ≡ spec.malformed_text cut }
{
    let mut page_digits = Buffer::new();
    let mut cpu_digits = Buffer::new();
    let mut what = ArrayString::new();
    what.push_str("malformed sub-page ");
    what.push_str(page_digits.format(cut.page));
    what.push_str(" of processor ");
    what.push_str(cpu_digits.format(cut.cpu));
    what
}

// A fault of the message's own sink changes nothing else.
fn say_parts<E: Sink>(parts: &[&[u8]], err: &mut E)
    ensures { Says (flat_map (λ part. part.now) parts.now) (sink_seen E.Sink err.old) (sink_seen E.Sink err.new) }
{
    let _ = write_parts(err, parts);
}

fn fault_text(fault: OpenFault) -> &'static str
    ensures value { result.now ≡ fault_text fault }
    ensures short { length result.now ≤ 22 }
{
    match fault {
        OpenFault::NotTrace(_) => "not a trace file",
        OpenFault::Compressed(_) => "version 7 is not read",
        OpenFault::OtherVersion(_) => "unknown version",
        OpenFault::BadEndian(_) => "bad byte order",
        OpenFault::BadLong(_) => "bad long size",
        OpenFault::BadPageSize(_) => "bad page size",
        OpenFault::BadHeaderPage(_) => "bad header_page",
        OpenFault::BadSection(_) => "bad section",
        OpenFault::Truncated(_) => "file ends early",
        OpenFault::TooManyCpus(_) => "too many processors",
        OpenFault::Read | OpenFault::Memory => "",
    }
}

fn fault_place(fault: OpenFault) -> u64
    ensures { result ≡ fault_place fault }
{
    match fault {
        OpenFault::NotTrace(place)
        | OpenFault::Compressed(place)
        | OpenFault::OtherVersion(place)
        | OpenFault::BadEndian(place)
        | OpenFault::BadLong(place)
        | OpenFault::BadPageSize(place)
        | OpenFault::BadHeaderPage(place)
        | OpenFault::BadSection(place)
        | OpenFault::Truncated(place)
        | OpenFault::TooManyCpus(place) => place,
        OpenFault::Read | OpenFault::Memory => 0,
    }
}
