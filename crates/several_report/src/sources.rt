// The inputs of a report of several files: opened one by one with their headers, and closed on every way out.

ghost use Rattle.std.specs.Prelude.{◌≡◌, ◌≤◌, ◌<◌, ◌+◌, [], List, ℕ, Contains, IfErr, IfOk, OnOk, length, map, vec_capacity, vec_len};
ghost use Rattle.trace_outside.specs.Folders.{Closes};
ghost use Rattle.dat_header.specs.Allowed.{IsBody};
ghost use Rattle.subpage.specs.WithBytes.{with_bytes};
ghost use Rattle.trace_outside.specs.Keeping.{KeepsFile};
ghost use Rattle.trace_outside.specs.Seen.{file_seen};
ghost use Rattle.trace_outside.specs.Open.{ClosesMany};
ghost use Rattle.trace_args.specs.Command.{report_view};
ghost use Rattle.several_report.specs.Inputs as spec;
ghost use Rattle.run_endings.specs.Outside.{FolderSeen, folder_seen};
ghost use Rattle.several_report.specs.OpenInput.{IsBasis, IsRead, WhyUnread, file_in, seen_with, source_seen};
ghost use Rattle.several_report.specs.Opened.{AreOpened, IsOpened, IsUnopened};
ghost use Rattle.several_report.specs.Reported.{OpensAll, OpensNext, StandsAt};

use dat_header::{Body, Header, OpenFault, read_header};
use multi_report::Source;
use report_context::{ItemLines, context_of};
use run_endings::{JobEnd, Selection, Status};
use run_words::read_filters;
use std::alloc::{AllocError, Global};
use time_merge::Lanes;
use trace_args::ReportWords;
use trace_base::Part;
use trace_outside::{Failed, File, Folder};
use word_values::CpuSet;

/// What the lines of a file stand on, and the lanes over the parts that are shown of it and have bytes.
#[derive(Drop)]
struct Basis {
    cpus: u32,
    form: ItemLines,
    lanes: Lanes,
}

// The parts that are shown of a file and have bytes.
fn shown_parts(
    alloc: Global,
    cpus: &Option<CpuSet>,
    header: &Header,
) -> Result<Vec<(u32, Part)>, AllocError>
    requires few { header.now.cpus ≤ 1024 }
    requires parts { IsBody header.now.cpus header.now.body }
    ensures parts { IfOk result (λ shown. shown.items ≡ with_bytes (spec.shown_parts cpus.now header.now.body)) }
    ensures few { IfOk result (λ shown. length shown.items ≤ 1024) }
{
    match &header.body {
        Body::Latency => Ok(Vec::new(alloc)),
        Body::Fly(parts) => Selection::set_or_all(cpus).chosen_with_bytes(alloc, parts.as_slice()),
    }
}

// What the lines of a file with this header stand on. The filters of the words are read for each file.
#[tactic(auto, using(run_words::proofs::Usages::uses_known))]
fn basis_of(alloc: Global, words: &ReportWords<'_>, header: Header) -> Result<Basis, AllocError>
    requires few { header.cpus ≤ 1024 }
    requires parts { IsBody header.cpus header.body }
    ensures { IfOk result (λ basis. IsBasis (report_view words.now) header basis) }
{
    let Ok(filters) = read_filters(alloc, words.filters.as_slice()) else {
        return Err(AllocError);
    };
    let cpus = header.cpus;
    let layout = header.layout;
    let shown = shown_parts(alloc, &words.cpus, &header)?;
    let context = context_of(alloc, words, filters, header)?;
    let lanes = Lanes::new(alloc, &layout, shown.as_slice())?;
    Ok(Basis {
        cpus,
        form: ItemLines { context },
        lanes,
    })
}

// Reads the header of a file that was just opened, and takes all that its lines stand on.
fn read_basis<I: File>(
    alloc: Global,
    words: &ReportWords<'_>,
    file: &mut I,
) -> Result<Basis, Status>
    ensures read { IfOk result (λ basis. IsRead (report_view words.now) (I.bytes file.old) (I.reads file.old) (I.reads file.new) basis) }
    ensures kept { OnOk result (I.faults file.new ≡ I.faults file.old) }
    ensures unread { IfErr result (λ status. WhyUnread (I.bytes file.old) (I.faults file.old) (I.faults file.new) status) }
    ensures keeps { KeepsFile I.File file.old file.new }
{
    match read_header(alloc, file) {
        Ok(header) => match basis_of(alloc, words, header) {
            Ok(basis) => Ok(basis),
            Err(AllocError) => Err(Status::NoMemory),
        },
        Err(OpenFault::Read) => Err(Status::ReadFault),
        Err(OpenFault::Memory) => Err(Status::NoMemory),
        Err(fault) => Err(Status::Refused(fault)),
    }
}

// Opens a file and reads its header. Where that is all, the file is closed again.
fn open_source<'a, F: Folder>(
    alloc: Global,
    words: &ReportWords<'_>,
    name: &'a str,
    folder: &mut F,
) -> Result<Source<'a, F::In, ItemLines>, Status>
    ensures opened { IfOk result (λ source. IsOpened (report_view words.now) name.now (source_seen F.In.File source)
        (folder_seen F.Folder folder.old) (folder_seen F.Folder folder.new)) }
    ensures unopened { IfErr result (λ status. IsUnopened name.now status
        (folder_seen F.Folder folder.old) (folder_seen F.Folder folder.new)) }
{
    match folder.open_file(name) {
        Err(Failed) => Err(Status::ReadFault),
        Ok(mut file) => match read_basis(alloc, words, &mut file) {
            Ok(basis) => Ok(source_on(name, file, basis)),
            Err(status) => {
                folder.close_file(file);
                Err(status)
            }
        },
    }
}

// The source of a file and of what its lines stand on.
fn source_on<'a, I: File>(name: &'a str, file: I, basis: Basis) -> Source<'a, I, ItemLines>
    ensures { source_seen I.File result ≡ seen_with name.now (file_seen I.File file) basis }
{
    let Basis { cpus, form, lanes } = basis;
    Source {
        name,
        file,
        cpus,
        form,
        lanes,
    }
}

// Opens one more input and holds it after those that are open. Its room was taken before.
fn open_next<'a, F: Folder>(
    alloc: Global,
    words: &ReportWords<'a>,
    name: &'a str,
    sources: &mut Vec<Source<'a, F::In, ItemLines>>,
    folder: &mut F,
) -> Result<(), JobEnd<'a>>
    requires room { vec_len sources.old < vec_capacity sources.old }
    ensures room { vec_capacity sources.new ≡ vec_capacity sources.old }
    ensures count { OnOk result (length sources.new.items ≡ length sources.old.items + 1) }
    ensures next { (before : FolderSeen) (names : List (List ℕ))
        → AreOpened (report_view words.now) names (map (source_seen F.In.File) sources.old.items) before (folder_seen F.Folder folder.old)
        → OpensNext (report_view words.now) before names name.now (map (source_seen F.In.File) sources.new.items) (folder_seen F.Folder folder.new) result }
{
    match open_source(alloc, words, name, folder) {
        Ok(source) => {
            sources.push_reserved(source);
            Ok(())
        }
        Err(status) => Err(JobEnd { status, file: name }),
    }
}

/// The input of this place, counted from 0.
pub(crate) fn input_at<'a>(words: &ReportWords<'a>, place: usize) -> &'a str
    ensures named { Contains (spec.names_in (report_view words.now)) result.now }
    ensures there { StandsAt (spec.names_in (report_view words.now)) place result.now }
{
    if place == 0 {
        return words.input;
    }
    let behind = place - 1;
    if behind < words.more.len() {
        words.more[behind]
    } else {
        words.input
    }
}

/// Opens all inputs in the order of the words, each with its header before the next, up to the first that is wrong.
pub(crate) fn open_sources<'a, F: Folder>(
    alloc: Global,
    words: &ReportWords<'a>,
    sources: &mut Vec<Source<'a, F::In, ItemLines>>,
    folder: &mut F,
) -> Result<(), JobEnd<'a>>
    requires few { length words.now.more.items ≤ 7 }
    requires none { sources.old.items ≡ [] }
    requires room { length words.now.more.items < vec_capacity sources.old }
    ensures { OpensAll (report_view words.now) (map (source_seen F.In.File) sources.new.items)
        (folder_seen F.Folder folder.old) (folder_seen F.Folder folder.new) result }
{
    let count = words.more.len() + 1;
    for place in 0..count {
        match open_next(alloc, words, input_at(words, place), sources, folder) {
            Ok(()) => {}
            Err(end) => return Err(end),
        }
    }
    Ok(())
}

fn close_source<F: Folder>(source: Source<'_, F::In, ItemLines>, folder: &mut F)
    ensures counts { Closes (F.In.faults source.entry.file) (F.In.reads source.entry.file) (F.counts folder.old) (F.counts folder.new) }
    ensures files { F.files folder.new ≡ F.files folder.old }
    ensures requested { F.requested folder.new ≡ F.requested folder.old }
{
    let Source {
        name: _,
        file,
        cpus: _,
        form: _,
        lanes: _,
    } = source;
    folder.close_file(file);
}

/// Closes all inputs that are open.
pub(crate) fn close_sources<F: Folder>(
    mut sources: Vec<Source<'_, F::In, ItemLines>>,
    folder: &mut F,
)
    ensures counts { ClosesMany (map file_in (map (source_seen F.In.File) sources.entry.items)) (F.counts folder.old) (F.counts folder.new) }
    ensures files { F.files folder.new ≡ F.files folder.old }
    ensures requested { F.requested folder.new ≡ F.requested folder.old }
{
    while let Some(source) = sources.pop() {
        close_source(source, folder);
    }
    sources.destroy_empty();
}
