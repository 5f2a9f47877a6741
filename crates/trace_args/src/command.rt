ghost use Rattle.std.specs.Prelude.{◌≡◌, IfOk, MatchResult, map};
ghost use Rattle.std.specs.List.{list_any};
ghost use Rattle.word_values.specs.Sections.{sections};
ghost use Rattle.trace_args.specs.Asked.{base_of, bound_of, command_of, cpu_of, cpus_of, dump_of, events_of, first_input, input_of, is_printed, line_options_of, listing_of, more_inputs, names_any, names_section, output_of, piece_by, report_of, restore_of, seed_of, self_of, split_of, text_or, unit_of, work_of, workers_of};
ghost use Rattle.trace_args.specs.Command.{command_view, dump_view, report_view, restore_view, self_view, split_view};
ghost use Rattle.trace_args.specs.Faults.{no_memory};
ghost use Rattle.trace_args.specs.Given.{is_set};
ghost use Rattle.trace_args.specs.GivenView.{given_view};

use crate::fault::{WordFault, WordKind};
use crate::given::Given;
use crate::option::{FlagOption, ValuedOption};
use crate::tool::Tool;
use crate::topic::Topic;
use line_options::LineOptions;
use std::alloc::{AllocError, Global};
use word_values::{
    CpuSet, Listing, Moment, PieceOption, PieceUnit, Section, cpu_number, cpu_set, event_count,
    piece_count, seed_number, worker_count,
};

/// What a command line asks for.
#[derive(Drop)]
pub enum Command<'a> {
    /// Print the events of a file.
    Report(ReportWords<'a>),
    /// Print what a file's header says.
    Dump(DumpWords<'a>),
    /// Count the output of a report on a file that is made up.
    SelfTest(SelfWords),
    /// Cut a file into pieces.
    Split(SplitWords<'a>),
    /// Make a file of a partial one and of data files.
    Restore(RestoreWords<'a>),
    /// Print what the program tells of itself.
    About(Topic),
}

/// The words of `report` (trace-cmd-report(1)).
#[derive(Drop)]
pub struct ReportWords<'a> {
    /// The name of the file, or of the first where there are more.
    pub input: &'a str,
    /// `-i`, given again: the names of up to seven more files, in their order.
    pub more: Vec<&'a str>,
    /// `-F` and `-v`: the filters, in their order.
    pub filters: Vec<FilterWord<'a>>,
    /// What is shown of each line.
    pub line: LineOptions,
    /// `-r`: the names of events whose fields are printed as they are.
    pub raw_events: Vec<&'a str>,
    /// `--calls`: the function graph's calls are printed in place of the events.
    pub calls: bool,
    /// The list that is printed in place of the events, where one is.
    pub list: Option<Listing>,
    /// `-w`: how long woken tasks waited is printed after the events.
    pub wakeups: bool,
    /// `--cpu`: the processors that are printed, where not all are.
    pub cpus: Option<CpuSet>,
    /// `--workers`: how many threads work, from 1 to 64.
    pub workers: u32,
}

/// A filter of `report`.
#[derive(Clone, Copy)]
pub struct FilterWord<'a> {
    /// The number of the word that holds it.
    pub word: u64,
    /// Whether a `-v` stands before it: the events that it matches are hidden.
    pub hide: bool,
    /// What the word says.
    pub text: &'a str,
}

/// The words of `dump` (trace-cmd-dump(1)).
#[derive(Drop)]
pub struct DumpWords<'a> {
    /// The name of the file.
    pub input: &'a str,
    /// For each section whether it is printed, in the order of `Section::ALL`.
    pub sections: [bool; 12],
}

/// The words of `selftest`.
#[derive(Clone, Copy)]
pub struct SelfWords {
    /// The number from which the file is made.
    pub seed: u64,
    /// How many events it has, up to 1,000,000.
    pub events: u32,
    /// `--workers`: how many threads work, from 1 to 64.
    pub workers: u32,
}

/// The words of `split` (trace-cmd-split(1)).
#[derive(Clone, Copy)]
pub struct SplitWords<'a> {
    /// The name of the file.
    pub input: &'a str,
    /// `-o`: what the names of the new files begin with, up to 4,096 bytes.
    pub base: &'a str,
    /// `-s`, `-m`, `-u` and `-e`: the size of a piece.
    pub unit: PieceUnit,
    /// `-r`: there is a file for each piece.
    pub repeat: bool,
    /// `-c`: each processor is cut by itself.
    pub per_cpu: bool,
    /// `-C`: the processor that is taken, where not all are.
    pub cpu: Option<u32>,
    /// From when on events are taken.
    pub start: Option<Moment>,
    /// Up to when events are taken.
    pub stop: Option<Moment>,
}

/// The words of `restore` (trace-cmd-restore(1)).
#[derive(Drop)]
pub struct RestoreWords<'a> {
    /// `-i`: the name of the partial file.
    pub input: &'a str,
    /// `-o`: the name of the new file.
    pub output: &'a str,
    /// The names of the data files, in order of processors: from 1 to 256.
    pub files: Vec<&'a str>,
}

impl<'a> Command<'a> {
    // The command that the settings ask for.
    pub(crate) fn asked(
        alloc: Global,
        tool: Tool,
        given: &Given<'a>,
    ) -> Result<Command<'a>, WordFault>
        ensures { MatchResult result
            (λ command. command_view command ≡ command_of tool (given_view given.now))
            (λ fault. fault ≡ no_memory) }
    {
        if given.asks_help() {
            Ok(Command::About(Topic::HelpOf(tool)))
        } else {
            Command::work(alloc, tool, given)
        }
    }

    // The work of the command.
    fn work(alloc: Global, tool: Tool, given: &Given<'a>) -> Result<Command<'a>, WordFault>
        ensures { MatchResult result
            (λ command. command_view command ≡ work_of tool (given_view given.now))
            (λ fault. fault ≡ no_memory) }
    {
        match tool {
            Tool::Report => match ReportWords::asked(alloc, given) {
                Ok(words) => Ok(Command::Report(words)),
                Err(_) => Err(WordKind::Memory.at(1)),
            },
            Tool::Dump => Ok(Command::Dump(DumpWords::asked(given))),
            Tool::SelfTest => Ok(Command::SelfTest(SelfWords::asked(given))),
            Tool::Split => Ok(Command::Split(SplitWords::asked(given))),
            Tool::Restore => match RestoreWords::asked(alloc, given) {
                Ok(words) => Ok(Command::Restore(words)),
                Err(_) => Err(WordKind::Memory.at(1)),
            },
        }
    }
}

impl<'a> ReportWords<'a> {
    fn asked(alloc: Global, given: &Given<'a>) -> Result<ReportWords<'a>, AllocError>
        ensures { IfOk result (λ words. report_view words ≡ report_of (given_view given.now)) }
    {
        let more = more_inputs(alloc, given)?;
        let filters = given.filters(alloc)?;
        let raw_events = given.texts(alloc, ValuedOption::RawEvent)?;
        Ok(ReportWords {
            input: first_input(given),
            more,
            filters,
            line: line(given),
            raw_events,
            calls: given.is_set(FlagOption::Calls),
            list: listing(given),
            wakeups: given.is_set(FlagOption::Wakeups),
            cpus: cpus(given),
            workers: workers(given),
        })
    }
}

fn line(given: &Given<'_>) -> LineOptions
    ensures { result ≡ line_options_of (given_view given.now) }
{
    LineOptions {
        full: given.is_set(FlagOption::FullTime),
        diff: given.is_set(FlagOption::Differences),
        latency: given.is_set(FlagOption::Latency),
        raw: given.is_set(FlagOption::Raw),
        no_hard: given.is_set(FlagOption::NoHard),
        no_soft: given.is_set(FlagOption::NoSoft),
    }
}

impl<'a> DumpWords<'a> {
    fn asked(given: &Given<'a>) -> DumpWords<'a>
        ensures { dump_view result ≡ dump_of (given_view given.now) }
    {
        DumpWords {
            input: input(given),
            sections: [
                prints(given, Section::Summary),
                prints(given, Section::HeadPage),
                prints(given, Section::HeadEvent),
                prints(given, Section::FtraceEvents),
                prints(given, Section::Systems),
                prints(given, Section::Events),
                prints(given, Section::Kallsyms),
                prints(given, Section::Printk),
                prints(given, Section::CmdLines),
                prints(given, Section::Options),
                prints(given, Section::Flyrecord),
                prints(given, Section::Validate),
            ],
        }
    }
}

impl SelfWords {
    fn asked(given: &Given<'_>) -> SelfWords
        ensures { self_view result ≡ self_of (given_view given.now) }
    {
        SelfWords {
            seed: seed(given),
            events: events(given),
            workers: workers(given),
        }
    }
}

impl<'a> SplitWords<'a> {
    fn asked(given: &Given<'a>) -> SplitWords<'a>
        ensures { split_view result ≡ split_of (given_view given.now) }
    {
        SplitWords {
            input: input(given),
            base: base(given),
            unit: unit(given),
            repeat: given.is_set(FlagOption::Repeat),
            per_cpu: given.is_set(FlagOption::PerCpu),
            cpu: cpu(given),
            start: bound(given, 0),
            stop: bound(given, 1),
        }
    }
}

impl<'a> RestoreWords<'a> {
    fn asked(alloc: Global, given: &Given<'a>) -> Result<RestoreWords<'a>, AllocError>
        ensures { IfOk result (λ words. restore_view words ≡ restore_of (given_view given.now)) }
    {
        let files = given.texts(alloc, ValuedOption::DataFile)?;
        Ok(RestoreWords {
            input: input(given),
            output: output(given),
            files,
        })
    }
}

// The value of the option, or else the other text.
fn text_or<'a>(given: &Given<'a>, option: ValuedOption, other: &'a str) -> &'a str
    ensures { result.now ≡ text_or option other.now (given_view given.now) }
{
    match given.value(option) {
        Some(value) => value.text,
        None => other,
    }
}

// The name of the new file.
fn output<'a>(given: &Given<'a>) -> &'a str
    ensures { result.now ≡ output_of (given_view given.now) }
{
    text_or(given, ValuedOption::Output, "trace.dat")
}

// What the names of new files begin with.
fn base<'a>(given: &Given<'a>) -> &'a str
    ensures { result.now ≡ base_of (given_view given.now) }
{
    text_or(given, ValuedOption::Base, input(given))
}

// The size of a piece.
fn unit(given: &Given<'_>) -> PieceUnit
    ensures { result ≡ unit_of (given_view given.now) }
{
    piece(given, PieceOption::Seconds)
        .or(piece(given, PieceOption::Millis))
        .or(piece(given, PieceOption::Micros))
        .or(piece(given, PieceOption::Events))
        .unwrap_or(PieceUnit::All)
}

// The size of a piece by this option.
fn piece(given: &Given<'_>, option: PieceOption) -> Option<PieceUnit>
    ensures { result ≡ piece_by (given_view given.now) option }
{
    let value = given.value(ValuedOption::Piece(option))?;
    let count = piece_count(value.text.as_bytes())?;
    Some(option.piece(count))
}

// The processor that is taken, where not all are.
fn cpu(given: &Given<'_>) -> Option<u32>
    ensures { result ≡ cpu_of (given_view given.now) }
{
    let value = given.value(ValuedOption::Cpu)?;
    cpu_number(value.text.as_bytes())
}

// The start, or after it the end.
fn bound(given: &Given<'_>, place: usize) -> Option<Moment>
    ensures { result ≡ bound_of place (given_view given.now) }
{
    let value = given.nth(ValuedOption::Bound, place)?;
    Moment::parse(value.text.as_bytes())
}

// The number from which a file is made.
fn seed(given: &Given<'_>) -> u64
    ensures { result ≡ seed_of (given_view given.now) }
{
    match given.nth(ValuedOption::TestNumber, 0) {
        Some(value) => seed_number(value.text.as_bytes()).unwrap_or(0),
        None => 0,
    }
}

// How many events it has.
fn events(given: &Given<'_>) -> u32
    ensures { result ≡ events_of (given_view given.now) }
{
    match given.nth(ValuedOption::TestNumber, 1) {
        Some(value) => event_count(value.text.as_bytes()).unwrap_or(0),
        None => 0,
    }
}

// The name of the file.
fn input<'a>(given: &Given<'a>) -> &'a str
    ensures { result.now ≡ input_of (given_view given.now) }
{
    text_or(given, ValuedOption::Input, "trace.dat")
}

// The name of the first file of a report.
fn first_input<'a>(given: &Given<'a>) -> &'a str
    ensures { result.now ≡ first_input (given_view given.now) }
{
    text_or(given, ValuedOption::Source, input(given))
}

// The names of the files of a report after the first.
fn more_inputs<'a>(alloc: Global, given: &Given<'a>) -> Result<Vec<&'a str>, AllocError>
    ensures { IfOk result (λ more. map (λ name. name.now) more.items ≡ more_inputs (given_view given.now)) }
{
    let mut inputs = given.texts(alloc, ValuedOption::Source)?;
    if !inputs.is_empty() {
        inputs.remove(0);
    }
    Ok(inputs)
}

// The list that is printed in place of the events, where one is.
fn listing(given: &Given<'_>) -> Option<Listing>
    ensures { result ≡ listing_of (given_view given.now) }
{
    Listing::ALL
        .iter()
        .copied()
        .find(|listing| given.is_set(FlagOption::Listing(*listing)))
}

// The processors that are selected, where not all are.
fn cpus(given: &Given<'_>) -> Option<CpuSet>
    ensures { result ≡ cpus_of (given_view given.now) }
{
    let value = given.value(ValuedOption::Cpus)?;
    cpu_set(value.text.as_bytes())
}

// How many threads work.
fn workers(given: &Given<'_>) -> u32
    ensures { result ≡ workers_of (given_view given.now) }
{
    match given.value(ValuedOption::Workers) {
        Some(value) => worker_count(value.text.as_bytes()).unwrap_or(1),
        None => 1,
    }
}

// Whether the section is printed: it is named, is one of all, or is the one that is printed where none is named.
fn prints(given: &Given<'_>, section: Section) -> bool
    ensures { result ≡ is_printed (given_view given.now) section }
{
    given.is_set(FlagOption::Section(section))
        || (given.is_set(FlagOption::All) && section != Section::Validate)
        || (!names_any(given) && section == Section::Summary)
}

// Whether an option names a section, or all.
#[tactic(auto, unfolding(crate::specs::Asked::names_any))]
fn names_any(given: &Given<'_>) -> bool
    ensures { result ≡ names_any (given_view given.now) }
{
    given.is_set(FlagOption::All) || names_section(given)
}

// Whether an option names a section.
fn names_section(given: &Given<'_>) -> bool
    ensures { result ≡ list_any (names_section (given_view given.now)) sections }
{
    Section::ALL
        .iter()
        .any(|section| given.is_set(FlagOption::Section(*section)))
}
