// What the words ask for, with the filters of a report read.

ghost use Rattle.std.specs.Prelude.{◌≡◌, Ok, map, IfErr, IfOk};
ghost use Rattle.trace_args.specs.Command.{filter_view};
ghost use Rattle.filter_lang.specs.FilterView.{filter_of};
ghost use Rattle.filter_truth.specs.SelectionView.{use_of};
ghost use Rattle.run_words.specs.Allowed.{IsAllowedJob};
ghost use Rattle.run_words.specs.Job.{command_view, job_view};
ghost use Rattle.run_words.specs.Usage.{asked, command_filters, filters_read, job_filters, use_read, uses_in};
ghost use Rattle.run_words.specs.UsageView.{IsFaultOf, ask_fault};
ghost use Rattle.run_words.specs.declared.usage.AskFault.TheVariants.{Memory};

use crate::job::{FileCommand, Job, read_job};
use filter_lang::{Filter, FilterFault, parse_filter};
use filter_truth::FilterUse;
use std::alloc::{AllocError, AllocFailed, Global};
use trace_args::{FilterWord, WordFault, WordKind};
use trace_base::Words;

/// What is wrong with the words: the first fault of a word, or else the first filter that is none.
#[derive(Clone, Copy, Debug, PartialEq, Eq)]
pub enum UsageFault {
    Word(WordFault),
    /// The number of the word, and the place where its filter is refused, in bytes from the filter's first.
    Filter { word: u64, place: u64 },
}

/// Why it is not known what the words ask for.
#[derive(Clone, Copy, Debug, PartialEq, Eq)]
pub enum AskFault {
    Usage(UsageFault),
    Memory,
}

impl From<AllocError> for AskFault {
    ghost from_gives = { λ _ e. e ≡ Memory };

    fn from(_e: AllocError) -> AskFault {
        AskFault::Memory
    }
}

impl<T: Drop> From<AllocFailed<T>> for AskFault {
    ghost from_gives = { λ _ e. e ≡ Memory };

    fn from(_e: AllocFailed<T>) -> AskFault {
        AskFault::Memory
    }
}

/// What the words ask for, and the filters among them. All words are read first, and then each filter in its place.
#[tactic(auto, using(crate::proofs::Usages::all_asked, crate::proofs::Usages::filter_asked, crate::proofs::Usages::word_asked, crate::proofs::Usages::uses_known))]
pub fn ask<'a>(alloc: Global, words: &'a Words) -> Result<(Job<'a>, Vec<FilterUse>), AskFault>
    ensures job { IfOk result (λ found. asked words.now ≡ Ok (job_view found.0)) }
    ensures allowed { IfOk result (λ found. IsAllowedJob (job_view found.0)) }
    ensures filters { IfOk result (λ found. uses_in (job_filters (job_view found.0)) ≡ map use_of found.1.items) }
    ensures fault { IfErr result (λ why. IsFaultOf (asked words.now) why) }
{
    match read_job(alloc, words) {
        Ok(job) => match read_filters(alloc, filters_of(&job)) {
            Ok(filters) => Ok((job, filters)),
            Err(why) => Err(why),
        },
        Err(fault) if fault.kind == WordKind::Memory => Err(AskFault::Memory),
        Err(fault) => Err(AskFault::Usage(UsageFault::Word(fault))),
    }
}

fn filters_of<'a, 'b>(job: &'b Job<'a>) -> &'b [FilterWord<'a>]
    ensures { map filter_view result.now ≡ job_filters (job_view job.now) }
{
    match job {
        Job::OnFile(command) => command_filters(command),
        Job::OnFiles(words) => words.filters.as_slice(),
        Job::SelfTest(_) | Job::Restore(_) | Job::About(_) => &[],
    }
}

fn command_filters<'a, 'b>(command: &'b FileCommand<'a>) -> &'b [FilterWord<'a>]
    ensures { map filter_view result.now ≡ command_filters (command_view command.now) }
{
    match command {
        FileCommand::Report(words) => words.filters.as_slice(),
        FileCommand::Dump(_) | FileCommand::Split(_) => &[],
    }
}

/// All filters, or the first that is none.
pub fn read_filters(alloc: Global, filters: &[FilterWord<'_>]) -> Result<Vec<FilterUse>, AskFault>
    ensures read { IfOk result (λ uses. filters_read (map filter_view filters.now) ≡ Ok (map use_of uses.items)) }
    ensures fault { IfErr result (λ why. IsFaultOf (filters_read (map filter_view filters.now)) why) }
{
    let mut uses = Vec::new(alloc);
    for filter in filters {
        let read = read_filter(alloc, filter)?;
        uses.push(read)?;
    }
    Ok(uses)
}

fn read_filter(alloc: Global, filter: &FilterWord<'_>) -> Result<FilterUse, AskFault>
    ensures read { IfOk result (λ read. use_read (filter_view filter.now) ≡ Ok (use_of read)) }
    ensures fault { IfErr result (λ why. IsFaultOf (use_read (filter_view filter.now)) why) }
{
    match parse_filter(alloc, filter.text.as_bytes()) {
        Ok(parsed) => Ok(use_with(filter.hide, parsed)),
        Err(fault) => Err(ask_fault(filter.word, fault)),
    }
}

fn use_with(hide: bool, filter: Filter) -> FilterUse
    ensures { use_of result ≡ record { hide = hide; filter = filter_of filter } }
{
    FilterUse { hide, filter }
}

// Why it is not known what the words ask for, where the filter of this word has this fault.
fn ask_fault(word: u64, fault: FilterFault) -> AskFault
    ensures { result ≡ ask_fault word fault }
{
    match fault {
        FilterFault::At(place) => AskFault::Usage(UsageFault::Filter { word, place }),
        FilterFault::Memory => AskFault::Memory,
    }
}
