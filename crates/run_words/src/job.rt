// What the words of a command line ask a run for, by what it works on.

ghost use Rattle.std.specs.Prelude.{◌≡◌, IfOk};
ghost use Rattle.trace_args.specs.Command.{report_view};
ghost use Rattle.run_words.specs.Allowed.{IsAllowedJob};
ghost use Rattle.run_words.specs.Job.{IsJob, job_view, report_job};

use std::alloc::Global;
use trace_args::{
    Command, DumpWords, ReportWords, RestoreWords, SelfWords, SplitWords, Topic, WordFault,
    read_words,
};
use trace_base::Words;

/// A command on one file.
#[derive(Drop)]
pub enum FileCommand<'a> {
    Report(ReportWords<'a>),
    Dump(DumpWords<'a>),
    Split(SplitWords<'a>),
}

#[derive(Drop)]
pub enum Job<'a> {
    /// A command on one file.
    OnFile(FileCommand<'a>),
    /// A report of several files.
    OnFiles(ReportWords<'a>),
    /// A self-test, which works on no file.
    SelfTest(SelfWords),
    /// A restore, which works on a partial file and on data files.
    Restore(RestoreWords<'a>),
    /// What the program tells of itself.
    About(Topic),
}

/// Reads the words into the job that they ask for.
///
/// # Errors
/// The words' first fault. Only `WordKind::Memory`, at word 1, may stand in place of any answer.
#[tactic(auto, using(crate::proofs::Jobs::report_asked, crate::proofs::Jobs::dump_asked, crate::proofs::Jobs::self_test_asked, crate::proofs::Jobs::split_asked, crate::proofs::Jobs::restore_asked, crate::proofs::Jobs::about_asked, crate::proofs::Jobs::none_asked))]
pub(crate) fn read_job<'a>(alloc: Global, words: &'a Words) -> Result<Job<'a>, WordFault>
    ensures job { IsJob words.now result }
    ensures allowed { IfOk result (λ job. IsAllowedJob (job_view job)) }
{
    match read_words(alloc, words) {
        Ok(Command::Report(report)) => Ok(report_job(report)),
        Ok(Command::Dump(dump)) => Ok(Job::OnFile(FileCommand::Dump(dump))),
        Ok(Command::Split(split)) => Ok(Job::OnFile(FileCommand::Split(split))),
        Ok(Command::SelfTest(words)) => Ok(Job::SelfTest(words)),
        Ok(Command::Restore(words)) => Ok(Job::Restore(words)),
        Ok(Command::About(topic)) => Ok(Job::About(topic)),
        Err(fault) => Err(fault),
    }
}

// A report, by whether it is of several files.
fn report_job<'a>(report: ReportWords<'a>) -> Job<'a>
    ensures { job_view result ≡ report_job (report_view report.entry) }
{
    if report.more.is_empty() {
        Job::OnFile(FileCommand::Report(report))
    } else {
        Job::OnFiles(report)
    }
}
