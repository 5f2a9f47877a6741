// A split: its memory is taken, each processor that it takes has a lane, and the new files are made.

ghost use Rattle.std.specs.Option.{option_map};
ghost use Rattle.std.specs.Prelude.{Ok, ◌≡◌, ◌≤◌, IfOk, length};
ghost use Rattle.trace_outside.specs.Causes.{Rose, raised};
ghost use Rattle.dat_header.specs.Allowed.{IsHeader};
ghost use Rattle.dat_header.specs.Header.{ReadsHeader};
ghost use Rattle.trace_args.specs.Command.{split_view};
ghost use Rattle.new_files.specs.Stored.{KeepsCounts};
ghost use Rattle.run_words.specs.Allowed.{IsAllowedSplit};
ghost use Rattle.split_tool.specs.Numbered.{first_names};
ghost use Rattle.run_endings.specs.Ending.{IfNoMemory, MakesFiles};
ghost use Rattle.run_endings.specs.Requested.{AsksFor};
ghost use Rattle.split_run.specs.Leaves.{LeavesFolder};
ghost use Rattle.run_endings.specs.Outside.{folder_seen};
ghost use Rattle.split_run.specs.Split.{rules_of, split_by, split_share, taken_of};

use dat_header::{Body, Header};
use run_endings::{Selection, Status, status_of_end};
use split_pieces::Rules;
use split_tool::{SplitPlan, SplitWork, lists_over, split};
use std::alloc::{AllocError, Global};
use trace_args::SplitWords;
use trace_base::Part;
use trace_outside::Folder;

/// Cuts a file with this header into new files of the folder. Nothing is created before all memory is there.
pub fn cut_file<F: Folder>(
    alloc: Global,
    words: &SplitWords<'_>,
    header: Header,
    file: &mut F::In,
    folder: &mut F,
) -> Status
    requires words { IsAllowedSplit (split_view words.now) }
    requires allowed { IsHeader header }
    requires read { ReadsHeader (F.In.bytes file.old) (Ok header) }
    ensures makes { MakesFiles (Rose (F.In.faults file.old) (F.In.faults file.new))
        (option_map (split_by (split_view words.now) header) (F.In.bytes file.old)) result
        (folder_seen F.Folder folder.old) (folder_seen F.Folder folder.new) }
    ensures kept { IfNoMemory result (F.In.faults file.new ≡ F.In.faults file.old) }
    ensures leaves { LeavesFolder words.now.base.now result (folder_seen F.Folder folder.old) (folder_seen F.Folder folder.new) }
    ensures requested { AsksFor (first_names words.now.base.now)
        (option_map (split_by (split_view words.now) header) (F.In.bytes file.old)) (F.requested folder.old) (F.requested folder.new) }
    ensures counts { KeepsCounts (F.counts folder.old) (F.counts folder.new) }
    ensures reads { F.In.reads file.new ≤ raised (F.In.reads file.old) (split_share words.now.cpu header.body) }
{
    let mut header = header;
    let Ok(parts) = take(alloc, words.cpu, &header) else {
        return Status::NoMemory;
    };
    header.drop_instances();
    let rules = rules_of(words);
    let (Ok(mut lists), Ok(mut work)) = (
        lists_over(alloc, &rules, &header, &parts),
        SplitWork::new(alloc, &header),
    ) else {
        return Status::NoMemory;
    };
    let plan = SplitPlan {
        header: &header,
        rules,
        base: words.base,
    };
    status_of_end(split(&plan, file, lists.as_mut_slice(), &mut work, folder))
}

// How the words cut a trace.
fn rules_of(words: &SplitWords<'_>) -> Rules
    ensures { result ≡ rules_of (split_view words.now) }
{
    Rules {
        unit: words.unit,
        repeat: words.repeat,
        per_cpu: words.per_cpu,
        start: words.start,
        stop: words.stop,
    }
}

// The processors that a split takes, with their numbers.
fn take(alloc: Global, one: Option<u32>, header: &Header) -> Result<Vec<(u32, Part)>, AllocError>
    requires { IsHeader header.now }
    ensures taken { IfOk result (λ parts. parts.items ≡ taken_of one header.now.body) }
    ensures few { IfOk result (λ parts. length parts.items ≤ 1024) }
{
    match &header.body {
        Body::Latency => Ok(Vec::new(alloc)),
        Body::Fly(parts) => Selection::one_or_all(one).chosen(alloc, parts.as_slice()),
    }
}
