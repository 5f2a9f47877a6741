// Laws of this crate's definitions. Each is the contract of a function that does nothing.

ghost use Rattle.std.specs.Prelude.{Ok, ◌≡◌, ◌≤◌, ◌^◌, ◌∷◌, List, Option, map, ℕ, length};
ghost use Rattle.trace_base.specs.declared.part.Part.{Part};
ghost use Rattle.dat_options.specs.Place.{AreBytes};
ghost use Rattle.dat_header.specs.declared.header.Body.{Body};
ghost use Rattle.dat_header.specs.declared.header.Header.{Header};
ghost use Rattle.dat_header.specs.Header.{header_of};
ghost use Rattle.dat_header.specs.Written.{without_instances};
ghost use Rattle.line_holes.specs.Places.{AreFilled};
ghost use Rattle.subpage.specs.Arrangement.{CpusRise, Keyed};
ghost use Rattle.report_print.specs.ContextData.{ContextData};
ghost use Rattle.trace_args.specs.Command.{SplitData};
ghost use Rattle.split_tool.specs.NewFiles.{ReadBack};
ghost use Rattle.run_words.specs.Job.{Split};
ghost use Rattle.trace_run.specs.Meaning.{header_means};
ghost use Rattle.report_context.specs.Lines.{cpus_line};
ghost use Rattle.file_report.specs.Report.{entry_line, report_pieces};
ghost use Rattle.run_endings.specs.Selection.{Selection, chosen};
ghost use Rattle.split_run.specs.Split.{split_items, taken_of};

/// The processors that a command takes come by rising numbers, which is what the laws of `subpage` on arrangements and on
/// reached items ask for: the items of a report, and those of a split, have exactly one arrangement.
pub fn selection_rises()
    ensures chosen { (selection : Selection) (parts : List Part) → CpusRise (chosen selection parts) }
    ensures taken { (one : Option ℕ) (body : Body) → CpusRise (taken_of one body) }
{}

/// Each new file that a split means to make of a file of at most 2^39 bytes reads back to just its items, processor by
/// processor: the file's header without the options of instances, with a table of its own, zero bytes up to the first
/// sub-buffer, and no more bytes than the parts have. Past that size the numbers of a table are told modulo 2^64.
pub fn split_files_read_back()
    ensures { (words : SplitData) (header : Header) (bytes : List ℕ)
        → AreBytes bytes → header_of bytes ≡ Ok header → length bytes ≤ 2 ^ 39
        → ReadBack (without_instances header) (split_items words header bytes) (header_means (Split words) header bytes).files }
{}

/// The pieces of a report are its first line and the lines of its items, each filled by the time of the last item before it whose
/// line has a hole; and no other pieces are.
pub fn differences_by_places()
    ensures { (cpus : ℕ) (given : ContextData) (items : List Keyed) (lines : List (List ℕ))
        → AreFilled (map (entry_line given) items) lines → cpus_line cpus ∷ lines ≡ report_pieces cpus given items }
{}
