// The line of a call.

ghost use Rattle.std.specs.Prelude.{◌≡◌, ◌≤◌, Some, None, ◌++◌, length, replicate, codes};
ghost use Rattle.std.specs.Option.{option_copied};
ghost use Rattle.trace_base.specs.Kept.{put_held};
ghost use Rattle.trace_base.specs.TailView.{held, lent};
ghost use Rattle.report_print.specs.Ending.{of_held, empty_held};
ghost use Rattle.graph_report.specs.CallText as spec;
ghost use Rattle.graph_report.specs.CallText.{duration_column, indent_text, function_text, entry_word, exit_word, call_text, call_line};

use call_pairs::Call;
use line_columns::Front;
use report_print::{Context, close, prefix, put_loss};
use trace_base::{Tail, write_digits};

/// A row of spaces, as long as the deepest indent.
static SPACES: [u8; 100] = [b' '; 100];

#[inline(always)]
fn spaces() -> &'static [u8]
    ensures value { result.now ≡ replicate 100 32 }
    ensures len { length result.now ≡ 100 }
{
    &SPACES
}

/// Puts so many spaces.
#[inline(always)]
fn put_spaces(count: usize, into: &mut Tail<'_>)
    requires { count ≤ 100 }
    ensures same_slice { lent into.new ≡ lent into.old }
    ensures value { held into.new ≡ put_held (held into.old) (replicate count 32) }
{
    into.put_front(spaces(), count);
}

/// Puts a duration at the right of its column of 12 bytes, and the bar of 3 after it.
fn put_nanos(nanos: u64, into: &mut Tail<'_>)
    ensures same_slice { lent into.new ≡ lent into.old }
    ensures value { held into.new ≡ put_held (held into.old) (duration_column (Some nanos) ++ codes " | ") }
{
    let mut front = Front::new();
    front.prepend_text(b" | ");
    front.prepend_duration(nanos);
    let text = front.as_bytes();
    put_spaces(15_usize.saturating_sub(text.len()), into);
    into.put_piece(text);
}

/// Puts the column of the duration, and the bar.
fn put_duration(duration: Option<u64>, into: &mut Tail<'_>)
    ensures same_slice { lent into.new ≡ lent into.old }
    ensures value { held into.new ≡ put_held (held into.old) (duration_column duration ++ codes " | ") }
{
    match duration {
        Some(nanos) => put_nanos(nanos, into),
        None => into.put(b"             | "),
    }
}

// The duration, the bar and the indent.
#[tactic(auto, using(crate::proofs::Spaces::in_middle))]
fn put_middle(duration: Option<u64>, depth: u32, into: &mut Tail<'_>)
    ensures same_slice { lent into.new ≡ lent into.old }
    ensures value { held into.new ≡ put_held (held into.old) (duration_column duration ++ (codes " | " ++ indent_text depth)) }
{
    put_duration(duration, into);
    put_spaces(2 * depth.min(50) as usize, into);
}

fn put_address(func: u64, into: &mut Tail<'_>)
    ensures same_slice { lent into.new ≡ lent into.old }
    ensures value { held into.new ≡ put_held (held into.old) (function_text func None) }
{
    let mut buffer = [0; 64];
    let start = write_digits(func, false, false, &mut buffer);
    into.put(b"0x");
    into.put(&buffer[start..]);
}

/// Puts a function's name, or its address.
fn put_function(func: u64, name: Option<&[u8]>, into: &mut Tail<'_>)
    ensures same_slice { lent into.new ≡ lent into.old }
    ensures value { held into.new ≡ put_held (held into.old) (function_text func (option_copied name.entry)) }
{
    match name {
        Some(name) => into.put_piece(name),
        None => put_address(func, into),
    }
}

/// The name of the symbol at the greatest address that is at most the function's.
fn name_of(context: &Context, func: u64) -> Option<&[u8]>
    ensures { option_copied result ≡ spec.name_of context.now func }
{
    let (name, _) = context.symbols().name_at(func)?;
    Some(name)
}

/// Puts a function as the file's symbols tell it.
fn put_known(context: &Context, func: u64, into: &mut Tail<'_>)
    ensures same_slice { lent into.new ≡ lent into.old }
    ensures value { held into.new ≡ put_held (held into.old) (function_text func (spec.name_of context.now func)) }
{
    put_function(func, name_of(context, func), into);
}

#[tactic(auto, using(trace_base::proofs::TailJoins::put_held_twice))]
fn put_entry_word(context: &Context, func: u64, duration: Option<u64>, into: &mut Tail<'_>)
    ensures same_slice { lent into.new ≡ lent into.old }
    ensures value { held into.new ≡ put_held (held into.old) (entry_word (function_text func (spec.name_of context.now func)) duration) }
{
    put_known(context, func, into);
    match duration {
        Some(_) => into.put(b"();"),
        None => into.put(b"() {"),
    }
}

// The name is looked up only where it is shown.
#[tactic(auto, using(trace_base::proofs::TailJoins::put_held_twice))]
fn put_exit_word(context: &Context, func: u64, duration: Option<u64>, into: &mut Tail<'_>)
    ensures same_slice { lent into.new ≡ lent into.old }
    ensures value { held into.new ≡ put_held (held into.old) (exit_word (function_text func (spec.name_of context.now func)) duration) }
{
    match duration {
        Some(_) => into.put(b"}"),
        None => {
            into.put(b"} /* ");
            put_known(context, func, into);
            into.put(b" */");
        }
    }
}

fn put_text(context: &Context, call: &Call, into: &mut Tail<'_>)
    ensures same_slice { lent into.new ≡ lent into.old }
    ensures value { held into.new ≡ put_held (held into.old) (call_text context.now call.now) }
{
    match call {
        Call::Entry {
            cpu,
            time,
            common,
            depth,
            func,
            duration,
        } => {
            prefix(context, *cpu, *time, common, into);
            put_middle(*duration, *depth, into);
            put_entry_word(context, *func, *duration, into);
        }
        Call::Exit {
            cpu,
            time,
            common,
            depth,
            leaf: _,
            func,
            duration,
        } => {
            prefix(context, *cpu, *time, common, into);
            put_middle(*duration, *depth, into);
            put_exit_word(context, *func, *duration, into);
        }
        Call::Loss { cpu, count } => put_loss(*cpu, *count, into),
    }
}

/// Whether the call has no line: its entry's line tells all of a leaf.
fn is_silent(call: &Call) -> bool
    ensures { result ≡ spec.is_silent call.now }
{
    matches!(call, Call::Exit { leaf: true, .. })
}

/// Puts the line of a call into an empty tail, and gives its length in bytes with its newline: 0, and nothing is put, for the
/// exit of a leaf.
///
/// A line longer than 65,536 bytes is its first 65,533 bytes and `...`. The tail keeps the first bytes of the line, as many as
/// it has room for. It takes no memory.
#[tactic(auto, unfolding(crate::specs::CallText::call_line))]
pub fn put_line(context: &Context, call: &Call, into: &mut Tail<'_>) -> u32
    requires empty { held into.old ≡ empty_held (held into.old).room }
    ensures same_slice { lent into.new ≡ lent into.old }
    ensures line { held into.new ≡ of_held (held into.old).room (call_line context.now call.now) }
    ensures length { result ≡ length (call_line context.now call.now) }
{
    if is_silent(call) {
        return 0;
    }
    put_text(context, call, into);
    close(into, false)
}
