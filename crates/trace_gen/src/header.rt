// The header of a generated file (trace-cmd.dat.v6(5)).

ghost use Rattle.std.specs.Prelude.{◌≡◌, ◌++◌, [], ◌∷◌, IfOk, OnOk, codes};
ghost use Rattle.trace_gen.specs.GeneratedHeader.{format_text, task_line, task_lines, text_of_lines, generated_layout, header_but_parts};

use dat_header::{Body, Header, System};
use itoa::Buffer;
use std::alloc::{AllocError, Global};
use trace_base::{ByteText, Layout, ListOf, Order};

/// The machine's page and the sub-buffer, in bytes.
const PAGE: u32 = 4096;

/// Where the first sub-buffer stands: the header has fewer bytes than a page.
pub(crate) const FRONT_LEN: u64 = 4096;

/// The layout of a file without a header_page text, on a machine with a long of 8 bytes.
pub(crate) fn layout() -> Layout
    ensures { result ≡ generated_layout }
{
    Layout::plain(Order::Little, 8, PAGE)
}

// The text of the one event format.
fn format() -> &'static [u8]
    ensures { result.now ≡ format_text }
{
    b"name: step
ID: 900
format:
\tfield:unsigned short common_type;\toffset:0;\tsize:2;\tsigned:0;
\tfield:unsigned char common_flags;\toffset:2;\tsize:1;\tsigned:0;
\tfield:unsigned char common_preempt_count;\toffset:3;\tsize:1;\tsigned:0;
\tfield:int common_pid;\toffset:4;\tsize:4;\tsigned:1;

\tfield:u32 value;\toffset:8;\tsize:4;\tsigned:0;
\tfield:u32 mask;\toffset:12;\tsize:4;\tsigned:0;

print fmt: \"value=%u mask=%s\", REC->value, __print_flags(REC->mask, \"|\", { 1, \"A\" }, { 2, \"B\" }, { 4, \"C\" })
"
}

// A text without bytes.
fn empty(alloc: Global) -> ByteText
    ensures { result ≡ [] }
{
    ByteText::from_vec(Vec::new(alloc))
}

// The one system, with the one format.
fn systems(alloc: Global) -> Result<ListOf<System>, AllocError>
    ensures { IfOk result (λ systems. systems ≡ record { name = codes "selftest"; formats = format_text ∷ [] } ∷ []) }
{
    let mut formats = Vec::new(alloc);
    formats.push(ByteText::copy(alloc, format())?)?;
    let system = System {
        name: ByteText::copy(alloc, b"selftest")?,
        formats: ListOf::from_vec(formats),
    };
    let mut systems = Vec::new(alloc);
    systems.push(system)?;
    Ok(ListOf::from_vec(systems))
}

// Puts the line of a pid and the name of its task.
fn put_task(text: &mut Vec<u8>, pid: u32) -> Result<(), AllocError>
    ensures { OnOk result (text.new.items ≡ text.old.items ++ (task_line pid ++ codes "\n")) }
{
    let mut digits = Buffer::new();
    let pid = digits.format(pid).as_bytes();
    text.extend_from_slice(pid)?;
    text.extend_from_slice(b" task-")?;
    text.extend_from_slice(pid)?;
    text.extend_from_slice(b"\n")
}

// The saved command lines.
fn tasks(alloc: Global) -> Result<ByteText, AllocError>
    ensures { IfOk result (λ text. text ≡ text_of_lines task_lines) }
{
    let mut text = Vec::new(alloc);
    for pid in 1..100 {
        put_task(&mut text, pid)?;
    }
    Ok(ByteText::from_vec(text))
}

/// The header, but for the table of the processors' parts.
pub(crate) fn header(alloc: Global) -> Result<Header, AllocError>
    ensures { IfOk result (λ header. header ≡ header_but_parts) }
{
    Ok(Header {
        order: Order::Little,
        long: 8,
        page: PAGE,
        layout: layout(),
        page_text: empty(alloc),
        event_text: empty(alloc),
        ftrace: ListOf::from_vec(Vec::new(alloc)),
        systems: systems(alloc)?,
        kallsyms: empty(alloc),
        printk: empty(alloc),
        cmdlines: tasks(alloc)?,
        cpus: 4,
        options: None,
        // The table is written from parts that are known later; see `write_header`.
        body: Body::Latency,
        end: 0,
    })
}
