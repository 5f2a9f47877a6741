// How long a header is, modulo 2^64.

ghost use Rattle.std.specs.Prelude.{◌≡◌, ◌%◌, ◌^◌, ◌+◌, length, List};
ghost use Rattle.std.specs.List.{flat_map};
ghost use Rattle.trace_base.specs.declared.order.Order.{Order};
ghost use Rattle.trace_base.specs.declared.part.Part.{Part};
ghost use Rattle.dat_options.specs.Options.{option_text};
ghost use Rattle.dat_header.specs.Allowed.{IsHeader};
ghost use Rattle.dat_header.specs.Items.{sized_texts, system_text};
ghost use Rattle.dat_header.specs.Written.{header_text, section_len, text_before_table};

use crate::header::{Header, System};
use dat_options::Opt;
use trace_base::ByteText;

// What each header has beside its texts, its lists and its table: words, numbers, sizes and counts.
const FIXED: u64 = 97;

// The word in front of the options, and the id that ends them.
const AROUND_OPTIONS: u64 = 12;

// The size in front of a text.
const TEXT_SIZE: u64 = 8;

// The NUL after a system's name, and the number of its formats.
const BEHIND_NAME: u64 = 5;

// The id of an option and its size.
const OPTION_HEAD: u64 = 6;

// The offset of a part and its size.
const PART: u64 = 16;

/// How many bytes `write_header` writes of this header, whatever the parts, modulo 2^64.
pub fn header_len(header: &Header) -> u64
    requires { IsHeader header.now }
    ensures { (parts : List Part) → length parts ≡ header.now.cpus → result ≡ length (header_text header.now parts) % 2 ^ 64 }
{
    let texts = texts_len(header);
    let lists = lists_len(header);
    FIXED
        .wrapping_add(texts)
        .wrapping_add(lists)
        .wrapping_add(PART * header.cpus as u64)
}

/// The same, where the text in front of the table is held.
pub(crate) fn len_with_table(header: &Header, before: &ByteText) -> u64
    requires { before.now ≡ text_before_table header.now }
    ensures { (parts : List Part) → length parts ≡ header.now.cpus → result ≡ length (header_text header.now parts) % 2 ^ 64 }
{
    let len = before.as_bytes().len() as u64;
    len.wrapping_add(PART * header.cpus as u64)
}

// The texts that stand alone, without their sizes.
fn texts_len(header: &Header) -> u64
    ensures { result ≡ (length header.now.page_text + length header.now.event_text + length header.now.kallsyms + length header.now.printk + length header.now.cmdlines) % 2 ^ 64 }
{
    let page = header.page_text.as_bytes().len() as u64;
    let event = header.event_text.as_bytes().len() as u64;
    let kallsyms = header.kallsyms.as_bytes().len() as u64;
    let printk = header.printk.as_bytes().len() as u64;
    let cmdlines = header.cmdlines.as_bytes().len() as u64;
    page.wrapping_add(event)
        .wrapping_add(kallsyms)
        .wrapping_add(printk)
        .wrapping_add(cmdlines)
}

// The formats, the systems and the section of options, without their numbers.
fn lists_len(header: &Header) -> u64
    ensures { (order : Order) → result ≡ (length (sized_texts order header.now.ftrace) + length (flat_map (system_text order) header.now.systems) + section_len order header.now.options) % 2 ^ 64 }
{
    let options = match &header.options {
        Some(options) => options_len(options.as_slice()).wrapping_add(AROUND_OPTIONS),
        None => 0,
    };
    formats_len(header.ftrace.as_slice())
        .wrapping_add(systems_len(header.systems.as_slice()))
        .wrapping_add(options)
}

fn formats_len(texts: &[ByteText]) -> u64
    ensures { (order : Order) → result ≡ length (sized_texts order texts.now) % 2 ^ 64 }
{
    let mut total = 0u64;
    for content in texts {
        let size = content.as_bytes().len() as u64;
        total = total.wrapping_add(TEXT_SIZE).wrapping_add(size);
    }
    total
}

fn systems_len(systems: &[System]) -> u64
    ensures { (order : Order) → result ≡ length (flat_map (system_text order) systems.now) % 2 ^ 64 }
{
    let mut total = 0u64;
    for system in systems {
        let name = system.name.as_bytes().len() as u64;
        let formats = formats_len(system.formats.as_slice());
        total = total
            .wrapping_add(name)
            .wrapping_add(BEHIND_NAME)
            .wrapping_add(formats);
    }
    total
}

fn options_len(options: &[Opt]) -> u64
    ensures { (order : Order) → result ≡ length (flat_map (option_text order) options.now) % 2 ^ 64 }
{
    let mut total = 0u64;
    for option in options {
        let size = option.bytes.as_bytes().len() as u64;
        total = total.wrapping_add(OPTION_HEAD).wrapping_add(size);
    }
    total
}
