// What the pieces of a header say, as they are read one after another.

ghost use Rattle.std.specs.Prelude.{◌≡◌};
ghost use Rattle.dat_header.specs.Header.{joined};

use crate::header::{Body, Header, System};
use dat_options::Opt;
use trace_base::{ByteText, Layout, ListOf, Order};

// Of the machine that the file was recorded on.
#[derive(Clone, Copy)]
pub(crate) struct Machine {
    pub(crate) order: Order,
    pub(crate) long: u32,
    pub(crate) page: u32,
}

// The header_page text, with the layout that it gives.
#[derive(Drop)]
pub(crate) struct PageText {
    pub(crate) text: ByteText,
    pub(crate) layout: Layout,
}

// What stands in front of the texts that are carried unread.
#[derive(Drop)]
pub(crate) struct Opening {
    pub(crate) machine: Machine,
    pub(crate) page: PageText,
}

// The texts that are carried unread, up to the command lines.
#[derive(Drop)]
pub(crate) struct Described {
    pub(crate) event_text: ByteText,
    pub(crate) ftrace: ListOf<ByteText>,
    pub(crate) systems: ListOf<System>,
    pub(crate) kallsyms: ByteText,
    pub(crate) printk: ByteText,
}

// All texts that are carried unread.
#[derive(Drop)]
pub(crate) struct Carried {
    pub(crate) described: Described,
    pub(crate) cmdlines: ByteText,
}

// What follows the number of processors.
#[derive(Drop)]
pub(crate) struct Sections {
    pub(crate) options: Option<ListOf<Opt>>,
    pub(crate) body: Body,
}

// What the last section is.
#[derive(Clone, Copy)]
pub(crate) enum LastSection {
    Latency,
    Fly,
}

// The header of these pieces.
pub(crate) fn joined(
    opening: Opening,
    carried: Carried,
    cpus: u32,
    sections: Sections,
    end: u64,
) -> Header
    ensures { result ≡ joined opening carried cpus sections end }
{
    let Opening { machine, page } = opening;
    let Carried {
        described,
        cmdlines,
    } = carried;
    Header {
        order: machine.order,
        long: machine.long,
        page: machine.page,
        layout: page.layout,
        page_text: page.text,
        event_text: described.event_text,
        ftrace: described.ftrace,
        systems: described.systems,
        kallsyms: described.kallsyms,
        printk: described.printk,
        cmdlines,
        cpus,
        options: sections.options,
        body: sections.body,
        end,
    }
}
