// Whole trace files, made section by section from the texts of their headers and the bytes of their processors' sub-buffers.

use std::alloc::{AllocError, Global};

const PAGE: u64 = 4096;

/// Texts, each preceded by its length.
#[derive(Drop)]
struct Texts {
    count: u64,
    bytes: Vec<u8>,
}

impl Texts {
    fn new(alloc: Global) -> Texts {
        Texts {
            count: 0,
            bytes: Vec::new(alloc),
        }
    }

    fn add(&mut self, text: &[u8]) -> Result<(), AllocError> {
        self.count = self.count.saturating_add(1);
        put_long(&mut self.bytes, text.len() as u64)?;
        self.bytes.extend_from_slice(text)
    }
}

/// A trace file in the making: little end first, longs of eight bytes, sub-buffers of 4,096 bytes, and a header_event text
/// without bytes. What is not put in is empty.
#[derive(Drop)]
pub struct TraceFile {
    pub page_text: Vec<u8>,
    pub kallsyms: Vec<u8>,
    pub printk: Vec<u8>,
    pub command_lines: Vec<u8>,
    /// The section of options as it stands, if any.
    pub options: Vec<u8>,
    /// Where the first sub-buffer stands at least.
    pub data_at: u64,
    ftrace: Texts,
    sched: Texts,
    sizes: Vec<u64>,
    pages: Vec<u8>,
}

impl TraceFile {
    /// One of no texts, no options and no processors.
    pub fn new(alloc: Global) -> TraceFile {
        TraceFile {
            page_text: Vec::new(alloc),
            kallsyms: Vec::new(alloc),
            printk: Vec::new(alloc),
            command_lines: Vec::new(alloc),
            options: Vec::new(alloc),
            data_at: 0,
            ftrace: Texts::new(alloc),
            sched: Texts::new(alloc),
            sizes: Vec::new(alloc),
            pages: Vec::new(alloc),
        }
    }

    /// Adds the text of an ftrace format.
    pub fn add_ftrace(&mut self, text: &[u8]) -> Result<(), AllocError> {
        self.ftrace.add(text)
    }

    /// Adds the text of a format of the one system, `sched`, which is left out where there are none.
    pub fn add_sched(&mut self, text: &[u8]) -> Result<(), AllocError> {
        self.sched.add(text)
    }

    /// Adds a processor whose sub-buffers begin with these bytes; zero bytes fill up the last of them.
    pub fn add_processor(&mut self, bytes: &[u8]) -> Result<(), AllocError> {
        let size = whole_pages(bytes.len() as u64);
        let end = (self.pages.len() as u64).saturating_add(size);
        self.sizes.push(size)?;
        self.pages.extend_from_slice(bytes)?;
        self.pages.resize(end as usize, 0)
    }

    // The header up to the number of processors.
    fn put_front(&self, file: &mut Vec<u8>) -> Result<(), AllocError> {
        file.extend_from_slice(b"\x17\x08\x44tracing6\0\0\x08\0\x10\0\0header_page\0")?;
        put_long(file, self.page_text.len() as u64)?;
        file.extend_from_slice(&self.page_text)?;
        file.extend_from_slice(b"header_event\0\0\0\0\0\0\0\0\0")?;
        put_texts(file, &self.ftrace)?;
        put_systems(file, &self.sched)?;
        put_short_text(file, &self.kallsyms)?;
        put_short_text(file, &self.printk)?;
        put_long(file, self.command_lines.len() as u64)?;
        file.extend_from_slice(&self.command_lines)
    }

    // The number of processors, the options, and the table of the processors' parts. Where the first of these begins.
    fn put_table(&self, file: &mut Vec<u8>) -> Result<u64, AllocError> {
        put_short(file, self.sizes.len() as u64)?;
        file.extend_from_slice(&self.options)?;
        file.extend_from_slice(b"flyrecord\0")?;
        let table = (self.sizes.len() as u64).saturating_mul(16);
        let header = (file.len() as u64).saturating_add(table);
        let start = whole_pages(header).max(self.data_at);
        let mut offset = start;
        for size in &self.sizes {
            put_long(file, offset)?;
            put_long(file, *size)?;
            offset = offset.saturating_add(*size);
        }
        Ok(start)
    }

    /// The bytes of the file.
    pub fn bytes(&self, alloc: Global) -> Result<Vec<u8>, AllocError> {
        let mut file = Vec::new(alloc);
        self.put_front(&mut file)?;
        let start = self.put_table(&mut file)?;
        file.resize(start as usize, 0)?;
        file.extend_from_slice(&self.pages)?;
        Ok(file)
    }
}

/// The file of two switches and a function of two processors, with formats, symbols and the names of two tasks.
pub fn switch_file(alloc: Global) -> Result<Vec<u8>, AllocError> {
    let mut trace = TraceFile::new(alloc);
    trace.page_text.extend_from_slice(PAGE_TEXT)?;
    trace.add_ftrace(FUNCTION_FORMAT)?;
    trace.add_sched(SWITCH_FORMAT)?;
    trace.kallsyms.extend_from_slice(SYMBOLS)?;
    trace.command_lines.extend_from_slice(TASKS)?;
    trace.options.extend_from_slice(OPTIONS)?;
    trace.add_processor(FIRST)?;
    trace.add_processor(SECOND)?;
    trace.data_at = 16_384;
    trace.bytes(alloc)
}

/// How long its header is, by a script that writes the same file without this one. From there on up to the first sub-buffer, at
/// byte 16,384, nothing is told.
pub const SWITCH_HEADER: u64 = 2218;

/// Its report.
pub const SWITCH_REPORT: &[u8] = b"cpus=2
            bash-1234  [000]     1.000000: sched_switch:         prev_comm=bash prev_pid=1234 prev_prio=120 prev_state=S ==> next_comm=swapper/0 next_pid=0 next_prio=120
          <idle>-0     [001]     1.000002: sched_switch:         prev_comm=swapper/1 prev_pid=0 prev_prio=120 prev_state=R ==> next_comm=kworker/0:1 next_pid=42 next_prio=120
     kworker/0:1-42    [001]     1.000250: function:              schedule <-- do_idle
";

/// The file of a latency tracer, of one processor, whose text is a word.
pub const LATENCY_FILE: &[u8] =
    b"\x17\x08\x44tracing6\0\0\x08\0\x10\0\0header_page\0\0\0\0\0\0\0\0\0header_event\0\0\0\0\0\0\0\0\0\0\0\0\0\0\0\0\0\0\0\0\0\0\0\0\0\0\0\0\0\0\0\0\0\x01\0\0\0latency  \0hello\n";

/// What a sub-buffer with one event begins with: the event of id 58 and pid 1,234 at one second.
pub const ONE_EVENT: &[u8] =
    b"\x00\xca\x9a\x3b\0\0\0\0\x0c\0\0\0\0\0\0\0\x02\0\0\0\x3a\0\0\0\xd2\x04\0\0";

/// The addresses of two functions.
pub const SYMBOLS: &[u8] = b"ffffffff81000000 T schedule\nffffffff81000100 t do_idle\n";

/// The names of two tasks.
pub const TASKS: &[u8] = b"1234 bash\n42 kworker/0:1\n";

const OPTIONS: &[u8] = b"options  \0\x01\0\x04\0\0\0\0\0\0\0\0\0";

const PAGE_TEXT: &[u8] = b"\tfield: u64 timestamp;\toffset:0;\tsize:8;\tsigned:0;
\tfield: local_t commit;\toffset:8;\tsize:8;\tsigned:1;
\tfield: int overwrite;\toffset:8;\tsize:1;\tsigned:1;
\tfield: char data;\toffset:16;\tsize:4080;\tsigned:1;
";

/// The format of a function's event, of id 1.
pub const FUNCTION_FORMAT: &[u8] = b"name: function
ID: 1
format:
\tfield:unsigned short common_type;\toffset:0;\tsize:2;\tsigned:0;
\tfield:unsigned char common_flags;\toffset:2;\tsize:1;\tsigned:0;
\tfield:unsigned char common_preempt_count;\toffset:3;\tsize:1;\tsigned:0;
\tfield:int common_pid;\toffset:4;\tsize:4;\tsigned:1;

\tfield:unsigned long ip;\toffset:8;\tsize:8;\tsigned:0;
\tfield:unsigned long parent_ip;\toffset:16;\tsize:8;\tsigned:0;

print fmt: \" %ps <-- %ps\", (void *)REC->ip, (void *)REC->parent_ip
";

/// The format of a switch, of id 316.
pub const SWITCH_FORMAT: &[u8] = b"name: sched_switch
ID: 316
format:
\tfield:unsigned short common_type;\toffset:0;\tsize:2;\tsigned:0;
\tfield:unsigned char common_flags;\toffset:2;\tsize:1;\tsigned:0;
\tfield:unsigned char common_preempt_count;\toffset:3;\tsize:1;\tsigned:0;
\tfield:int common_pid;\toffset:4;\tsize:4;\tsigned:1;

\tfield:char prev_comm[16];\toffset:8;\tsize:16;\tsigned:0;
\tfield:pid_t prev_pid;\toffset:24;\tsize:4;\tsigned:1;
\tfield:int prev_prio;\toffset:28;\tsize:4;\tsigned:1;
\tfield:long prev_state;\toffset:32;\tsize:8;\tsigned:1;
\tfield:char next_comm[16];\toffset:40;\tsize:16;\tsigned:0;
\tfield:pid_t next_pid;\toffset:56;\tsize:4;\tsigned:1;
\tfield:int next_prio;\toffset:60;\tsize:4;\tsigned:1;

print fmt: \"prev_comm=%s prev_pid=%d prev_prio=%d prev_state=%s%s ==> next_comm=%s next_pid=%d next_prio=%d\", REC->prev_comm, REC->prev_pid, REC->prev_prio, (REC->prev_state & ((((0x00 | 0x01 | 0x02 | 0x04 | 0x08 | 0x10 | 0x20 | 0x40) + 1) << 1) - 1)) ? __print_flags(REC->prev_state & ((((0x00 | 0x01 | 0x02 | 0x04 | 0x08 | 0x10 | 0x20 | 0x40) + 1) << 1) - 1), \"|\", { 0x01, \"S\" }, { 0x02, \"D\" }, { 0x04, \"T\" }, { 0x08, \"t\" }, { 0x10, \"X\" }, { 0x20, \"Z\" }, { 0x40, \"P\" }, { 0x80, \"I\" }) : \"R\", REC->prev_state & (((0x00 | 0x01 | 0x02 | 0x04 | 0x08 | 0x10 | 0x20 | 0x40) + 1) << 1) ? \"+\" : \"\", REC->next_comm, REC->next_pid, REC->next_prio
";

// A switch of pid 1234 at one second.
const FIRST: &[u8] =
    b"\0\xca\x9a;\0\0\0\0D\0\0\0\0\0\0\0\x10\0\0\0<\x01\0\0\xd2\x04\0\0bash\0\0\0\0\0\0\0\0\0\0\0\0\xd2\x04\0\0x\0\0\0\x01\0\0\0\0\0\0\0swapper/0\0\0\0\0\0\0\0\0\0\0\0x\0\0\0";

// A switch of pid 0 at 1.000001500 seconds, and a function of pid 42, 248,500 nanoseconds later.
const SECOND: &[u8] =
    b"\xdc\xcf\x9a;\0\0\0\0`\0\0\0\0\0\0\0\x10\0\0\0<\x01\0\0\0\0\0\0swapper/1\0\0\0\0\0\0\0\0\0\0\0x\0\0\0\0\0\0\0\0\0\0\0kworker/0:1\0\0\0\0\0*\0\0\0x\0\0\0\x86Vy\0\x01\0\0\0*\0\0\0\x10\0\0\x81\xff\xff\xff\xff \x01\0\x81\xff\xff\xff\xff";

// The next multiple of a sub-buffer's length.
fn whole_pages(len: u64) -> u64 {
    (len.saturating_add(PAGE - 1) / PAGE).saturating_mul(PAGE)
}

fn put_short(file: &mut Vec<u8>, number: u64) -> Result<(), AllocError> {
    file.extend_from_slice(&number.to_le_bytes()[..4])
}

fn put_long(file: &mut Vec<u8>, number: u64) -> Result<(), AllocError> {
    file.extend_from_slice(&number.to_le_bytes())
}

// A text, preceded by its length of four bytes.
fn put_short_text(file: &mut Vec<u8>, text: &[u8]) -> Result<(), AllocError> {
    put_short(file, text.len() as u64)?;
    file.extend_from_slice(text)
}

// Texts, preceded by their number.
fn put_texts(file: &mut Vec<u8>, texts: &Texts) -> Result<(), AllocError> {
    put_short(file, texts.count)?;
    file.extend_from_slice(&texts.bytes)
}

fn put_systems(file: &mut Vec<u8>, sched: &Texts) -> Result<(), AllocError> {
    if sched.count == 0 {
        return put_short(file, 0);
    }
    put_short(file, 1)?;
    file.extend_from_slice(b"sched\0")?;
    put_texts(file, sched)
}
