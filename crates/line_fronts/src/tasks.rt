// The fronts of lines as far as they tell the task, made once.

ghost use Rattle.std.specs.Prelude.{◌≡◌, ◌≤◌, List, IfOk, IfSome};
ghost use Rattle.symbols.specs.NameMap.{Pair};
ghost use Rattle.line_fronts.specs.declared.show.Show.{Show};
ghost use Rattle.line_fronts.specs.Tasks.{task_front, task_width, AreFronts, AreTaskFronts, IsFront, IsStart};

use crate::show::Show;
use line_columns::{Front, LONGEST_TASK};
use std::alloc::{AllocError, Global};
use symbols::Symbols;
use trace_base::ByteText;

/// How long a task's name is with its dash and its pid, where neither is wider than its column.
pub(crate) const USUAL_TASK: usize = 22;

/// How long it is at the most, where the name is not wider than its column.
pub(crate) const WIDE_TASK: usize = 27;

/// A task, and how a line begins that tells of it.
#[derive(Drop)]
pub(crate) struct TaskFront {
    pid: i32,
    text: ByteText,
}

/// What is known beforehand of how a line begins that tells of a task.
#[derive(Clone, Copy)]
pub enum TaskStart<'a> {
    /// This text.
    Made(&'a [u8]),
    /// The task has no name.
    Unnamed,
    /// Nothing.
    Unknown,
}

/// How lines begin that tell of the tasks whose names were saved, in their order, and of the idle task, which stands after
/// them. A task that is not there is told as any other.
#[derive(Drop)]
pub struct TaskFronts {
    fronts: Vec<Option<TaskFront>>,
}

/// How wide the column of a task's name is.
pub(crate) fn task_width(show: &Show) -> usize
    ensures value { result ≡ task_width show.now }
    ensures narrow { result ≤ 16 }
{
    if show.line.latency { 8 } else { 16 }
}

impl TaskFront {
    /// The front of a task, if its name is not wider than its column.
    fn of(
        alloc: Global,
        show: &Show,
        symbols: &Symbols,
        pid: i32,
    ) -> Result<Option<TaskFront>, AllocError>
        ensures { IfOk result (λ front. IsFront show.now symbols.now.tasks front) }
    {
        let name = symbols.comm_of(pid);
        if name.len() > LONGEST_TASK {
            return Ok(None);
        }
        let mut front = Front::new();
        front.prepend_pid(pid);
        front.prepend_byte(b'-');
        front.prepend_task(task_width(show), name);
        Ok(Some(TaskFront::from_text(alloc, pid, front.as_bytes())?))
    }

    fn from_text(alloc: Global, pid: i32, bytes: &[u8]) -> Result<TaskFront, AllocError>
        ensures { IfOk result (λ front. (front.pid ≡ pid) × (front.text ≡ bytes.now)) }
    {
        let text = ByteText::copy(alloc, bytes)?;
        Ok(TaskFront { pid, text })
    }
}

/// The front of a task whose pid was saved as this number.
fn front_by(
    alloc: Global,
    show: &Show,
    symbols: &Symbols,
    number: u64,
) -> Result<Option<TaskFront>, AllocError>
    ensures { IfOk result (λ front. IsFront show.now symbols.now.tasks front) }
{
    match i32::try_from(number) {
        Ok(pid) => TaskFront::of(alloc, show, symbols, pid),
        Err(_) => Ok(None),
    }
}

/// The front of the task at this place.
fn nth_front(
    alloc: Global,
    show: &Show,
    symbols: &Symbols,
    place: usize,
) -> Result<Option<TaskFront>, AllocError>
    ensures { IfOk result (λ front. IsFront show.now symbols.now.tasks front) }
{
    match symbols.task_at(place) {
        Some((number, _)) => front_by(alloc, show, symbols, number),
        None => Ok(None),
    }
}

/// The fronts of the tasks whose names were saved, with room for one more.
fn saved_fronts(
    alloc: Global,
    show: &Show,
    symbols: &Symbols,
) -> Result<Vec<Option<TaskFront>>, AllocError>
    ensures { IfOk result (λ fronts. AreFronts show.now symbols.now.tasks fronts.items) }
{
    let mut fronts = Vec::with_capacity(alloc, symbols.task_count().saturating_add(1))?;
    for place in 0..symbols.task_count() {
        fronts.push(nth_front(alloc, show, symbols, place)?)?;
    }
    Ok(fronts)
}

impl TaskFronts {
    /// The fronts of the tasks whose names were saved, and of the idle task.
    pub fn build(alloc: Global, show: &Show, symbols: &Symbols) -> Result<TaskFronts, AllocError>
        ensures { IfOk result (λ tasks. AreTaskFronts show.now symbols.now.tasks tasks) }
    {
        let mut fronts = saved_fronts(alloc, show, symbols)?;
        // The idle task is in most files, and its name is saved in none.
        fronts.push(TaskFront::of(alloc, show, symbols, 0)?)?;
        Ok(TaskFronts { fronts })
    }

    /// How a line begins that tells of this task, as far as it is known.
    #[inline(always)]
    pub fn start(&self, symbols: &Symbols, pid: i32) -> TaskStart<'_>
        ensures { (show : Show) → AreTaskFronts show symbols.now.tasks self.now → IsStart show symbols.now.tasks pid result }
    {
        match symbols.task_place(pid) {
            Some(place) => self.made(place, pid),
            None => TaskStart::Unnamed,
        }
    }

    /// How it begins by the text at this place, if that is of this task.
    #[inline(always)]
    fn made(&self, place: usize, pid: i32) -> TaskStart<'_>
        ensures { (show : Show) (names : List Pair) → AreFronts show names self.now.fronts.items → IsStart show names pid result }
    {
        match self.text_at(place, pid) {
            Some(text) => TaskStart::Made(text),
            None => TaskStart::Unknown,
        }
    }

    /// The text at this place, if it is that of this task.
    #[inline(always)]
    fn text_at(&self, place: usize, pid: i32) -> Option<&[u8]>
        ensures { (show : Show) (names : List Pair) → AreFronts show names self.now.fronts.items
            → IfSome result (λ text. text.now ≡ task_front show names pid) }
    {
        let Some(front) = self.fronts.get(place)? else {
            return None;
        };
        if front.pid == pid {
            Some(front.text.as_bytes())
        } else {
            None
        }
    }
}
