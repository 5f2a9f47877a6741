//! The front of a line, up to the event's name: the task with its pid, where and when it was.
//!
//! [`Show`] says what is to be shown of a file's items. [`TaskFronts`] is built once, of how lines begin that tell of the tasks
//! whose names were saved. Most lines have columns of the usual widths ([`are_usual`]): [`put_made`] and [`put_unnamed`] put them
//! together at places that are known beforehand. Columns of any widths are written from the right, in a `line_columns::Front`:
//! where and when it was ([`put_when`], [`put_usual_when`]), and the task before it ([`put_with_made_task`],
//! [`put_with_named_task`]). No front takes memory.
#![tactic(auto)]

mod made;
mod places;
mod show;
mod tasks;
mod unnamed;
mod usual;
mod when;
mod with_task;

pub use made::put_made;
pub use show::Show;
pub use tasks::{TaskFronts, TaskStart};
pub use unnamed::put_unnamed;
pub use usual::USUAL_CPUS;
pub use when::{are_usual, put_usual_when, put_when};
pub use with_task::{put_with_made_task, put_with_named_task};
