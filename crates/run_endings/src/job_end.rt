use crate::status::Status;

/// How a job ended, and the file that its message names.
#[derive(Clone, Copy)]
pub struct JobEnd<'a> {
    pub status: Status,
    pub file: &'a str,
}
