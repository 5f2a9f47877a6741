// How long the columns of a front may be, from the right to the left.

/// The longest decimal number of 64 bits.
pub(crate) const DIGITS: usize = 20;

/// The longest text that may follow the columns.
pub const LONGEST_BEHIND: usize = 40;

/// The colon and the space between the time and what follows it.
const COLON: usize = 2;

/// The longest count of seconds that nanoseconds of 64 bits make.
pub(crate) const SECONDS: usize = 11;

/// The longest time: seconds, a point, and nine digits.
pub(crate) const LONGEST_TIME: usize = SECONDS + 1 + 9;

/// The longest count of microseconds that they make.
pub(crate) const MICROS: usize = 17;

/// The longest duration: microseconds, a point, three digits, and the unit.
pub(crate) const LONGEST_DURATION: usize = MICROS + 1 + 3 + 3;

/// The longest number of a processor, which has 32 bits.
pub(crate) const CPU: usize = 10;

/// The four latency characters, or as many bytes round the processor without them.
const MARKS: usize = 4;

/// The longest processor, with spaces round it.
pub const LONGEST_PROCESSOR: usize = 1 + CPU + MARKS + 1;

/// How wide the pid is at the least.
pub(crate) const PID: usize = 5;

/// The longest pid, which has 32 bits and a sign.
pub(crate) const LONGEST_PID: usize = 11;

/// The dash between the task's name and its pid.
const DASH: usize = 1;

/// The longest name of a task.
pub const LONGEST_TASK: usize = 16;

/// The longest text that may be there before the time is put in front of it.
pub const BEFORE_TIME: usize = LONGEST_BEHIND + COLON;

/// The same before the processor is.
pub const BEFORE_PLACE: usize = BEFORE_TIME + LONGEST_TIME;

/// The same before the pid is.
pub const BEFORE_PID: usize = BEFORE_PLACE + LONGEST_PROCESSOR;

/// The same before the task's name is.
pub(crate) const BEFORE_TASK: usize = BEFORE_PID + LONGEST_PID + DASH;

/// How many bytes are filled with spaces at once.
const STEP: usize = 16;

/// How many bytes there is room for: what may stand there, in whole steps, since all of them are filled for each line.
pub(crate) const ROOM: usize = (BEFORE_TASK + LONGEST_TASK + STEP - 1) / STEP * STEP;

/// How wide the columns of most lines are up to the event's name: the task and its pid, the processor, the time.
pub const USUAL_COLUMNS: usize = 43;

/// How wide the event's name is with its colon, where it is not longer than its column.
pub const USUAL_LABEL: usize = 22;

/// Times before this one have seconds that are not wider than their column, also when they are rounded to microseconds.
pub const USUAL_TIMES: u64 = 99_999_999_999_500;
