// The outside in memory. Each object tells its bytes, and fails just where a fault was set for it, a name is missing, or it
// finds no memory.

mod faults;
mod file;
mod folder;
mod gate;
mod sink;

pub use faults::MemFault;
pub use file::MemFile;
pub use folder::MemFolder;
pub use gate::NoGate;
pub use sink::MemSink;
