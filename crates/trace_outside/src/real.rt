// The outside as std gives it. It tells no content, and counts a fault at each error of the system.

mod file;
mod folder;
mod sink;

pub use file::RealFile;
pub use folder::RealFolder;
pub use sink::{RealOut, RealSink};
