//! The edge of the program: folders that files are loaded from, sinks that bytes are put to, and counts of their faults.
#![tactic(auto)]

mod folder;
mod honest;
mod list;
mod memory_folder;
mod memory_sink;
mod real_folder;
mod real_sink;
mod sink;
#[cfg(test)]
mod tests;
mod text;

pub use folder::{Folder, LoadFault, Loaded, Loading};
pub use honest::{HonestFolder, HonestSink};
pub use list::List;
pub use memory_folder::MemoryFolder;
pub use memory_sink::MemorySink;
pub use real_folder::RealFolder;
pub use real_sink::{RealErr, RealOut, RealSink};
pub use sink::{PutFault, Sink, put_all};
pub use text::{Memory, Text};
