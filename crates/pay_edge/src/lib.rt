//! The edge of the product: where files come from and go to, and where text is put.
//!
//! `Depot` is a place of files by name, and `Sink` takes bytes in order. What each call does is stated over what the
//! depot or the sink means: the files or the text, where these are told, and counts of faults, which never fall.
//! `MemoryDepot` and `MemorySink` tell all and fail where they are asked to. `FileDepot` and `StreamSink` are over the
//! files and streams of the system, and tell no content. `read_whole` reads a file of any depot, up to a limit.
#![tactic(auto)]

mod depot;
mod failures;
mod file_depot;
mod memory_depot;
mod memory_sink;
mod sink;
mod stream_sink;
mod whole;

pub use depot::{Depot, FetchFault, NoMemory, ReplaceFault};
pub use file_depot::FileDepot;
pub use memory_depot::MemoryDepot;
pub use memory_sink::MemorySink;
pub use sink::{Failed, Sink};
pub use stream_sink::StreamSink;
pub use whole::{WholeFault, read_whole};
