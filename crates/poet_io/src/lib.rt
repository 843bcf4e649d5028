//! Bytes in and out, as traits that count the faults of what lies behind them: sources that are
//! read, sinks that are written to and folders whose files are opened. Each is there in memory, for
//! tests, and over the system.
#![tactic(auto)]

mod bytes;
mod failed;
mod files;
mod host_file;
mod host_folder;
mod host_out;
mod mem_file;
mod mem_folder;
mod mem_sink;
mod mem_source;
mod never_sink;
mod reading;
mod sink;
mod source;
mod uses;
mod writing;

pub use bytes::Bytes;
pub use failed::Failed;
pub use files::{Files, OpenError};
pub use host_file::HostFile;
pub use host_folder::HostFolder;
pub use host_out::HostOut;
pub use mem_file::MemFile;
pub use mem_folder::MemFolder;
pub use mem_sink::MemSink;
pub use mem_source::MemSource;
pub use never_sink::NeverSink;
pub use reading::{ReadAllError, read_all};
pub use sink::Sink;
pub use source::Source;
pub use uses::Use;
pub use writing::put;
