//! The outside: files that are read and sinks that are written, as traits whose contracts say
//! what each call gives and when it may fail.
//!
//! It depends on `strm_num`, for `NoMemory`. A device tells contracts its bytes, as those over
//! memory do, or doesn't, as those of the host don't. It counts its faults and, of files, its
//! misses: the counts never fall, and a call answers a fault or a miss only where that count
//! rose in the call, or stands at 2^64 - 1, the last value that it can have. Over every device,
//! `load` carries the promise that a file is read whole, and `put_all` that a text is written
//! whole.
#![tactic(auto)]

mod appending;
mod host_files;
mod host_sink;
mod loading;
mod memory_files;
mod memory_sink;
mod reading;
mod writing;

pub use appending::{WriteFault, put_all};
pub use host_files::HostFiles;
pub use host_sink::HostSink;
pub use loading::{LoadFault, load};
pub use memory_files::MemFiles;
pub use memory_sink::MemSink;
pub use reading::{Files, Opened, Piece};
pub use writing::{Put, Sink};

/// How many bytes a memory device gives or takes at most in one call.
const MEMORY_STEP: u64 = 8_192;
