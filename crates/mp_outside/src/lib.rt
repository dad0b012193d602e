//! The outside of the planner: files, a sink and a gate, as traits, with fakes in memory and
//! adapters to the system.
#![tactic(auto)]

mod calls;
mod held_file;
pub mod laws;
mod mem_files;
mod mem_sink;
mod reading;
mod real_files;
mod real_sink;
mod traits;
mod writing;

pub use mem_files::MemFiles;
pub use mem_sink::MemSink;
pub use reading::{ReadRefusal, read_whole};
pub use real_files::RealFiles;
pub use real_sink::RealSink;
use std::alloc::AllocError;
pub use traits::{Failed, Files, Gate, NoGate, Sink};
pub use writing::{WriteFault, write_all};

/// Want of memory: an allocation was refused.
pub type NoMemory = AllocError;
