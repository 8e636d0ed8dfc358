//! What the program reads its files from and writes its output to.
//!
//! A [`Store`] holds files by name and a [`Sink`] takes bytes. Contracts see what a store holds and
//! what was written to a sink, where the object tells, and the counts of what went wrong, always.
//! The forms in memory tell all, and fail where a test says; the real forms tell nothing.
#![tactic(auto)]

mod beside;
mod bytes;
mod fault;
mod file_store;
mod file_table;
mod limit;
mod mem_sink;
mod mem_store;
mod names;
mod opened;
mod replacing;
mod sink;
mod std_sink;
mod store;
mod sure_sink;
mod sure_store;
mod whole;

pub use fault::{LoadFault, PutFault, SaveFault};
pub use file_store::FileStore;
pub use mem_sink::MemSink;
pub use mem_store::MemStore;
pub use sink::Sink;
pub use std_sink::StdSink;
pub use store::Store;
pub use sure_sink::SureSink;
pub use sure_store::SureStore;
