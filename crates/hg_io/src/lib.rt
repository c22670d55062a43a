//! The outside of the engine: a source of script bytes, a sink for reply bytes and a device of pages,
//! each a trait, and fakes of the three in memory. It stands on `hg_base`, for the answer for want of
//! memory.
//!
//! The contract used above: a call that fails raises the object's own count of faults by one, and a
//! call that does its work leaves it; a device counts each read and each write that it is asked for;
//! and what an object tells of its contents (a fake tells, a real stream does not) changes only as the
//! call's answer says.
#![tactic(auto)]

mod clean;
mod device;
mod memory;
mod page;
mod stream;

pub use clean::CleanDevice;
pub use device::{MemDevice, PAGE_LIMIT, PageDevice};
pub use memory::{MemSink, MemSource};
pub use page::PAGE_BYTES;
pub use stream::{Failed, Sink, Source};

#[cfg(test)]
mod tests;
