//! Where bytes come from and go to, the faults of the outside, which are counted, and the gate of a worker's frames.
//!
//! | Item | What it is |
//! |---|---|
//! | [`Source`], [`Sink`] | what gives bytes, and what takes them, each with a count of its faults |
//! | [`put_all`] | all bytes into a sink |
//! | [`MemorySource`], [`MemorySink`] | both in memory, failing where they are told to |
//! | [`StdSource`], [`StdSink`] | both over std's streams |
//! | [`Faults`], [`Failing`] | a count of faults, and the calls of an object in memory that are to fail |
//! | [`Gate`], [`OpenGate`] | what sees each frame that a worker sends, and one that does nothing |
//! | [`Memory`], [`Failed`], [`WriteFault`] | memory ran out, a failed call of the outside, bytes not put |
//!
//! A source or a sink has a written meaning: the bytes that are left or written, where the implementation
//! tells them, and a count of faults that never falls. A call fails only where the count rises in it, or
//! stands at 2^64 - 1 after it. So a caller that hands in a source knows that a fault of reading comes from
//! that source, and not from the code between.
#![tactic(auto)]

mod failing;
mod fault_count;
mod faults;
mod gate;
mod memory_sink;
mod memory_source;
mod put;
mod sink;
mod source;
mod std_sink;
mod std_source;

pub use failing::Failing;
pub use fault_count::Faults;
pub use faults::{Failed, Memory, WriteFault};
pub use gate::{Gate, OpenGate};
pub use memory_sink::MemorySink;
pub use memory_source::MemorySource;
pub use put::put_all;
pub use sink::Sink;
pub use source::Source;
pub use std_sink::StdSink;
pub use std_source::StdSource;
