//! What the node manager stands on: a stream of bytes in, a stream of bytes out, and a disk of blocks.
//!
//! Each is a trait with a count of faults, and a call fails only where that count rose in it. A [`Disk`] is seen as
//! one list of contents per block, the newest last, and as a meter of five numbers. The layer above needs one rule,
//! `IsWithin`: calls that make at most n writes of a disk on which no stop is planned, and which has room for n,
//! meet no more faults than were planned.
//!
//! `specs/Contents.antt` says what a disk holds, what a write and a flush change and what a crash may leave,
//! `specs/Meter.antt` has the meter and `IsWithin`, `specs/Using.antt` the words in which the layers above say what
//! their calls of a disk do, `specs/Pick.antt` how a bench picks what a crash leaves, and `specs/Faults.antt` and
//! `specs/Streams.antt` what counts of faults and streams mean.
#![tactic(auto)]

mod bench;
mod calls;
mod disk;
mod faults;
mod mem_bench;
mod mem_disk;
mod mem_sink;
mod mem_source;
mod plans;
mod sink;
mod source;
mod std_sink;
mod std_source;
mod store;
mod sure_source;

pub use bench::{Bench, CallKind};
pub use disk::{Block, Disk, DiskFault};
pub use faults::ReadFault;
pub use mem_bench::MemBench;
pub use mem_disk::MemDisk;
pub use mem_sink::MemSink;
pub use mem_source::MemSource;
pub use sink::Sink;
pub use source::{Failed, Source};
pub use std_sink::StdSink;
pub use std_source::StdSource;
pub use sure_source::SureSource;
