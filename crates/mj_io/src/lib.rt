//! The outside: cabinets that files are read from, sinks that bytes are written to, and the counts of
//! their faults.
#![tactic(auto)]

pub mod cabinet;
mod count;
mod files;
pub mod mem_cabinet;
pub mod mem_sink;
pub mod page;
pub mod room_sink;
pub mod sink;
pub mod stream;
pub mod sure_cabinet;
pub mod system;

pub use cabinet::{Cabinet, CabinetFault};
pub use mem_cabinet::MemCabinet;
pub use mem_sink::MemSink;
pub use page::{
    PAGE_SIZE, Page, finish, flush, send, send_signed, send_size, send_unsigned, send_wide,
};
pub use room_sink::RoomSink;
pub use sink::{Failed, Sink, put};
pub use sure_cabinet::SureCabinet;
pub use system::{FileCabinet, OutSink};

/// Memory was wanted and not found.
#[derive(Clone, Copy, Debug, PartialEq, Eq)]
pub struct NoMemory;
