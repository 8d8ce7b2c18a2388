//! Bytes in and out: shelves that files are read from, sinks that bytes are written to, lines, and
//! numbers in texts.
#![tactic(auto)]

mod block;
mod buffer;
pub mod cutting;
pub mod front;
pub mod memory_shelf;
pub mod memory_sink;
pub mod outside;
mod schedule;
pub mod spelling;
pub mod splitting;
pub mod sure;
pub mod transfer;

pub use cutting::{Limits, LineFault, Lines, MOST_FILE_BYTES, MOST_LINE_BYTES, Next};
pub use front::decimal_front;
pub use memory_shelf::MemoryShelf;
pub use memory_sink::MemorySink;
pub use outside::{Failed, Shelf, Sink};
pub use spelling::{Text, read_decimal, read_short_decimal};
pub use splitting::split_field;
pub use sure::{SureShelf, SureSink};
pub use transfer::send;
