//! What a program is given from outside: bytes that come and go, the moment, and numbers that name messages.
#![tactic(auto)]

mod clock;
mod count_nonces;
mod list_clock;
mod memory_sink;
mod memory_source;
mod nonces;
mod reading;
mod sink;
mod source;
mod standard;

pub use clock::Clock;
pub use count_nonces::CountNonces;
pub use list_clock::ListClock;
pub use memory_sink::MemorySink;
pub use memory_source::MemorySource;
pub use nonces::Nonces;
pub use reading::{ReadRefusal, read_all};
pub use sink::{Put, SendFailed, Sink, send_all};
pub use source::{Got, Source};
pub use standard::{ReaderSource, WriterSink};
