//! What a program asks of its machine: links to other handlers, doors for their guests, files, a clock and numbers.
#![tactic(auto)]

mod counts;
mod door;
mod host;
mod kept_sink;
mod link;
mod memory_door;
mod memory_files;
mod memory_host;
mod memory_link;
mod plan;
mod stack;
mod table;

pub use counts::{a_settled_fault_is_counted, raised};
pub use door::{Arrival, Door};
pub use host::{FileGot, Host, HostRefusal};
pub use kept_sink::KeptSink;
pub use link::{Link, LinkRefusal};
pub use memory_door::MemoryDoor;
pub use memory_host::MemoryHost;
pub use memory_link::MemoryLink;
pub use plan::StreamPlan;
pub use stack::Stack;
