//! The machine as a host: the system's clock, random source, TCP sockets and files.
#![tactic(auto)]

mod clock;
mod counts;
mod door;
mod entrance;
mod files;
mod host;
mod link;
mod nonces;
mod pace;
mod place;
mod shared;
mod stream;

pub use clock::SystemClock;
pub use counts::HostCounts;
pub use door::TcpDoor;
pub use host::SystemHost;
pub use link::TcpLink;
pub use nonces::SystemNonces;
pub use pace::time_left;
pub use place::place_of;
pub use stream::TcpHalf;
