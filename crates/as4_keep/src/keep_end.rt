//! How kept connections end.

use sessions::Ended;

/// How a connection ended. `served` is the number of requests that were answered in full.
#[derive(Drop)]
pub enum KeepEnd {
    /// The source ended where a request would begin, or the last response closed the connection.
    Closed { served: u64 },
    /// The request after these ended so: it wasn't answered in full, or its response wasn't written whole.
    Broken { served: u64, ended: Ended },
}
