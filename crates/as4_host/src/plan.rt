//! How the streams of a pair in memory move and fail.
ghost use Rattle.std.specs.Prelude.{◌≡◌, IfOk};
ghost use Rattle.as4_flow.specs.InMemory.{new_source, new_sink};

use as4_flow::{MemorySink, MemorySource};
use as4_values::{NoMemory, Octets};
use std::alloc::Global;

/// The sizes of the pieces and the numbers of the failing calls of a pair's source and of its sink.
#[derive(Drop)]
pub struct StreamPlan {
    pub read_pieces: Vec<usize>,
    pub failing_reads: Vec<u64>,
    pub write_pieces: Vec<usize>,
    pub failing_writes: Vec<u64>,
}

impl StreamPlan {
    /// Each call moves as much as it can, and none fails.
    pub fn plain(alloc: Global) -> StreamPlan {
        StreamPlan {
            read_pieces: Vec::new(alloc),
            failing_reads: Vec::new(alloc),
            write_pieces: Vec::new(alloc),
            failing_writes: Vec::new(alloc),
        }
    }

    pub(crate) fn try_copy(&self, alloc: Global) -> Result<StreamPlan, NoMemory> {
        match (
            self.read_pieces.to_vec(alloc),
            self.failing_reads.to_vec(alloc),
            self.write_pieces.to_vec(alloc),
            self.failing_writes.to_vec(alloc),
        ) {
            (Ok(read_pieces), Ok(failing_reads), Ok(write_pieces), Ok(failing_writes)) => {
                Ok(StreamPlan {
                    read_pieces,
                    failing_reads,
                    write_pieces,
                    failing_writes,
                })
            }
            (read_pieces, failing_reads, write_pieces, failing_writes) => {
                drop(read_pieces);
                drop(failing_reads);
                drop(write_pieces);
                drop(failing_writes);
                Err(NoMemory)
            }
        }
    }

    /// A new source of these bytes and a new sink.
    pub(crate) fn pair(self, alloc: Global, bytes: Octets) -> (MemorySource, MemorySink)
        ensures source { result.0 ≡ new_source bytes self.read_pieces.items self.failing_reads.items }
        ensures sink { result.1 ≡ new_sink self.write_pieces.items self.failing_writes.items }
    {
        let StreamPlan {
            read_pieces,
            failing_reads,
            write_pieces,
            failing_writes,
        } = self;
        (
            MemorySource::of(bytes.into_vec(), read_pieces, failing_reads),
            MemorySink::of(alloc, write_pieces, failing_writes),
        )
    }
}
