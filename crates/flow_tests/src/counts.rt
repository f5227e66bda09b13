//! How streams count their faults.

use as4_flow::{MemorySink, MemorySource, ReaderSource, Sink, Source, WriterSink};
use std::alloc::Global;
use std::io;
use std::io::{Read, Write};

/// The count of a source in memory, of which the second and the third read fail, after each of three.
fn counts_of_source(alloc: Global) -> Option<[u64; 3]> {
    let bytes = b"abc".to_vec(alloc).ok()?;
    let failing = vec![in alloc; 2, 3].ok()?;
    let mut source = MemorySource::of(bytes, Vec::new(alloc), failing);
    let mut room = [0; 1];
    let mut counts = [0; 3];
    for count in counts.iter_mut() {
        let _ = source.read(&mut room);
        *count = source.faults();
    }
    drop(source);
    Some(counts)
}

/// The same of a sink.
fn counts_of_sink(alloc: Global) -> Option<[u64; 3]> {
    let failing = vec![in alloc; 2, 3].ok()?;
    let mut sink = MemorySink::of(alloc, Vec::new(alloc), failing);
    let mut counts = [0; 3];
    for count in counts.iter_mut() {
        let _ = sink.write(b"abc");
        *count = sink.faults();
    }
    drop(sink);
    Some(counts)
}

#[test]
fn a_stream_in_memory_counts_its_faults(rt: HostRuntime) {
    assert_eq!(rt; counts_of_source(rt.alloc()), Some([0, 1, 2]));
    assert_eq!(rt; counts_of_sink(rt.alloc()), Some([0, 1, 2]));
}

/// A stream of which each call fails.
#[derive(Drop)]
struct Broken;

impl Read for Broken {
    fn read(&mut self, buf: &mut [u8]) -> io::Result<usize> {
        if buf.is_empty() {
            Ok(0)
        } else {
            Err(io::Error::other("broken"))
        }
    }
}

impl Write for Broken {
    fn write(&mut self, buf: &[u8]) -> io::Result<usize> {
        if buf.is_empty() {
            Ok(0)
        } else {
            Err(io::Error::other("broken"))
        }
    }

    fn flush(&mut self) -> io::Result<()> {
        Ok(())
    }
}

/// The counts of a source and a sink over such streams, after two calls each.
fn counts_of_broken(alloc: Global) -> Option<(u64, u64)> {
    let mut source = ReaderSource::of(alloc, Broken).ok()?;
    let mut sink = WriterSink::of(Broken);
    let mut room = [0; 1];
    for _ in 0..2 {
        let _ = source.read(&mut room);
        let _ = sink.write(b"abc");
    }
    let counts = (source.faults(), sink.faults());
    drop(source);
    drop(sink);
    Some(counts)
}

#[test]
fn a_stream_of_the_system_counts_its_faults(rt: HostRuntime) {
    assert_eq!(rt; counts_of_broken(rt.alloc()), Some((2, 2)));
}
