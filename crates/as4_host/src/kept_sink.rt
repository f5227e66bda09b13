//! A sink in memory whose bytes are kept once it is settled.
ghost use Rattle.std.specs.Prelude.{Some};

use crate::stack::Stack;
use as4_flow::{MemorySink, Put, Sink};

/// A sink that a link or a door in memory opened, with the room that its bytes need once it is settled.
#[derive(Drop)]
pub struct KeptSink {
    pub(crate) sink: MemorySink,
    pub(crate) room: Box<Stack>,
}

impl Sink for KeptSink {
    ghost taken = { λ s. Some s.sink.bytes };

    ghost faults = { λ s. s.sink.faults };

    fn write(&mut self, piece: &[u8]) -> Put {
        self.sink.write(piece)
    }
}
