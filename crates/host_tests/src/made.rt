//! Stacks, plans and talks that the tests share.
ghost use Rattle.std.specs.Prelude.{◌<◌, length};

use as4_flow::{Got, Put, Sink, Source};
use as4_host::{Stack, StreamPlan};
use as4_values::{NoMemory, Octets, Seq};
use std::alloc::Global;

pub fn octets(alloc: Global, bytes: &[u8]) -> Option<Octets> {
    Some(Octets::of(bytes.to_vec(alloc).ok()?))
}

/// These texts, the first on top.
pub fn stack(alloc: Global, texts: &[&[u8]]) -> Option<Stack> {
    let mut items = Vec::new(alloc);
    for text in texts {
        items.push(octets(alloc, text)?).ok()?;
    }
    Stack::of(alloc, Seq::of(items)).ok()
}

/// Whether the stack has these texts, the first on top.
pub fn has(mut stack: Stack, texts: &[&[u8]]) -> bool {
    let mut is_same = true;
    for text in texts {
        match stack.pop() {
            Some(item) => {
                is_same = is_same && item.bytes() == *text;
                drop(item);
            }
            None => is_same = false,
        }
    }
    let rest = stack.pop();
    is_same = is_same && rest.is_none();
    drop(rest);
    drop(stack);
    is_same
}

/// Whether these are the texts.
pub fn are(items: &[Octets], texts: &[&[u8]]) -> bool {
    if items.len() != texts.len() {
        return false;
    }
    for (item, text) in items.iter().zip(texts) {
        if item.bytes() != *text {
            return false;
        }
    }
    true
}

/// A plan by which the reads and writes of these numbers fail.
pub fn failing(alloc: Global, reads: u64, writes: u64) -> Option<StreamPlan> {
    let mut plan = StreamPlan::plain(alloc);
    plan.failing_reads.push(reads).ok()?;
    plan.failing_writes.push(writes).ok()?;
    Some(plan)
}

/// What one read of up to eight bytes gives, and what one write of the answer takes.
pub fn talk<S: Source, K: Sink>(source: &mut S, sink: &mut K, answer: &[u8]) -> (Got, [u8; 8], Put)
    requires { 0 < length answer.now }
{
    let mut room = [b'.'; 8];
    let got = source.read(&mut room);
    (got, room, sink.write(answer))
}
