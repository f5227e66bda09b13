//! A link in memory.
ghost use Rattle.std.specs.Prelude.{◌<◌, length};

use crate::made::{are, failing, has, stack, talk};
use as4_flow::{Got, Put};
use as4_host::{Link, LinkRefusal, MemoryLink, StreamPlan};
use std::alloc::Global;

/// Opens the address, talks and settles. `None` where the open is refused.
fn exchange(link: &mut MemoryLink, address: &str, text: &[u8]) -> Option<(Got, [u8; 8], Put)>
    requires { 0 < length text.now }
{
    let (mut source, mut sink) = link.open(address).ok()?;
    let talked = talk(&mut source, &mut sink, text);
    link.settle(source, sink);
    Some(talked)
}

/// Three talks over a link with one answer, whether it then has their addresses and bytes, and its counts.
fn talks(alloc: Global) -> Option<(bool, bool, (u64, u64, u64))> {
    let answers = stack(alloc, &[b"yes"])?;
    let mut link = MemoryLink::of(alloc, answers, Vec::new(alloc), StreamPlan::plain(alloc));
    let first = exchange(&mut link, "a", b"one");
    let second = exchange(&mut link, "b", b"two");
    let has_talked = first == Some((Got::Gave(3), *b"yes.....", Put::Took(3)))
        && second == Some((Got::End, *b"........", Put::Took(3)));
    let counts = link.counts();
    let was_asked = are(link.addresses(), &[b"a", b"b"]);
    let has_sent = has(link.into_sent(), &[b"two", b"one"]);
    Some((has_talked, was_asked && has_sent, counts))
}

#[test]
fn a_link_gives_its_answers_and_keeps_what_was_sent(rt: HostRuntime) {
    assert_eq!(rt; talks(rt.alloc()), Some((true, true, (0, 0, 0))));
}

/// Whether the first open fails and the second still has the answer, the addresses, and the counts, where the first read
/// and the first write of each pair fail.
fn fails(alloc: Global) -> Option<(bool, bool, (u64, u64, u64))> {
    let answers = stack(alloc, &[b"yes"])?;
    let failing_opens = vec![in alloc; 1].ok()?;
    let mut link = MemoryLink::of(alloc, answers, failing_opens, failing(alloc, 1, 1)?);
    let refused = match link.open("a") {
        Err(refusal) => refusal == LinkRefusal::LinkFailed,
        Ok(pair) => {
            drop(pair);
            false
        }
    };
    let (mut source, mut sink) = link.open("b").ok()?;
    let first = talk(&mut source, &mut sink, b"one");
    let second = talk(&mut source, &mut sink, b"one");
    link.settle(source, sink);
    let has_failed = first == (Got::Failed, *b"........", Put::Failed)
        && second == (Got::Gave(3), *b"yes.....", Put::Took(3));
    let counts = link.counts();
    let was_asked = are(link.addresses(), &[b"a", b"b"]);
    drop(link);
    Some((refused && has_failed, was_asked, counts))
}

#[test]
fn a_failing_open_keeps_the_answer_and_faults_are_counted(rt: HostRuntime) {
    assert_eq!(rt; fails(rt.alloc()), Some((true, true, (1, 1, 1))));
}
