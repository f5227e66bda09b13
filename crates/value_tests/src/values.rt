//! Texts, words, stamps and identifiers, and copies of values.
ghost use Rattle.std.specs.Prelude.{◌≡◌, IfSome};

mod headers;
mod stamps;
mod texts;
mod words;

use as4_values::{Load, MessageId, NoMemory, Octets, Payload, PlainData};
use std::alloc::{AllocError, Global};

/// These bytes, then this many letters, and then those bytes.
fn letters(alloc: Global, front: &[u8], count: usize, back: &[u8]) -> Result<Vec<u8>, AllocError> {
    let letters = vec![in alloc; b'a'; count]?;
    [front, letters.as_slice(), back].concat(alloc)
}

/// Whether the identifier was made and has these bytes.
fn is_made(made: Result<MessageId, NoMemory>, bytes: &[u8]) -> bool {
    match made {
        Ok(id) => {
            let is_same = id.bytes() == bytes;
            drop(id);
            is_same
        }
        Err(_) => false,
    }
}

#[test]
fn identifiers_are_made_from_numbers(rt: HostRuntime) {
    let signal = MessageId::of_signal(rt.alloc(), 1);
    assert!(rt; is_made(signal, b"s.00000000-0000-0000-0000-000000000001@as4"));
    let submission = MessageId::of_submission(rt.alloc(), 7, 1);
    assert!(rt; is_made(submission, b"7.00000000-0000-0000-0000-000000000001@as4"));
}

/// Whether the value was made and a copy of it equals it.
fn is_copied<T: PlainData + Drop>(alloc: Global, made: Option<T>) -> Option<bool> {
    let value = made?;
    match value.try_clone(alloc) {
        Ok(copy) => {
            let is_same = copy.same(&value);
            drop(copy);
            drop(value);
            Some(is_same)
        }
        Err(_) => {
            drop(value);
            None
        }
    }
}

fn octets(alloc: Global, bytes: &[u8]) -> Option<Octets>
    ensures { IfSome result (λ octets. octets ≡ bytes.now) }
{
    match Vec::from_slice(alloc, bytes) {
        Ok(items) => Some(Octets::of(items)),
        Err(_) => None,
    }
}

#[tactic(auto, unfolding(as4_values::specs::Payload::is_media_text))]
fn payload(alloc: Global) -> Option<Payload> {
    match (
        octets(alloc, b"p1@a"),
        octets(alloc, b"text/plain"),
        octets(alloc, b"order 1"),
    ) {
        (Some(cid), Some(media), Some(content)) => Some(Payload {
            cid,
            media,
            content,
        }),
        (cid, media, content) => {
            drop(cid);
            drop(media);
            drop(content);
            None
        }
    }
}

#[test]
fn a_copy_of_a_payload_is_the_same(rt: HostRuntime) {
    assert_eq!(rt; is_copied(rt.alloc(), payload(rt.alloc())), Some(true));
}

fn load(alloc: Global) -> Option<Load> {
    let media = octets(alloc, b"text/plain")?;
    let content = octets(alloc, b"order 1")?;
    Some(Load { media, content })
}

#[test]
fn a_copy_of_a_load_is_the_same(rt: HostRuntime) {
    assert_eq!(rt; is_copied(rt.alloc(), load(rt.alloc())), Some(true));
}
