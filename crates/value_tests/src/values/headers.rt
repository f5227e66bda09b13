//! Copies of headers.
use as4_values::{MessageId, PlainData, UserHeader};
use made_messages::{header, text};
use std::alloc::Global;
use std::test::Fail;

/// A header with this action.
fn header_with(alloc: Global, action: &[u8]) -> Option<UserHeader> {
    let id = MessageId::read(alloc, b"m1@a").ok()?;
    match (header(alloc, id), text(alloc, action)) {
        (Some(mut header), Some(action)) => {
            header.action = action;
            Some(header)
        }
        (header, action) => {
            drop(header);
            drop(action);
            None
        }
    }
}

/// Whether a copy of the header equals it.
fn is_copied(alloc: Global, header: &UserHeader) -> Option<bool> {
    let copy = header.try_clone(alloc).ok()?;
    let is_same = copy.same(header);
    drop(copy);
    Some(is_same)
}

/// Whether a header with this action equals it.
fn is_with_action(alloc: Global, header: &UserHeader, action: &[u8]) -> Option<bool> {
    let other = header_with(alloc, action)?;
    let is_same = other.same(header);
    drop(other);
    Some(is_same)
}

#[test]
fn a_header_is_compared_with_its_copy_and_another(rt: HostRuntime) -> Result<(), Fail> {
    let Some(first) = header_with(rt.alloc(), b"order") else {
        return Err(Fail::new("no header"));
    };
    let copied = is_copied(rt.alloc(), &first);
    let other = is_with_action(rt.alloc(), &first, b"invoice");
    drop(first);
    assert_eq!(rt; copied, Some(true));
    assert_eq!(rt; other, Some(false));
    Ok(())
}
