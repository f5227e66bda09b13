//! The inbox: messages that were received, confirmed and kept.
ghost use Rattle.std.specs.Prelude.{◌≡◌, IfSome, length};

use as4_values::{MessageId, Octets, Payload, Seq, UserHeader};
use inbox::{Held, Inbox};
use made_messages::{header, octets};
use std::alloc::Global;

/// The header of a message with this identifier.
fn header_of(alloc: Global, id: &[u8]) -> Option<UserHeader> {
    header(alloc, MessageId::read(alloc, id).ok()?)
}

/// An empty payload with this Content-ID.
#[tactic(auto, unfolding(as4_values::specs::Payload::is_media_text))]
fn payload(alloc: Global, name: &MessageId) -> Option<Payload> {
    Some(Payload {
        cid: octets(alloc, name.bytes())?,
        media: Octets::of(Vec::new(alloc)),
        content: Octets::of(Vec::new(alloc)),
    })
}

/// One empty payload.
fn payloads(alloc: Global) -> Option<Seq<Payload>> {
    let name = MessageId::read(alloc, b"p").ok()?;
    let payload = payload(alloc, &name);
    drop(name);
    Some(Seq::of(vec![in alloc; payload?].ok()?))
}

/// An inbox that has received this message, by a record at the gate 64 in a body of 77 bytes. (The values are dropped
/// explicitly: that is proved faster than drops at the end of their scope.)
#[tactic(auto, unfolding(exchange_model::specs::Questions::is_known))]
fn filled(alloc: Global, header: UserHeader, payloads: Seq<Payload>) -> Option<Inbox>
    ensures { IfSome result (λ inbox. (length inbox.entries ≡ 1) × (length inbox.places ≡ 1) × (inbox.confirmed ≡ 0)) }
{
    let mut inbox = Inbox::new(alloc);
    match inbox.reserve(&header.id) {
        Ok(()) => {
            inbox.commit(header, &payloads, 64, 77);
            drop(payloads);
            Some(inbox)
        }
        Err(_) => {
            drop(header);
            drop(payloads);
            drop(inbox);
            None
        }
    }
}

fn one_message(alloc: Global) -> Option<Inbox>
    ensures { IfSome result (λ inbox. (length inbox.entries ≡ 1) × (length inbox.places ≡ 1) × (inbox.confirmed ≡ 0)) }
{
    match (header_of(alloc, b"m1"), payloads(alloc)) {
        (Some(header), Some(payloads)) => filled(alloc, header, payloads),
        (header, payloads) => {
            drop(header);
            drop(payloads);
            None
        }
    }
}

/// Whether a message with this identifier was received.
fn holds(alloc: Global, inbox: &Inbox, id: &[u8]) -> Option<bool> {
    Some(inbox.holds(&MessageId::read(alloc, id).ok()?))
}

/// Where the payloads of the message above are, if it is read.
fn place_of(held: Held<'_>) -> Option<(u64, u64)> {
    match held {
        Held::Entry {
            header,
            gate,
            length,
        } if header.id.bytes() == b"m1".as_slice() => Some((gate, length)),
        _ => None,
    }
}

/// The numbers of messages received and confirmed, where the payloads of the first are, and whether it is gone and is
/// the last.
type Told = (u64, u64, Option<(u64, u64)>, [bool; 2]);

/// The same for an inbox of one message: when it was received, once its payloads were moved to the gate 8, and after
/// its confirmation.
fn told(alloc: Global) -> Option<[Told; 3]> {
    let mut inbox = one_message(alloc)?;
    let before = told_of(&inbox);
    inbox.moved(0, 8);
    let moved = told_of(&inbox);
    inbox.confirm(0);
    let after = told_of(&inbox);
    drop(inbox);
    Some([before, moved, after])
}

fn told_of(inbox: &Inbox) -> Told {
    let place = place_of(inbox.read(0));
    let gone = matches!(inbox.read(0), Held::Gone);
    let last = matches!(inbox.read(1), Held::NoEntry);
    (inbox.len(), inbox.confirmed(), place, [gone, last])
}

#[test]
fn a_message_is_read_until_it_is_taken_over(rt: HostRuntime) {
    let wanted = [
        (1, 0, Some((64, 77)), [false, true]),
        (1, 0, Some((8, 77)), [false, true]),
        (1, 1, None, [true, true]),
    ];
    assert_eq!(rt; told(rt.alloc()), Some(wanted));
}

/// Whether the identifiers `m1` and `m2` are held after `m1` was received, and whether `m1` is held after its
/// confirmation.
fn held_ids(alloc: Global) -> Option<[Option<bool>; 3]> {
    let mut inbox = one_message(alloc)?;
    let one = holds(alloc, &inbox, b"m1");
    let other = holds(alloc, &inbox, b"m2");
    inbox.confirm(0);
    let after = holds(alloc, &inbox, b"m1");
    drop(inbox);
    Some([one, other, after])
}

#[test]
fn an_identifier_is_held_for_good(rt: HostRuntime) {
    assert_eq!(rt;
        held_ids(rt.alloc()),
        Some([Some(true), Some(false), Some(true)])
    );
}

/// Adds a message with this identifier that was received and confirmed, if all received messages are confirmed.
fn keep(inbox: &mut Inbox, header: UserHeader) -> Option<()> {
    if inbox.holds(&header.id) || inbox.confirmed() != inbox.len() {
        drop(header);
        return None;
    }
    match inbox.reserve(&header.id) {
        Ok(()) => {
            inbox.keep(header);
            Some(())
        }
        Err(_) => {
            drop(header);
            None
        }
    }
}

/// Whether the header of this number is that of a message with this identifier.
fn is_headed(inbox: &Inbox, n: u64, id: &[u8]) -> bool {
    matches!(inbox.header(n), Some(header) if header.id.bytes() == id)
}

/// The numbers of messages received and confirmed, whether they have their headers, whether the first is gone, and
/// whether its identifier is held; for an inbox in which two messages are kept.
fn told_of_kept(alloc: Global) -> Option<(u64, u64, [bool; 4], Option<bool>)> {
    let mut inbox = Inbox::new(alloc);
    let kept = keep_two(alloc, &mut inbox);
    let headed = [
        is_headed(&inbox, 0, b"m1"),
        is_headed(&inbox, 1, b"m2"),
        inbox.header(2).is_none(),
        matches!(inbox.read(0), Held::Gone),
    ];
    let told = (
        inbox.len(),
        inbox.confirmed(),
        headed,
        holds(alloc, &inbox, b"m1"),
    );
    drop(inbox);
    kept?;
    Some(told)
}

fn keep_two(alloc: Global, inbox: &mut Inbox) -> Option<()> {
    keep(inbox, header_of(alloc, b"m1")?)?;
    keep(inbox, header_of(alloc, b"m2")?)
}

#[test]
fn one_that_is_kept_was_taken_over(rt: HostRuntime) {
    assert_eq!(rt;
        told_of_kept(rt.alloc()),
        Some((2, 2, [true; 4], Some(true)))
    );
}

/// Whether the header of a message can be read, before and after its confirmation.
fn told_of_header(alloc: Global) -> Option<[bool; 2]> {
    let mut inbox = one_message(alloc)?;
    let before = is_headed(&inbox, 0, b"m1");
    inbox.confirm(0);
    let after = is_headed(&inbox, 0, b"m1");
    drop(inbox);
    Some([before, after])
}

#[test]
fn a_header_stays_once_its_message_is_taken_over(rt: HostRuntime) {
    assert_eq!(rt; told_of_header(rt.alloc()), Some([true; 2]));
}
