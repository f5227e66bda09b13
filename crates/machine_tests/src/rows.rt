//! Receipts and pull requests that the machine makes.
use as4_codes::{pull_request, receipt};
use as4_values::{PlainData, Signal, SignalBody, Text, UserHeader};
use made_messages::{header_of, text};
use std::alloc::Global;

/// The identifier of a signal with the nonce 1.
const SIGNAL_ID: &[u8] = b"s.00000000-0000-0000-0000-000000000001@as4";

/// The moment of the signals, in milliseconds since 1970-01-01T00:00:00Z, and as a text.
const MOMENT: u64 = 86_400_000;

const MOMENT_TEXT: &[u8] = b"1970-01-02T00:00:00.000Z";

/// Whether the signal was made at that moment, with the nonce 1.
fn is_made(signal: &Signal) -> bool {
    signal.id.bytes() == SIGNAL_ID && signal.stamp.bytes() == MOMENT_TEXT
}

fn is_copy(body: &SignalBody, header: &UserHeader) -> bool {
    matches!(body, SignalBody::Receipt { copy: Some(copy) } if copy.same(header))
}

fn asks_for(body: &SignalBody, channel: &[u8]) -> bool {
    matches!(body, SignalBody::Pull { mpc } if mpc.bytes() == channel)
}

/// Whether the receipt for the message with this header was made at that moment, refers to the message, and copies the
/// header.
fn told_of_receipt(alloc: Global, header: &UserHeader) -> Option<[bool; 3]> {
    let signal = receipt(alloc, header, MOMENT, 1).ok()?;
    let refers = matches!(&signal.ref_to, Some(id) if id.same(&header.id));
    let told = [is_made(&signal), refers, is_copy(&signal.body, header)];
    drop(signal);
    Some(told)
}

fn receipt_of_first(alloc: Global) -> Option<[bool; 3]> {
    let header = header_of(alloc, 0)?;
    let told = told_of_receipt(alloc, &header);
    drop(header);
    told
}

#[test]
fn a_receipt_refers_to_its_message_and_copies_the_header(rt: HostRuntime) {
    assert_eq!(rt; receipt_of_first(rt.alloc()), Some([true; 3]));
}

/// The channel of the pull requests.
const CHANNEL: &[u8] = b"c";

/// Whether the pull request for this channel was made at that moment, refers to no message, and asks for `CHANNEL`.
fn told_of_request(alloc: Global, channel: &Text) -> Option<[bool; 3]> {
    let signal = pull_request(alloc, channel, MOMENT, 1).ok()?;
    let asks = asks_for(&signal.body, CHANNEL);
    let told = [is_made(&signal), signal.ref_to.is_none(), asks];
    drop(signal);
    Some(told)
}

fn request_for_channel(alloc: Global) -> Option<[bool; 3]> {
    let channel = text(alloc, CHANNEL)?;
    let told = told_of_request(alloc, &channel);
    drop(channel);
    told
}

#[test]
fn a_pull_request_names_its_channel(rt: HostRuntime) {
    assert_eq!(rt; request_for_channel(rt.alloc()), Some([true; 3]));
}
