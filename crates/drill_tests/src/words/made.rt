//! Sample replies and messages.

ghost use Rattle.std.specs.Prelude.{◌≡◌, IfOk, IfSome, IsTrue, length};
ghost use Rattle.as4_values.specs.SignalParts.{is_pull, is_receipt};

use as4_values::{
    Code, ErrorItem, Message, MessageId, NoMemory, Octets, Pair, Payload, Seq, Severity, Signal,
    SignalBody, StampText, UserHeader, stamp_text,
};
use exchange_model::Reply;
use made_messages::{header, text};
use std::alloc::Global;

fn code(alloc: Global, word: &[u8]) -> Option<Code> {
    Code::read(alloc, word).ok()
}

/// The stamp of the first moment.
fn stamp(alloc: Global) -> Option<StampText> {
    stamp_text(alloc, 0).ok()
}

/// The identifier of the submission 0.
fn id(alloc: Global) -> Option<MessageId> {
    MessageId::of_submission(alloc, 0, 0).ok()
}

fn octets(alloc: Global, bytes: &[u8]) -> Result<Octets, NoMemory>
    ensures { IfOk result (λ octets. octets ≡ bytes.now) }
{
    Ok(Octets::of(Vec::from_slice(alloc, bytes)?))
}

/// A payload of five bytes.
#[tactic(auto, unfolding(as4_values::specs::Payload::is_media_text))]
fn payload(alloc: Global) -> Option<Payload> {
    match (
        octets(alloc, b"p1@a"),
        octets(alloc, b"text/plain"),
        octets(alloc, b"hello"),
    ) {
        (Ok(cid), Ok(media), Ok(content)) => Some(Payload {
            cid,
            media,
            content,
        }),
        (cid, media, content) => {
            drop(cid);
            drop(media);
            drop(content);
            None
        }
    }
}

fn payloads(alloc: Global) -> Option<Seq<Payload>> {
    let payload = payload(alloc)?;
    Some(Seq::of(vec![in alloc; payload].ok()?))
}

/// The header of the submission 0.
fn first_header(alloc: Global) -> Option<UserHeader> {
    header(alloc, id(alloc)?)
}

pub fn submitted(alloc: Global) -> Option<Reply> {
    let id = id(alloc)?;
    Some(Reply::Submitted { number: 0, id })
}

pub fn pushed(alloc: Global) -> Option<Reply> {
    match (text(alloc, b"http://drill/"), first_header(alloc)) {
        (Some(address), Some(header)) => Some(Reply::Push {
            address,
            message: Message::User {
                header,
                payloads: Seq::of(Vec::new(alloc)),
            },
        }),
        (address, header) => {
            drop(address);
            drop(header);
            None
        }
    }
}

/// A pull request for the channel of the mode m.
fn request(alloc: Global) -> Option<Signal>
    ensures { IfSome result (λ signal. IsTrue (is_pull signal.body)) }
{
    match (stamp(alloc), id(alloc), text(alloc, b"drill-m")) {
        (Some(stamp), Some(id), Some(mpc)) => Some(Signal {
            stamp,
            id,
            ref_to: None,
            body: SignalBody::Pull { mpc },
        }),
        (stamp, id, mpc) => {
            drop(stamp);
            drop(id);
            drop(mpc);
            None
        }
    }
}

pub fn requested(alloc: Global) -> Option<Reply> {
    asked(alloc, Message::Signal(request(alloc)?))
}

/// A pull request, bundled with the receipt for the submission 0.
pub fn paired(alloc: Global) -> Option<Reply> {
    match (receipt(alloc), request(alloc)) {
        (Some(receipt), Some(pull)) => asked(alloc, Message::Pair(Pair { receipt, pull })),
        (receipt, pull) => {
            drop(receipt);
            drop(pull);
            None
        }
    }
}

/// A request with this message, to the address of a drill.
fn asked(alloc: Global, message: Message) -> Option<Reply> {
    match text(alloc, b"http://drill/") {
        Some(address) => Some(Reply::Request { address, message }),
        None => {
            drop(message);
            None
        }
    }
}

pub fn entry(alloc: Global) -> Option<Reply> {
    match (first_header(alloc), payloads(alloc)) {
        (Some(header), Some(payloads)) => Some(Reply::Entry { header, payloads }),
        (header, payloads) => {
            drop(header);
            drop(payloads);
            None
        }
    }
}

pub fn refused(alloc: Global) -> Option<Reply> {
    let code = code(alloc, b"EBMS:0010")?;
    Some(Reply::RefusedWith { code })
}

fn signal_id(alloc: Global) -> Option<MessageId> {
    MessageId::of_signal(alloc, 1).ok()
}

/// The receipt for the submission 0.
fn receipt(alloc: Global) -> Option<Signal>
    ensures { IfSome result (λ signal. IsTrue (is_receipt signal.body)) }
{
    match (stamp(alloc), signal_id(alloc), id(alloc)) {
        (Some(stamp), Some(signal), Some(id)) => Some(Signal {
            stamp,
            id: signal,
            ref_to: Some(id),
            body: SignalBody::Receipt { copy: None },
        }),
        (stamp, signal, id) => {
            drop(stamp);
            drop(signal);
            drop(id);
            None
        }
    }
}

/// The same, as a message.
pub fn receipted(alloc: Global) -> Option<Message> {
    Some(Message::Signal(receipt(alloc)?))
}

fn one_item(alloc: Global) -> Option<Seq<ErrorItem>>
    ensures { IfSome result (λ items. length items ≡ 1) }
{
    let item = ErrorItem {
        code: code(alloc, b"EBMS:0006")?,
        severity: Severity::Warning,
        origin: None,
        category: None,
        about: None,
        short: None,
        description: None,
        detail: None,
    };
    Some(Seq::of(vec![in alloc; item].ok()?))
}

/// An error signal with one error.
pub fn error(alloc: Global) -> Option<Message> {
    match (stamp(alloc), id(alloc), one_item(alloc)) {
        (Some(stamp), Some(id), Some(items)) => Some(Message::Signal(Signal {
            stamp,
            id,
            ref_to: None,
            body: SignalBody::Errors { items },
        })),
        (stamp, id, items) => {
            drop(stamp);
            drop(id);
            drop(items);
            None
        }
    }
}
