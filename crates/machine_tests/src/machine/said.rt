//! Replies in a short form.

use super::steps::Said;
use as4_values::{ErrorItem, Message, Payload, SignalBody};
use exchange_model::Reply;

/// The reply without its texts.
pub fn summary(reply: &Reply) -> Said {
    match reply {
        Reply::Submitted { number, .. } => Said::Submitted(*number),
        Reply::Ticked { failed } => Said::Ticked(*failed),
        Reply::Push { .. } => Said::Push,
        Reply::Nothing => Said::Nothing,
        Reply::Request { message, .. } => summary_of_request(message),
        Reply::Answer(Message::User { header, .. }) => Said::User(first_digit(header.id.bytes())),
        Reply::Answer(Message::Signal(signal)) => summary_of(&signal.body),
        Reply::Quiet => Said::Quiet,
        Reply::Entry { payloads, .. } => Said::Entry(first_len(payloads.items())),
        Reply::NoEntry => Said::NoEntry,
        Reply::Pending { tries } => Said::Pending(*tries),
        Reply::Receipted => Said::Receipted,
        Reply::Failed => Said::Failed,
        Reply::RefusedWith { .. } => Said::Refused,
        Reply::Unknown => Said::Unknown,
        Reply::Gone => Said::Gone,
        Reply::Confirmed { upto } => Said::Confirmed(*upto),
        Reply::NoMode => Said::NoMode,
        Reply::TooLarge => Said::TooLarge,
        Reply::Full { need, .. } => Said::Full(*need),
        _ => Said::Other,
    }
}

fn summary_of_request(message: &Message) -> Said {
    match message {
        Message::Pair(pair) => match &pair.receipt.ref_to {
            Some(id) => Said::RequestWith(first_digit(id.bytes())),
            None => Said::Other,
        },
        _ => Said::Request,
    }
}

fn first_digit(id: &[u8]) -> u8 {
    match id.first() {
        Some(digit @ b'0'..=b'9') => *digit - b'0',
        _ => 255,
    }
}

fn first_len(payloads: &[Payload]) -> usize {
    payloads
        .first()
        .map_or(0, |payload| payload.content.bytes().len())
}

fn summary_of(body: &SignalBody) -> Said {
    match body {
        SignalBody::Receipt { .. } => Said::Receipt,
        SignalBody::Errors { items } => Said::Error(first_code(items.items())),
        SignalBody::Pull { .. } => Said::Other,
    }
}

fn first_code(items: &[ErrorItem]) -> u16 {
    let Some(item) = items.first() else {
        return 0;
    };
    for code in [1, 3, 6, 10, 302] {
        if item.code.bytes() == code_bytes(code) {
            return code;
        }
    }
    0
}

fn code_bytes(code: u16) -> &'static [u8] {
    match code {
        1 => b"EBMS:0001",
        3 => b"EBMS:0003",
        6 => b"EBMS:0006",
        10 => b"EBMS:0010",
        _ => b"EBMS:0302",
    }
}
