//! Replies in short.
use crate::parcels::held;
use crate::steps::Said;
use as4_values::{Message, Signal, SignalBody};
use exchange_model::Reply;
use office::OfficeFault;
use std::alloc::Global;

/// What an office answered.
pub(crate) fn told(answer: Result<Reply, OfficeFault>) -> Said {
    match answer {
        Ok(reply) => {
            let said = summary(&reply);
            drop(reply);
            said
        }
        Err(fault) => Said::Fault(fault),
    }
}

/// The same, but names the message that was read.
pub(crate) fn unpacked(alloc: Global, answer: Result<Reply, OfficeFault>) -> Said {
    match answer {
        Ok(reply) => {
            let said = contents(alloc, &reply);
            drop(reply);
            said
        }
        Err(fault) => Said::Fault(fault),
    }
}

fn contents(alloc: Global, reply: &Reply) -> Said {
    match reply {
        Reply::Entry { header, payloads } => held(alloc, header, payloads),
        _ => summary(reply),
    }
}

/// What a reply says.
pub(crate) fn summary(reply: &Reply) -> Said {
    match reply {
        Reply::Ticked { failed } => Said::Ticked(*failed),
        Reply::Submitted { number, .. } => Said::Submitted(*number),
        Reply::TooLarge => Said::TooLarge,
        Reply::Answer(Message::Signal(signal)) => summary_of(signal),
        Reply::Entry { .. } => Said::Entry,
        Reply::NoEntry => Said::NoEntry,
        Reply::Gone => Said::Gone,
        Reply::Confirmed { upto } => Said::Confirmed(*upto),
        Reply::Stopped { before, after } => Said::Fault(OfficeFault::Stopped {
            before: *before,
            after: *after,
        }),
        _ => Said::Other,
    }
}

fn summary_of(signal: &Signal) -> Said {
    match &signal.body {
        SignalBody::Receipt { .. } => Said::Receipt,
        SignalBody::Errors { items } => match items.items() {
            [item] => Said::Error(item.severity),
            _ => Said::Other,
        },
        SignalBody::Pull { .. } => Said::Other,
    }
}
