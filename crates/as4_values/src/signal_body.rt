//! The bodies of signal messages: pull requests, receipts and errors.

use crate::code::Code;
use crate::header::UserHeader;
use crate::lists::Seq;
use crate::memory::NoMemory;
use crate::message_id::MessageId;
use crate::plain_data::{PlainData, try_clone_four};
use crate::text::Text;
use std::alloc::Global;

/// How bad an error is (ebMS 3.0 Core, section 6.2.4).
#[derive(Clone, Copy, Debug, PartialEq, Eq)]
pub enum Severity {
    /// The message wasn't processed.
    Failure,
    /// The message was processed nevertheless.
    Warning,
}

/// `eb:Error` (ebMS 3.0 Core, section 6.2).
#[derive(Drop)]
pub struct ErrorItem {
    pub code: Code,
    pub severity: Severity,
    pub origin: Option<Text>,
    pub category: Option<Text>,
    /// The message in error.
    pub about: Option<MessageId>,
    /// The attribute `shortDescription`.
    pub short: Option<Text>,
    pub description: Option<Text>,
    /// `eb:ErrorDetail`.
    pub detail: Option<Text>,
}

/// The content of a signal message.
#[derive(Drop)]
pub enum SignalBody {
    /// `eb:PullRequest`: asks for the next message of this channel.
    Pull { mpc: Text },
    /// `eb:Receipt`: the message was received. May hold a copy of its header.
    Receipt { copy: Option<UserHeader> },
    /// One or more `eb:Error`, at most 256.
    Errors { items: Seq<ErrorItem> },
}

impl PlainData for Severity {
    fn try_clone(&self, _alloc: Global) -> Result<Severity, NoMemory> {
        Ok(*self)
    }

    fn same(&self, other: &Severity) -> bool {
        *self == *other
    }
}

impl PlainData for ErrorItem {
    fn try_clone(&self, alloc: Global) -> Result<ErrorItem, NoMemory> {
        match (
            try_clone_four(
                alloc,
                &self.code,
                &self.severity,
                &self.origin,
                &self.category,
            ),
            try_clone_four(
                alloc,
                &self.about,
                &self.short,
                &self.description,
                &self.detail,
            ),
        ) {
            (Ok(front), Ok(rest)) => {
                let (code, severity, origin, category) = front;
                let (about, short, description, detail) = rest;
                Ok(ErrorItem {
                    code,
                    severity,
                    origin,
                    category,
                    about,
                    short,
                    description,
                    detail,
                })
            }
            (front, rest) => {
                drop(front);
                drop(rest);
                Err(NoMemory)
            }
        }
    }

    fn same(&self, other: &ErrorItem) -> bool {
        self.code.same(&other.code)
            && self.severity.same(&other.severity)
            && self.origin.same(&other.origin)
            && self.category.same(&other.category)
            && self.about.same(&other.about)
            && self.short.same(&other.short)
            && self.description.same(&other.description)
            && self.detail.same(&other.detail)
    }
}

impl PlainData for SignalBody {
    fn try_clone(&self, alloc: Global) -> Result<SignalBody, NoMemory> {
        match self {
            SignalBody::Pull { mpc } => Ok(SignalBody::Pull {
                mpc: mpc.try_clone(alloc)?,
            }),
            SignalBody::Receipt { copy } => Ok(SignalBody::Receipt {
                copy: copy.try_clone(alloc)?,
            }),
            SignalBody::Errors { items } => Ok(SignalBody::Errors {
                items: items.try_clone(alloc)?,
            }),
        }
    }

    fn same(&self, other: &SignalBody) -> bool {
        match (self, other) {
            (SignalBody::Pull { mpc }, SignalBody::Pull { mpc: other }) => mpc.same(other),
            (SignalBody::Receipt { copy }, SignalBody::Receipt { copy: other }) => copy.same(other),
            (SignalBody::Errors { items }, SignalBody::Errors { items: other }) => {
                items.same(other)
            }
            _ => false,
        }
    }
}
