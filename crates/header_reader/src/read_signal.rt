//! Reading a signal message (ebMS 3.0 Core, sections 5.2.3 and 6.2), each element by its attributes and children.

ghost use Rattle.std.specs.Prelude.{◌≡◌, Some, unwrap_or};
ghost use Rattle.header_reader.specs.Gives.{Gives};
ghost use Rattle.header_reader.specs.Signals.{default_channel, pull_of, receipt_of, severity_of, error_of, body_from, body_of, signal_of};

use crate::elements::{
    Readable, attribute, child, children, holds_only, optional_attribute, optional_child,
};
use crate::made::signal_from;
use crate::names::{AttributeName, ElementName};
use crate::parts::{PullRequest, Receipt};
use crate::refusal::{HeaderRefusal, with};
use crate::values::Value;
use as4_envelope::Element;
use as4_values::{ErrorItem, Seq, Severity, Signal, SignalBody, Text};
use std::alloc::Global;

/// The channel of a pull request that names none (ebMS 3.0 Core, section 3.4.1).
const DEFAULT_CHANNEL: &[u8] =
    b"http://docs.oasis-open.org/ebxml-msg/ebms/v3.0/ns/core/200704/defaultMPC";

const FAILURE: &[u8] = b"failure";

const WARNING: &[u8] = b"warning";

/// The channel, or the default one.
fn channel_or_default(alloc: Global, mpc: Option<Text>) -> Result<Text, HeaderRefusal>
    ensures { Gives result (Some (unwrap_or mpc default_channel)) }
{
    match mpc {
        Some(mpc) => Ok(mpc),
        None => Text::read_value(alloc, DEFAULT_CHANNEL),
    }
}

impl Readable for PullRequest {
    ghost meaning = { pull_of };

    #[tactic(auto, unfolding(crate::specs::Signals::pull_of))]
    fn read(alloc: Global, element: &Element) -> Result<PullRequest, HeaderRefusal> {
        if !holds_only(element, &[]) {
            return Err(HeaderRefusal::Invalid);
        }
        let mpc = optional_attribute(alloc, element, AttributeName::Mpc)?;
        Ok(PullRequest {
            mpc: channel_or_default(alloc, mpc)?,
        })
    }
}

impl Readable for Receipt {
    ghost meaning = { receipt_of };

    #[tactic(auto, unfolding(crate::specs::Signals::receipt_of))]
    fn read(alloc: Global, element: &Element) -> Result<Receipt, HeaderRefusal> {
        Ok(Receipt {
            copy: optional_child(alloc, element, ElementName::UserMessage)?,
        })
    }
}

impl Value for Severity {
    ghost value_of = { severity_of };

    #[tactic(auto, unfolding(crate::specs::Signals::severity_of))]
    fn read_value(_alloc: Global, bytes: &[u8]) -> Result<Severity, HeaderRefusal> {
        if bytes == FAILURE {
            Ok(Severity::Failure)
        } else if bytes == WARNING {
            Ok(Severity::Warning)
        } else {
            Err(HeaderRefusal::Invalid)
        }
    }
}

impl Readable for ErrorItem {
    ghost meaning = { error_of };

    #[tactic(auto, unfolding(crate::specs::Signals::error_of))]
    fn read(alloc: Global, element: &Element) -> Result<ErrorItem, HeaderRefusal> {
        if !holds_only(
            element,
            &[ElementName::Description, ElementName::ErrorDetail],
        ) {
            return Err(HeaderRefusal::Invalid);
        }
        let code = attribute(alloc, element, AttributeName::ErrorCode)?;
        let severity = attribute(alloc, element, AttributeName::Severity)?;
        let origin = optional_attribute(alloc, element, AttributeName::Origin)?;
        let category = optional_attribute(alloc, element, AttributeName::Category)?;
        let about = optional_attribute(alloc, element, AttributeName::RefToMessageInError)?;
        let short = optional_attribute(alloc, element, AttributeName::ShortDescription)?;
        let description: Option<Option<Text>> = optional_child(
            alloc,
            element,
            ElementName::Description,
        )?;
        let detail: Option<Option<Text>> = optional_child(
            alloc,
            element,
            ElementName::ErrorDetail,
        )?;
        Ok(ErrorItem {
            code,
            severity,
            origin,
            category,
            about,
            short,
            description: description.unwrap_or(None),
            detail: detail.unwrap_or(None),
        })
    }
}

/// Exactly one of a pull request, a receipt, and errors.
fn body_from(
    pull: Option<PullRequest>,
    receipt: Option<Receipt>,
    items: Seq<ErrorItem>,
) -> Option<SignalBody>
    ensures { result ≡ body_from pull receipt items }
{
    match (pull, receipt, items.items().is_empty()) {
        (Some(PullRequest { mpc }), None, true) => {
            drop(items);
            Some(SignalBody::Pull { mpc })
        }
        (None, Some(Receipt { copy }), true) => {
            drop(items);
            Some(SignalBody::Receipt { copy })
        }
        (None, None, false) => Some(SignalBody::Errors { items }),
        others => {
            drop(others);
            drop(items);
            None
        }
    }
}

impl Readable for SignalBody {
    ghost meaning = { body_of };

    #[tactic(auto, unfolding(crate::specs::Signals::body_of))]
    fn read(alloc: Global, element: &Element) -> Result<SignalBody, HeaderRefusal> {
        let pull = optional_child(alloc, element, ElementName::PullRequest)?;
        let parts = with(pull, optional_child(alloc, element, ElementName::Receipt))?;
        let ((pull, receipt), items) = with(parts, children(alloc, element, ElementName::Error))?;
        body_from(pull, receipt, items).ok_or(HeaderRefusal::Invalid)
    }
}

impl Readable for Signal {
    ghost meaning = { signal_of };

    #[tactic(auto, unfolding(crate::specs::Signals::signal_of))]
    fn read(alloc: Global, element: &Element) -> Result<Signal, HeaderRefusal> {
        if !holds_only(
            element,
            &[
                ElementName::MessageInfo,
                ElementName::PullRequest,
                ElementName::Receipt,
                ElementName::Error,
            ],
        ) {
            return Err(HeaderRefusal::Invalid);
        }
        let info = child(alloc, element, ElementName::MessageInfo)?;
        let body = SignalBody::read(alloc, element)?;
        signal_from(info, body).ok_or(HeaderRefusal::Invalid)
    }
}
