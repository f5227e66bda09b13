//! What the head of a response says.
ghost use Rattle.std.specs.Prelude.{◌≡◌, IfOk, IsErrOf};
ghost use Rattle.httparse.specs.Grammar.{ResponseHead};
ghost use Rattle.httparse.specs.Spans.{IsResponseAt, IsResponseWithin};
ghost use Rattle.as4_http.specs.Refused.{OnRefused};
ghost use Rattle.as4_http.specs.ResponseStarts.{SaysResponse, framing_at};

use crate::HttpRefusal;
use crate::fields::only_value;
use crate::framing::{Framing, framing_of};
use as4_values::Octets;
use httparse::spans::{HeaderSpan, ResponseSpans};
use std::alloc::Global;

/// The least status of a response that isn't followed by another.
const LEAST_STATUS: u16 = 200;

const _: () = prove!(LEAST_STATUS == 200);

/// What the head of a response says.
#[derive(Drop)]
pub(crate) struct ResponseStart {
    pub(crate) status: u16,
    pub(crate) media: Option<Octets>,
    pub(crate) framing: Framing,
}

/// Takes out of a head what is wanted of it.
pub(crate) fn response_start(
    alloc: Global,
    buf: &[u8],
    headers: &[HeaderSpan],
    spans: &ResponseSpans,
) -> Result<ResponseStart, HttpRefusal>
    requires within { IsResponseWithin buf.now headers.now spans.now }
    ensures ok { IfOk result (λ start. (head : ResponseHead) → IsResponseAt buf.now headers.now spans.now head → SaysResponse head start) }
    ensures none { OnRefused result ((head : ResponseHead) (start : ResponseStart) → IsResponseAt buf.now headers.now spans.now head → ¬ SaysResponse head start) }
    ensures cause { ¬ IsErrOf result HttpRefusal.ReadFault × ¬ IsErrOf result HttpRefusal.Cut × ¬ IsErrOf result HttpRefusal.TooLong }
{
    let fields = &headers[..spans.headers];
    if spans.code < LEAST_STATUS {
        return Err(HttpRefusal::Bad);
    }
    let said = framing_of(buf, fields, Framing::ToEnd)?;
    let media = match only_value(buf, fields, b"content-type")? {
        Some(media) => Some(Octets::of(Vec::from_slice(alloc, media)?)),
        None => None,
    };
    Ok(ResponseStart {
        status: spans.code,
        media,
        framing: framing_at(spans.code, said),
    })
}

// How long the body is, where the fields say this: with some statuses there is none.
fn framing_at(status: u16, said: Framing) -> Framing
    ensures { result ≡ framing_at status said }
{
    if status == 204 || status == 304 {
        Framing::Empty
    } else {
        said
    }
}
