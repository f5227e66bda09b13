//! What the head of a request says.
ghost use Rattle.std.specs.Prelude.{◌≡◌, ◌≢◌, ◌≤◌, ℕ, List, Option, length, map, take, All, IfOk, OnErr, IfErr, IsErrOf};
ghost use Rattle.std.specs.Option.{option_copied};
ghost use Rattle.httparse.specs.Grammar.{RequestHead};
ghost use Rattle.httparse.specs.Spans.{IsRequestAt, IsRequestWithin};
ghost use Rattle.as4_http.specs.Refused.{OnRefused};
ghost use Rattle.as4_http.specs.Methods.{method_text};
ghost use Rattle.as4_http.specs.RequestStarts.{SaysRequest};

use crate::connection::closes;
use crate::fields::only_value;
use crate::framing::{Framing, framing_of};
use crate::{HttpRefusal, Method};
use as4_values::Octets;
use httparse::spans::{HeaderSpan, RequestSpans};
use std::alloc::{AllocError, Global};

/// What the head of a request says.
#[derive(Drop)]
pub(crate) struct RequestStart {
    pub(crate) method: Method,
    pub(crate) target: Octets,
    pub(crate) media: Option<Octets>,
    pub(crate) framing: Framing,
    /// Whether a further request may follow on its connection.
    pub(crate) kept: bool,
}

/// Takes out of a head what is wanted of it.
pub(crate) fn request_start(
    alloc: Global,
    buf: &[u8],
    headers: &[HeaderSpan],
    spans: &RequestSpans,
) -> Result<RequestStart, HttpRefusal>
    requires within { IsRequestWithin buf.now headers.now spans.now }
    ensures ok { IfOk result (λ start. (head : RequestHead) → IsRequestAt buf.now headers.now spans.now head → SaysRequest head start) }
    ensures none { OnRefused result ((head : RequestHead) (start : RequestStart) → IsRequestAt buf.now headers.now spans.now head → ¬ SaysRequest head start) }
    ensures cause { ¬ IsErrOf result HttpRefusal.ReadFault × ¬ IsErrOf result HttpRefusal.Cut × ¬ IsErrOf result HttpRefusal.TooLong }
{
    let fields = &headers[..spans.headers];
    let method = method_of(spans.method.of(buf))?;
    let framing = framing_of(buf, fields, Framing::Empty)?;
    let media = only_value(buf, fields, b"content-type")?;
    let kept = spans.version == 1 && !closes(buf, fields);
    let (target, media) = owned(alloc, spans.path.of(buf), media)?;
    Ok(RequestStart {
        method,
        target,
        media,
        framing,
        kept,
    })
}

fn method_of(bytes: &[u8]) -> Result<Method, HttpRefusal>
    ensures ok { IfOk result (λ method. bytes.now ≡ method_text method) }
    ensures err { OnErr result ((method : Method) → bytes.now ≢ method_text method) }
    ensures bad { IfErr result (λ refusal. refusal ≡ HttpRefusal.Bad) }
{
    if bytes == b"GET".as_slice() {
        return Ok(Method::Get);
    }
    if bytes == b"POST".as_slice() {
        return Ok(Method::Post);
    }
    Err(HttpRefusal::Bad)
}

// Copies of both.
fn owned(
    alloc: Global,
    target: &[u8],
    media: Option<&[u8]>,
) -> Result<(Octets, Option<Octets>), AllocError>
    ensures { IfOk result (λ copies. (copies.0 ≡ target.now) × (copies.1 ≡ option_copied media.entry)) }
{
    let target = Octets::of(Vec::from_slice(alloc, target)?);
    let media = match media {
        Some(media) => Some(Octets::of(Vec::from_slice(alloc, media)?)),
        None => None,
    };
    Ok((target, media))
}
