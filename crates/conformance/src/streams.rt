//! What a stream begins with, as a line.
ghost use Rattle.std.specs.Prelude.{◌≡◌, IfOk, codes, if◌then◌else◌};
ghost use Rattle.as4_http.specs.Methods.{method_text};
ghost use Rattle.conformance.specs.Exchanges.{IsStreamLine, request_line};

use crate::heads::{is_cut, is_in_target};
use as4_flow::MemorySource;
use as4_http::{HttpRefusal, Intake, Method, Request};
use as4_values::{NoMemory, Octets};
use itoa::Buffer;
use std::alloc::Global;

/// The line of a stream.
pub(crate) fn stream_line(alloc: Global, stream: &[u8]) -> Result<Octets, NoMemory>
    ensures { IfOk result (λ line. IsStreamLine stream.now line) }
{
    let bytes = Vec::from_slice(alloc, stream)?;
    let mut source = MemorySource::of(bytes, Vec::new(alloc), Vec::new(alloc));
    match Intake::new(alloc).read_request(&mut source) {
        Ok((request, intake)) => {
            drop(intake);
            let line = request_line(alloc, &request);
            drop(request);
            line
        }
        Err(HttpRefusal::Cut) => no_request_line(alloc, is_cut(stream)),
        Err(HttpRefusal::Bad) => no_request_line(alloc, is_in_target(stream)),
        Err(HttpRefusal::TooLong) => no_request_line(alloc, false),
        Err(HttpRefusal::ReadFault | HttpRefusal::NoMemory) => Err(NoMemory),
    }
}

fn request_line(alloc: Global, request: &Request) -> Result<Octets, NoMemory>
    ensures { IfOk result (λ line. line ≡ request_line request.now) }
{
    let mut buffer = Buffer::new();
    let mut line = Vec::new(alloc);
    line.extend_from_slice(b"request ")?;
    line.extend_from_slice(method_text(request.method))?;
    line.extend_from_slice(b" ")?;
    line.extend_from_slice(buffer.format(request.body.bytes().len()).as_bytes())?;
    line.extend_from_slice(b"\n")?;
    Ok(Octets::of(line))
}

fn method_text(method: Method) -> &'static [u8]
    ensures { result.now ≡ method_text method }
{
    match method {
        Method::Get => b"GET",
        Method::Post => b"POST",
    }
}

fn no_request_line(alloc: Global, is_cut: bool) -> Result<Octets, NoMemory>
    ensures { IfOk result (λ line. line ≡ (if is_cut then codes "cut\n" else codes "refused\n")) }
{
    let words: &[u8] = if is_cut { b"cut\n" } else { b"refused\n" };
    Ok(Octets::of(Vec::from_slice(alloc, words)?))
}
