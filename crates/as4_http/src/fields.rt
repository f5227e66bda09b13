//! The fields of a head, by the places of their names and values in its bytes.
ghost use Rattle.std.specs.Prelude.{◌≡◌, ◌≤◌, length, map, All, IfOk, OnErr, IfErr};
ghost use Rattle.std.specs.Option.{option_to_list, option_copied};
ghost use Rattle.httparse.specs.Spans.{IsHeaderWithin, header_bytes};
ghost use Rattle.as4_http.specs.Fields.{is_name, values_in};

use crate::HttpRefusal;
use httparse::spans::HeaderSpan;

/// The value of the field of this name, where there is one. A second field of the name is bad.
pub(crate) fn only_value<'b>(
    buf: &'b [u8],
    headers: &[HeaderSpan],
    name: &[u8],
) -> Result<Option<&'b [u8]>, HttpRefusal>
    requires { All (IsHeaderWithin (length buf.now)) headers.now }
    ensures only { IfOk result
        (λ value. values_in name.now (map (header_bytes buf.now) headers.now) ≡ option_to_list (option_copied value)) }
    ensures twice { OnErr result (2 ≤ length (values_in name.now (map (header_bytes buf.now) headers.now))) }
    ensures bad { IfErr result (λ refusal. refusal ≡ HttpRefusal.Bad) }
{
    let mut only = None;
    for header in headers {
        if is_name(header.name.of(buf), name) {
            if only.is_some() {
                return Err(HttpRefusal::Bad);
            }
            only = Some(header.value.of(buf));
        }
    }
    Ok(only)
}

// Whether these are the same name, which is read without case.
pub(crate) fn is_name(bytes: &[u8], name: &[u8]) -> bool
    ensures { result ≡ is_name bytes.now name.now }
{
    bytes.eq_ignore_ascii_case(name)
}
