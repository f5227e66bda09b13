//! The parameters of the media types of packages and envelopes.

ghost use Rattle.std.specs.Prelude.{◌≡◌, ◌||◌, IfOk, codes, map, not, option_map};
ghost use Rattle.std.specs.List.{list_all};
ghost use Rattle.mime_fields.specs.Lent.{value_meant_by, parameter_of, type_of};
ghost use Rattle.mime_fields.specs.MediaTypes.{is_named};
ghost use Rattle.mime_package.specs.Reading.{parameter, is_charset, is_envelope, boundary_of};

use crate::boundary::is_boundary;
use as4_values::NoMemory;
use mime_fields::{MediaType, Parameter, Value};
use std::alloc::Global;

/// The meaning of the first parameter of this name.
pub fn meant(
    alloc: Global,
    name: &[u8],
    parameters: &[Parameter<'_>],
) -> Result<Option<Vec<u8>>, NoMemory>
    ensures { IfOk result (λ found. option_map (λ bytes. bytes.items) found ≡ parameter name.now (map parameter_of parameters.now)) }
{
    match value_of(name, parameters) {
        None => Ok(None),
        Some(value) => Ok(Some(value.meant(alloc)?)),
    }
}

/// The boundary of a package (RFC 2046, section 5.1.1).
#[tactic(auto, unfolding(crate::specs::Reading::boundary_of))]
pub fn boundary_of(alloc: Global, parameters: &[Parameter<'_>]) -> Result<Option<Vec<u8>>, NoMemory>
    ensures { IfOk result (λ found. option_map (λ bytes. bytes.items) found ≡ boundary_of (map parameter_of parameters.now)) }
{
    let Some(bytes) = meant(alloc, b"boundary", parameters)? else {
        return Ok(None);
    };
    if is_boundary(bytes.as_slice()) {
        Ok(Some(bytes))
    } else {
        drop(bytes);
        Ok(None)
    }
}

/// Whether it is the media type of an envelope (SOAP 1.2, part 2, section 7) in a supported character set.
#[tactic(auto, unfolding(crate::specs::Reading::is_envelope))]
pub fn is_envelope(alloc: Global, media: &MediaType<'_>) -> Result<bool, NoMemory>
    ensures { IfOk result (λ is. is ≡ is_envelope (type_of media.now)) }
{
    if !media.is(b"application", b"soap+xml") {
        return Ok(false);
    }
    are_charsets(alloc, media.parameters.as_slice())
}

// Whether each parameter that names a character set names a supported one.
fn are_charsets(alloc: Global, parameters: &[Parameter<'_>]) -> Result<bool, NoMemory>
    ensures { IfOk result (λ all. all ≡ list_all (λ p. not (is_named (codes "charset") p) || is_charset p.value) (map parameter_of parameters.now)) }
{
    for parameter in parameters {
        if parameter.is_named(b"charset") && !is_charset(alloc, parameter.value)? {
            return Ok(false);
        }
    }
    Ok(true)
}

fn is_charset(alloc: Global, value: Value<'_>) -> Result<bool, NoMemory>
    ensures { IfOk result (λ is. is ≡ is_charset (value_meant_by value.entry)) }
{
    let name = value.meant(alloc)?;
    let is = name.eq_ignore_ascii_case(b"utf-8") || name.eq_ignore_ascii_case(b"us-ascii");
    drop(name);
    Ok(is)
}

// The value of the first parameter of this name.
fn value_of<'a>(name: &[u8], parameters: &[Parameter<'a>]) -> Option<Value<'a>>
    ensures { option_map value_meant_by result ≡ parameter name.now (map parameter_of parameters.now) }
{
    for parameter in parameters {
        if parameter.is_named(name) {
            return Some(parameter.value);
        }
    }
    None
}
