//! Media types (RFC 2045, section 5.1), borrowed from their text.
ghost use Rattle.std.specs.Prelude.{◌≡◌, IfOk, length, map, option_map};
ghost use Rattle.mime_fields.specs.MediaTypes.{is_named, is_type, media_type_of, parameter_at, parameters_within};
ghost use Rattle.mime_fields.specs.Lent.{parameter_of, type_of};

use crate::class::Class;
use crate::runs::{are_spaces, is_same_word};
use crate::value::{Value, value_at};
use as4_values::NoMemory;
use byte_forms::{run_at, skip, strip_prefix};
use std::alloc::Global;

/// A media type, borrowed from its text.
#[derive(Drop)]
pub struct MediaType<'a> {
    /// The type, such as `text` of `text/xml`: a token, in its original case.
    pub kind: &'a [u8],
    /// The subtype, such as `xml` of `text/xml`: a token, in its original case.
    pub subkind: &'a [u8],
    /// The parameters, in order. Whether a name occurs twice isn't checked.
    pub parameters: Vec<Parameter<'a>>,
}

/// A parameter of a media type.
#[derive(Clone, Copy)]
pub struct Parameter<'a> {
    /// A token, in its original case.
    pub name: &'a [u8],
    pub value: Value<'a>,
}

impl MediaType<'_> {
    /// Whether it has this type and subtype, in any case.
    pub fn is(&self, kind: &[u8], subkind: &[u8]) -> bool
        ensures { result ≡ is_type kind.now subkind.now (type_of self.now) }
    {
        is_same_word(self.kind, kind) && is_same_word(self.subkind, subkind)
    }
}

impl Parameter<'_> {
    /// Whether it has this name, in any case.
    pub fn is_named(&self, name: &[u8]) -> bool
        ensures { result ≡ is_named name.now (parameter_of self.now) }
    {
        is_same_word(self.name, name)
    }
}

/// Reads a media type; `None` if the text spells none. Spaces and tabs may occur at both ends and around each `;`.
#[tactic(auto, unfolding(crate::specs::MediaTypes::media_type_of))]
pub fn read_media_type<'a>(alloc: Global, text: &'a [u8]) -> Result<Option<MediaType<'a>>, NoMemory>
    ensures { IfOk result (λ found. option_map type_of found ≡ media_type_of text.now) }
{
    let Some((kind, rest)) = run_at(Class::Token, skip(Class::Space, text)) else {
        return Ok(None);
    };
    let Some(rest) = strip_prefix(b"/", rest) else {
        return Ok(None);
    };
    let Some((subkind, rest)) = run_at(Class::Token, rest) else {
        return Ok(None);
    };
    let Some(parameters) = parameters_in(alloc, rest)? else {
        return Ok(None);
    };
    Ok(Some(MediaType {
        kind,
        subkind,
        parameters,
    }))
}

// The parameters up to the end; `None` if there is anything else among them.
#[tactic(auto, using(crate::proofs::ParameterLemmas::all_of, crate::proofs::ParameterLemmas::none_of))]
fn parameters_in<'a>(alloc: Global, bytes: &'a [u8]) -> Result<Option<Vec<Parameter<'a>>>, NoMemory>
    ensures { IfOk result (λ found. option_map (λ all. map parameter_of all.items) found ≡ parameters_within (length bytes.now) bytes.now) }
{
    let mut parameters = Vec::new(alloc);
    let mut rest = bytes;
    while !are_spaces(rest) {
        let Some((parameter, after)) = parameter_at(rest) else {
            return Ok(None);
        };
        parameters.push(parameter)?;
        rest = after;
    }
    Ok(Some(parameters))
}

// A parameter with the `;` before it, and the bytes after it.
#[tactic(auto, unfolding(crate::specs::MediaTypes::parameter_at))]
fn parameter_at(bytes: &[u8]) -> Option<(Parameter<'_>, &[u8])>
    ensures { option_map (λ x. (parameter_of x.0, x.1.now)) result ≡ parameter_at bytes.now }
{
    let rest = strip_prefix(b";", skip(Class::Space, bytes))?;
    let (name, rest) = run_at(Class::Token, skip(Class::Space, rest))?;
    let rest = strip_prefix(b"=", rest)?;
    let (value, rest) = value_at(rest)?;
    Some((Parameter { name, value }, rest))
}
