//! Whether the names of parameters are distinct, in less than quadratic time.
ghost use Rattle.std.specs.Prelude.{◌≡◌, ◌↔◌, IfOk, IsTrue, bytes_eq, map};
ghost use Rattle.std.specs.List.{IsDistinct, list_any};
ghost use Rattle.std.specs.Str.{str_to_ascii_lowercase};
ghost use Rattle.mime_fields.specs.MediaTypes.{is_named, names_differ};
ghost use Rattle.mime_fields.specs.Lent.{parameter_of, type_of};

use crate::media_type::{MediaType, Parameter};
use as4_values::NoMemory;
use std::alloc::{AllocError, Global};

/// Up to this many names are compared in pairs; more are sorted.
const FEW: usize = 16;

impl MediaType<'_> {
    /// Whether no two parameters have the same name, in any case.
    pub fn names_differ(&self, alloc: Global) -> Result<bool, NoMemory>
        ensures { IfOk result (λ differ. differ ≡ names_differ (type_of self.now).parameters) }
    {
        let parameters = self.parameters.as_slice();
        if parameters.len() <= FEW {
            return Ok(few_differ(parameters));
        }
        Ok(many_differ(alloc, parameters)?)
    }
}

fn few_differ(parameters: &[Parameter<'_>]) -> bool
    ensures { result ≡ names_differ (map parameter_of parameters.now) }
{
    for (at, parameter) in parameters.iter().enumerate() {
        if has_name(&parameters[at + 1..], parameter.name) {
            return false;
        }
    }
    true
}

// Whether one of the parameters has this name, in any case.
fn has_name(parameters: &[Parameter<'_>], name: &[u8]) -> bool
    ensures { result ≡ list_any (is_named name.now) (map parameter_of parameters.now) }
{
    for parameter in parameters {
        if parameter.is_named(name) {
            return true;
        }
    }
    false
}

fn many_differ(alloc: Global, parameters: &[Parameter<'_>]) -> Result<bool, AllocError>
    ensures { IfOk result (λ differ. differ ≡ names_differ (map parameter_of parameters.now)) }
{
    let mut names = Vec::with_capacity(alloc, parameters.len())?;
    for parameter in parameters {
        names.push(lowercase(alloc, parameter.name)?)?;
    }
    Ok(all_differ(names.as_mut_slice()))
}

fn lowercase(alloc: Global, name: &[u8]) -> Result<Vec<u8>, AllocError>
    ensures { IfOk result (λ lower. lower.items ≡ str_to_ascii_lowercase name.now) }
{
    let mut lower = Vec::from_slice(alloc, name)?;
    lower.as_mut_slice().make_ascii_lowercase();
    Ok(lower)
}

// Whether the names are distinct. Sorts them.
fn all_differ(names: &mut [Vec<u8>]) -> bool
    ensures { IsTrue result ↔ IsDistinct bytes_eq (map (λ name. name.items) names.old) }
{
    names.sort_unstable();
    for at in 1..names.len() {
        if names[at - 1].as_slice() == names[at].as_slice() {
            return false;
        }
    }
    true
}
