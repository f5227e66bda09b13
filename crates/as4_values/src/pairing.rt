//! Which payloads a header names (ebMS 3.0 Core, section 5.2.2.13; RFC 2392).

ghost use Rattle.std.specs.Prelude.{◌≡◌, IfOk, option_map, option_and_then};
ghost use Rattle.as4_values.specs.Pairing.{cid_in, named_by, pair};

use crate::named::{all_differ, are_among};
use crate::{NoMemory, Octets, PartInfo, Payload};
use percent_encoding::percent_decode;
use std::alloc::Global;

/// Whether each part info names one of the payloads by its Content-ID, each payload is named, and none is
/// named twice.
#[tactic(auto, using(crate::proofs::PairingLemmas::in_order), unfolding(crate::specs::Pairing::pair))]
pub fn pairs(alloc: Global, parts: &[PartInfo], payloads: &[Payload]) -> Result<bool, NoMemory>
    ensures { IfOk result (λ paired. paired ≡ pair parts.now payloads.now) }
{
    let Some(names) = names_of(alloc, parts)? else {
        return Ok(false);
    };
    let names = names.as_slice();
    Ok(
        all_differ(names)
            && are_among(payloads, names)
            && all_differ(payloads)
            && are_among(names, payloads),
    )
}

/// The Content-IDs that the part infos name; None where a part info names none.
#[tactic(auto, unfolding(crate::specs::Pairing::named_by))]
fn names_of(alloc: Global, parts: &[PartInfo]) -> Result<Option<Vec<Octets>>, NoMemory>
    ensures { IfOk result (λ names. option_map (λ list. list.items) names ≡ named_by parts.now) }
{
    let mut names = Vec::new(alloc);
    for part in parts {
        let Some(name) = name_of(alloc, part)? else {
            return Ok(None);
        };
        names.push(name)?;
    }
    Ok(Some(names))
}

fn name_of(alloc: Global, part: &PartInfo) -> Result<Option<Octets>, NoMemory>
    ensures { IfOk result (λ name. name ≡ option_and_then cid_in part.now.href) }
{
    match &part.href {
        None => Ok(None),
        Some(href) => cid_in(alloc, href.bytes()),
    }
}

/// The Content-ID that a reference names: the bytes after `cid:` (in any case), with their escapes resolved (RFC 2392).
#[tactic(auto, unfolding(crate::specs::Pairing::cid_in))]
pub fn cid_in(alloc: Global, href: &[u8]) -> Result<Option<Octets>, NoMemory>
    ensures { IfOk result (λ cid. cid ≡ cid_in href.now) }
{
    if href.len() < 4 || !href[..4].eq_ignore_ascii_case(b"cid:") {
        return Ok(None);
    }
    let mut cid = Vec::new(alloc);
    percent_decode(&href[4..]).append_to(&mut cid)?;
    Ok(Some(Octets::of(cid)))
}
