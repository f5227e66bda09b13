//! The Content-IDs of payloads, and the references to them (RFC 2392).
//!
//!     7.0.00000000-0000-0000-0000-000000000000@as4       the seventh payload of a submission
//!     cid:7.0.00000000-0000-0000-0000-000000000000@as4   the reference to it

ghost use Rattle.std.specs.Prelude.{◌≡◌, ◌<◌, ◌++◌, IfOk, codes};
ghost use Rattle.submissions.specs.Names.{IsStem, cid_at};

use as4_values::{MessageId, NoMemory, Octets, Text};
use std::alloc::Global;

/// The Content-ID of the payload at a place, counted from 0, by the identifier of the message.
#[tactic(auto, unfolding(crate::specs::Names::cid_at))]
pub fn cid_of(alloc: Global, id: &MessageId, at: usize) -> Result<Octets, NoMemory>
    requires { at < 64 }
    ensures { IfOk result (λ cid. cid ≡ cid_at id.now at) }
{
    let mut bytes = format!(in alloc; "{}.", at + 1)?.into_bytes();
    bytes.extend_from_slice(id.bytes())?;
    Ok(Octets::of(bytes))
}

/// The reference to the payload at a place.
#[tactic(auto, using(crate::proofs::NameLemmas::href_is_plain))]
pub fn href_of(alloc: Global, id: &MessageId, at: usize) -> Result<Text, NoMemory>
    requires below { at < 64 }
    requires stem { IsStem id.now }
    ensures { IfOk result (λ href. href ≡ codes "cid:" ++ cid_at id.now at) }
{
    let bytes = href_bytes(alloc, id, at)?;
    Text::plain(alloc, bytes.bytes())
}

fn href_bytes(alloc: Global, id: &MessageId, at: usize) -> Result<Octets, NoMemory>
    requires { at < 64 }
    ensures { IfOk result (λ href. href ≡ codes "cid:" ++ cid_at id.now at) }
{
    let cid = cid_of(alloc, id, at)?;
    let mut bytes = Vec::from_slice(alloc, b"cid:")?;
    bytes.extend_from_slice(cid.bytes())?;
    Ok(Octets::of(bytes))
}
