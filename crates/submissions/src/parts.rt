//! The part infos of a header (ebMS 3.0 Core, section 5.2.2.13).

ghost use Rattle.std.specs.Prelude.{◌≡◌, ◌<◌, ◌≤◌, ◌++◌, [], Some, IfOk, codes, length};
ghost use Rattle.submissions.specs.Names.{IsStem, ArePartsOf, cid_at};

use crate::naming::href_of;
use as4_values::{MessageId, NoMemory, PartInfo, Seq};
use std::alloc::Global;

/// `count` part infos, each with the reference to its payload and nothing else.
#[tactic(auto, using(crate::proofs::StepLemmas::no_parts, crate::proofs::StepLemmas::one_more_part, crate::proofs::StepLemmas::parts_counted))]
pub fn parts_of(alloc: Global, id: &MessageId, count: usize) -> Result<Seq<PartInfo>, NoMemory>
    requires few { count ≤ 64 }
    requires stem { IsStem id.now }
    ensures parts { IfOk result (ArePartsOf id.now count) }
    ensures counted { IfOk result (λ parts. length parts ≡ count) }
{
    let mut parts = Vec::with_capacity(alloc, count)?;
    for at in 0..count {
        parts.push(part_of(alloc, id, at)?)?;
    }
    Ok(Seq::of(parts))
}

fn part_of(alloc: Global, id: &MessageId, at: usize) -> Result<PartInfo, NoMemory>
    requires below { at < 64 }
    requires stem { IsStem id.now }
    ensures href { IfOk result (λ part. part.href ≡ Some (codes "cid:" ++ cid_at id.now at)) }
    ensures bare { IfOk result (λ part. part.properties ≡ []) }
{
    Ok(PartInfo {
        href: Some(href_of(alloc, id, at)?),
        properties: Seq::of(Vec::new(alloc)),
    })
}
