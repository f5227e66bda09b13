//! The payloads of a submission.

ghost use Rattle.std.specs.Prelude.{◌≡◌, ◌<◌, ◌≤◌, IfOk, IsTrue, length};
ghost use Rattle.std.specs.List.{list_all};
ghost use Rattle.as4_values.specs.Payload.{is_media_text};
ghost use Rattle.exchange_model.specs.Submitting.{ArePayloadsOf};
ghost use Rattle.submissions.specs.Names.{IsStem, cid_at};

use crate::naming::cid_of;
use as4_values::{Load, MessageId, NoMemory, Payload, PlainData, Seq};
use std::alloc::Global;

/// Each load with its Content-ID.
#[tactic(auto, using(crate::proofs::StepLemmas::no_payloads, crate::proofs::StepLemmas::all_payloads, crate::proofs::StepLemmas::typed_at))]
pub fn payloads_of(alloc: Global, id: &MessageId, loads: &[Load]) -> Result<Seq<Payload>, NoMemory>
    requires few { length loads.now ≤ 64 }
    requires typed { IsTrue (list_all (λ load. is_media_text load.media) loads.now) }
    requires stem { IsStem id.now }
    ensures { IfOk result (ArePayloadsOf id.now loads.now) }
{
    let mut payloads = Vec::with_capacity(alloc, loads.len())?;
    for (at, load) in loads.iter().enumerate() {
        payloads.push(payload_of(alloc, id, at, load)?)?;
    }
    Ok(Seq::of(payloads))
}

#[tactic(auto, using(crate::proofs::NameLemmas::cid_is_content_id))]
fn payload_of(alloc: Global, id: &MessageId, at: usize, load: &Load) -> Result<Payload, NoMemory>
    requires below { at < 64 }
    requires typed { IsTrue (is_media_text load.now.media) }
    requires stem { IsStem id.now }
    ensures cid { IfOk result (λ payload. payload.cid ≡ cid_at id.now at) }
    ensures media { IfOk result (λ payload. payload.media ≡ load.now.media) }
    ensures content { IfOk result (λ payload. payload.content ≡ load.now.content) }
{
    Ok(Payload {
        cid: cid_of(alloc, id, at)?,
        media: load.media.try_clone(alloc)?,
        content: load.content.try_clone(alloc)?,
    })
}
