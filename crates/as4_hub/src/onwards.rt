//! The submission that relays a received message.
ghost use Rattle.std.specs.Prelude.{◌≡◌, IfOk, List};
ghost use Rattle.exchange_model.specs.declared.what.What.TheVariants as what;
ghost use Rattle.hub_laws.specs.Chain.{loads_of};

use as4_values::{Load, NoMemory, Payload, PlainData, Seq, Text, UserHeader};
use exchange_model::What;
use std::alloc::Global;

/// The event that submits the message by the mode of this name: with its conversation, and with the media and the contents
/// of its payloads.
pub(crate) fn submission(
    alloc: Global,
    mode: &Text,
    header: UserHeader,
    payloads: Seq<Payload>,
) -> Result<What, NoMemory>
    ensures { IfOk result (λ asked. asked ≡ what.Submit mode.now header.conversation (loads_of payloads)) }
{
    let conversation = header.conversation.try_clone(alloc);
    drop(header);
    match (
        conversation,
        mode.try_clone(alloc),
        loads_of(alloc, payloads),
    ) {
        (Ok(conversation), Ok(mode), Ok(loads)) => Ok(What::Submit {
            mode,
            conversation,
            loads,
        }),
        (conversation, mode, loads) => {
            drop(conversation);
            drop(mode);
            drop(loads);
            Err(NoMemory)
        }
    }
}

/// The media and the content of each payload, without a copy.
#[tactic(auto, unfolding(hub_laws::specs::Chain::loads_of))]
fn loads_of(alloc: Global, payloads: Seq<Payload>) -> Result<Seq<Load>, NoMemory>
    ensures { IfOk result (λ loads. loads ≡ loads_of payloads) }
{
    let payloads = payloads.into_vec();
    let mut loads = Vec::with_capacity(alloc, payloads.len())?;
    for payload in payloads {
        let Payload {
            cid,
            media,
            content,
        } = payload;
        drop(cid);
        loads.push(Load { media, content })?;
    }
    Ok(Seq::of(loads))
}
