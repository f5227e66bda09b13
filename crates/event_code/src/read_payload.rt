//! Reads payloads, routes and marks.
#![tactic(auto, unfolding(as4_effects::specs::Bodies::route_body, as4_effects::specs::Marks::mark_body, crate::specs::Spelled::IsSpelledRoute, crate::specs::Spelled::IsSpelledMark))]

ghost use Rattle.std.specs.Prelude.{◌≡◌, IsTrue, ◌↔◌, refl};
ghost use Rattle.std.proofs.Common.{arith};
ghost use Rattle.as4_effects.proofs.CountLemmas.{word_counted};
ghost use Rattle.as4_effects.proofs.PartLemmas.{payload_told};
ghost use Rattle.as4_effects.specs.Bodies.{payload_body, route_body};
ghost use Rattle.as4_effects.specs.Marks.{mark_body};
ghost use Rattle.as4_effects.specs.Parts.{payload_parts};
ghost use Rattle.as4_values.proofs.PayloadLemmas.{media_limited};
ghost use Rattle.as4_values.specs.Payload.{IsContentId, is_media_text};
ghost use Rattle.as4_values.specs.declared.word.Word.TheVariants.{Identifier};
ghost use Rattle.event_code.specs.Spelled.{IsSpelledPayload, IsSpelledRoute, IsSpelledMark};

use crate::reading::{Parted, Readable, once_by_parts, read_by_parts};
use crate::refusal::BodyRefusal;
use crate::rest::Rest;
use as4_effects::Mark;
use as4_values::{Code, Octets, Payload, Route, Text, Word, is_media_text};
use std::alloc::Global;

impl Readable for Payload {
    ghost body = { payload_body };

    ghost is_one = { IsSpelledPayload };

    fn read(alloc: Global, rest: &mut Rest) -> Result<Payload, BodyRefusal> {
        read_by_parts(alloc, rest)
    }

    fn once() {
        once_by_parts::<Payload>()
    }
}

impl Parted for Payload {
    type Parts = ((Octets, Octets), Octets);

    ghost whole_body = { payload_body };

    ghost is_whole = { IsSpelledPayload };

    ghost parts = { payload_parts };

    fn of_parts(_alloc: Global, these: Self::Parts) -> Result<Payload, BodyRefusal> {
        let ((cid, media), content) = these;
        if !may_describe(&cid, &media) {
            return Err(BodyRefusal::NotBody);
        }
        Ok(Payload {
            cid,
            media,
            content,
        })
    }

    ghost told = { payload_told };

    ghost kept = { unfold IsSpelledPayload in λ p. (
      λ is. ((word_counted Identifier p.cid p.named, Prim.omega (arith, media_limited p.media p.typed)), is),
      λ h. h.1,
    ) };

    ghost same = { unfold payload_body in λ p. refl };
}

/// Whether a payload may have this Content-ID and this media text.
fn may_describe(cid: &Octets, media: &Octets) -> bool
    ensures { IsTrue result ↔ (IsContentId cid.now × IsTrue (is_media_text media.now)) }
{
    Word::Identifier.first_wrong(cid.bytes()).is_none() && is_media_text(media.bytes())
}

impl Readable for Route {
    ghost body = { route_body };

    ghost is_one = { IsSpelledRoute };

    fn read(alloc: Global, rest: &mut Rest) -> Result<Route, BodyRefusal> {
        match rest.take_byte()? {
            0 => Ok(Route::Push {
                address: <Text as Readable>::read(alloc, rest)?,
            }),
            1 => {
                let (mpc, address) = <(Text, Text)>::read(alloc, rest)?;
                Ok(Route::Pull { mpc, address })
            }
            _ => Err(BodyRefusal::NotBody),
        }
    }

    #[tactic(auto, using(crate::proofs::KindLemmas::route_once))]
    fn once() {}
}

impl Readable for Mark {
    ghost body = { mark_body };

    ghost is_one = { IsSpelledMark };

    fn read(alloc: Global, rest: &mut Rest) -> Result<Mark, BodyRefusal> {
        match rest.take_byte()? {
            0 => Ok(Mark::Pending),
            1 => Ok(Mark::Receipted),
            2 => Ok(Mark::Failed),
            3 => Ok(Mark::Refused {
                code: <Code as Readable>::read(alloc, rest)?,
            }),
            _ => Err(BodyRefusal::NotBody),
        }
    }

    #[tactic(auto, using(crate::proofs::KindLemmas::mark_once))]
    fn once() {}
}
