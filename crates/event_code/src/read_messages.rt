//! Reads submissions and deliveries, and the carried and kept forms of them. The caller has read the byte of the kind.

ghost use Rattle.std.specs.Prelude.{◌≡◌, ◌++◌, refl, IfOk, IsErrOf};
ghost use Rattle.std.proofs.Common.{arith, append_assoc};
ghost use Rattle.byte_forms.specs.Forms.{Refuses};
ghost use Rattle.as4_effects.proofs.CountLemmas.{sent_counted, came_counted};
ghost use Rattle.as4_effects.proofs.PartLemmas.{submission_told, delivery_told, tick_told, kept_told};
ghost use Rattle.as4_effects.specs.Bodies.{number_body, list_body, header_body, payload_body};
ghost use Rattle.as4_effects.specs.Effects.{fields_body, standing_body};
ghost use Rattle.as4_effects.specs.Parts.{submission_parts, delivery_parts};
ghost use Rattle.event_code.specs.Spelled.{IsSpelledPayload, IsSpelledHeader, IsSpelledSubmission, IsSpelledDelivery, IsSpelledCarried};

use crate::reading::{Parted, Readable, once_by_parts, read_by_parts};
use crate::refusal::BodyRefusal;
use crate::rest::Rest;
use crate::whole::{Sent, is_delivery, is_submission};
use as4_effects::{Carried, Delivery, Kept, Mark, Submission, Tick, header_fits};
use as4_values::{MAX_MOMENT, NoMemory, Payload, Seq, UserHeader};
use std::alloc::Global;

impl Readable for Submission {
    ghost body = { fields_body };

    ghost is_one = { IsSpelledSubmission };

    fn read(alloc: Global, rest: &mut Rest) -> Result<Submission, BodyRefusal> {
        read_by_parts(alloc, rest)
    }

    fn once() {
        once_by_parts::<Submission>()
    }
}

impl Parted for Submission {
    type Parts = Sent;

    ghost whole_body = { fields_body };

    ghost is_whole = { IsSpelledSubmission };

    ghost parts = { submission_parts };

    fn of_parts(alloc: Global, these: Sent) -> Result<Submission, BodyRefusal> {
        match is_submission(alloc, &these) {
            Ok(true) => {
                let (((number, header), (payloads, route)), (retries, (period, moment))) = these;
                Ok(Submission {
                    number,
                    header,
                    payloads,
                    route,
                    retries,
                    period,
                    moment,
                })
            }
            Ok(false) => {
                drop(these);
                Err(BodyRefusal::NotBody)
            }
            Err(NoMemory) => {
                drop(these);
                Err(BodyRefusal::NoMemory)
            }
        }
    }

    ghost told = { submission_told };

    ghost kept = { unfold IsSpelledSubmission in unfold IsSpelledPayload in λ s. (
      λ is. (
        ((Prim.omega (arith, s.numbered), is.0), (sent_counted s, is.1)),
        (Prim.omega (arith, s.limited), (Prim.omega (arith, s.timed.1), Prim.omega (arith, s.dated))),
      ),
      λ h. (h.0.0.1, h.0.1.1),
    ) };

    ghost same = { λ s. Prim.simp append_assoc };
}

impl Readable for Delivery {
    ghost body = { λ d. header_body d.header ++ list_body payload_body d.payloads };

    ghost is_one = { IsSpelledDelivery };

    fn read(alloc: Global, rest: &mut Rest) -> Result<Delivery, BodyRefusal> {
        read_by_parts(alloc, rest)
    }

    fn once() {
        once_by_parts::<Delivery>()
    }
}

impl Parted for Delivery {
    type Parts = (UserHeader, Seq<Payload>);

    ghost whole_body = { λ d. header_body d.header ++ list_body payload_body d.payloads };

    ghost is_whole = { IsSpelledDelivery };

    ghost parts = { delivery_parts };

    fn of_parts(alloc: Global, these: Self::Parts) -> Result<Delivery, BodyRefusal> {
        match is_delivery(alloc, &these) {
            Ok(true) => {
                let (header, payloads) = these;
                Ok(Delivery { header, payloads })
            }
            Ok(false) => {
                drop(these);
                Err(BodyRefusal::NotBody)
            }
            Err(NoMemory) => {
                drop(these);
                Err(BodyRefusal::NoMemory)
            }
        }
    }

    ghost told = { delivery_told };

    ghost kept = { unfold IsSpelledDelivery in unfold IsSpelledPayload in λ d. (λ is. (is, came_counted d), λ h. h.0) };

    ghost same = { λ d. refl };
}

impl Readable for Tick {
    ghost body = { λ tick. number_body 8 tick.moment };

    ghost is_one = { λ tick. Unit {0} };

    fn read(alloc: Global, rest: &mut Rest) -> Result<Tick, BodyRefusal> {
        read_by_parts(alloc, rest)
    }

    fn once() {
        once_by_parts::<Tick>()
    }
}

impl Parted for Tick {
    type Parts = u64;

    ghost whole_body = { λ tick. number_body 8 tick.moment };

    ghost is_whole = { λ tick. Unit {0} };

    ghost parts = { λ tick. tick.moment };

    fn of_parts(_alloc: Global, these: u64) -> Result<Tick, BodyRefusal> {
        if these > MAX_MOMENT {
            return Err(BodyRefusal::NotBody);
        }
        Ok(Tick { moment: these })
    }

    ghost told = { tick_told };

    ghost kept = { λ tick. (λ is. Prim.omega (arith, tick.dated), λ h. tt) };

    ghost same = { λ tick. refl };
}

impl Readable for Kept {
    ghost body = { λ kept. header_body kept.header };

    ghost is_one = { λ kept. IsSpelledHeader kept.header };

    fn read(alloc: Global, rest: &mut Rest) -> Result<Kept, BodyRefusal> {
        read_by_parts(alloc, rest)
    }

    fn once() {
        once_by_parts::<Kept>()
    }
}

impl Parted for Kept {
    type Parts = UserHeader;

    ghost whole_body = { λ kept. header_body kept.header };

    ghost is_whole = { λ kept. IsSpelledHeader kept.header };

    ghost parts = { λ kept. kept.header };

    fn of_parts(_alloc: Global, these: UserHeader) -> Result<Kept, BodyRefusal> {
        if !header_fits(&these) {
            drop(these);
            return Err(BodyRefusal::NotBody);
        }
        Ok(Kept { header: these })
    }

    ghost told = { kept_told };

    ghost kept = { λ kept. (λ is. is, λ h. h) };

    ghost same = { λ kept. refl };
}

/// Reads a submission with its state, after the byte of the kind.
pub fn read_carried(alloc: Global, rest: &mut Rest) -> Result<Carried, BodyRefusal>
    ensures found { IfOk result (λ carried. IsSpelledCarried carried × (rest.old ≡ standing_body carried ++ rest.new)) }
    ensures not_body { IsErrOf result BodyRefusal.NotBody → Refuses IsSpelledCarried standing_body rest.old }
{
    // Laws: no bytes begin with two submissions.
    Submission::once();
    let submission = Submission::read(alloc, rest)?;
    match <(u32, (Tick, Mark))>::read(alloc, rest) {
        Ok((tries, (Tick { moment }, standing))) => Ok(Carried {
            submission,
            tries,
            last: moment,
            standing,
        }),
        Err(refusal) => {
            drop(submission);
            Err(refusal)
        }
    }
}
