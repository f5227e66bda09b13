//! Submissions, deliveries and the effects that a compaction keeps.
ghost use Rattle.std.specs.Prelude.{ℕ, ◌<◌, ◌≤◌, IsTrue, IfSome};
ghost use Rattle.as4_values.specs.Pairing.{pair};
ghost use Rattle.as4_effects.specs.Sound.{is_id_of, is_route, delivered_body, fits_an_effect, submitted_body};

use crate::headers::{header_of, text};
use as4_effects::{
    Carried, Delivery, Kept, Mark, Submission, delivery_fits, header_fits, is_id_of, is_route,
    submission_fits,
};
use as4_values::{MAX_MOMENT, Payload, Route, Seq, UserHeader, pairs};
use std::alloc::Global;

/// The submission of this number to be pushed to `http://h/`, with this many retries and a period of one minute,
/// submitted at 1,000 ms, without payloads.
pub fn submission(alloc: Global, number: u64, retries: u32) -> Option<Submission> {
    if number >= 1_048_576 || retries > 1000 {
        return None;
    }
    let address = text(alloc, b"http://h/")?;
    submission_of(
        alloc,
        number,
        header_of(alloc, number)?,
        Route::Push { address },
        retries,
    )
}

/// The same, to be pulled from the channel `c`.
pub fn pulled(alloc: Global, number: u64, retries: u32) -> Option<Submission> {
    if number >= 1_048_576 || retries > 1000 {
        return None;
    }
    match (text(alloc, b"c"), text(alloc, b"http://h/")) {
        (Some(mpc), Some(address)) => {
            let route = Route::Pull { mpc, address };
            match header_of(alloc, number) {
                Some(header) => submission_of(alloc, number, header, route, retries),
                None => {
                    drop(route);
                    None
                }
            }
        }
        (mpc, address) => {
            drop(mpc);
            drop(address);
            None
        }
    }
}

// The submission with these values, if they form one.
fn submission_of(
    alloc: Global,
    number: u64,
    header: UserHeader,
    route: Route,
    retries: u32,
) -> Option<Submission>
    requires number { number < 1048576 }
    requires retries { retries ≤ 1000 }
{
    let payloads = Seq::of(Vec::new(alloc));
    match is_submission(alloc, number, &header, &payloads, &route) {
        Some(true) => Some(Submission {
            number,
            header,
            payloads,
            route,
            retries,
            period: 60_000,
            moment: 1000,
        }),
        _ => {
            drop(header);
            drop(payloads);
            drop(route);
            None
        }
    }
}

// Whether these values form a submission.
fn is_submission(
    alloc: Global,
    number: u64,
    header: &UserHeader,
    payloads: &Seq<Payload>,
    route: &Route,
) -> Option<bool>
    ensures { IfSome result (λ whole. IsTrue whole
        → IsTrue (is_id_of number header.now.id) × IsTrue (pair header.now.parts payloads.now) × IsTrue (is_route route.now)
        × ((retries : ℕ) → IsTrue (fits_an_effect (submitted_body number header.now payloads.now route.now retries 60000 1000)))) }
{
    let paired = pairs(alloc, header.parts.items(), payloads.items()).ok()?;
    let named = is_id_of(alloc, number, &header.id).ok()?;
    Some(paired && named && is_route(route) && submission_fits(header, payloads, route))
}

/// The message of the first submission, without payloads, as received.
pub fn delivery(alloc: Global) -> Option<Delivery> {
    delivery_of(alloc, header_of(alloc, 0)?, Seq::of(Vec::new(alloc)))
}

// The delivery of a message with this header and these payloads, if they form one.
pub(crate) fn delivery_of(
    alloc: Global,
    header: UserHeader,
    payloads: Seq<Payload>,
) -> Option<Delivery> {
    match is_delivery(alloc, &header, &payloads) {
        Some(true) => Some(Delivery { header, payloads }),
        _ => {
            drop(header);
            drop(payloads);
            None
        }
    }
}

// Whether these values form a delivery.
fn is_delivery(alloc: Global, header: &UserHeader, payloads: &Seq<Payload>) -> Option<bool>
    ensures { IfSome result (λ whole. IsTrue whole
        → IsTrue (pair header.now.parts payloads.now) × IsTrue (fits_an_effect (delivered_body header.now payloads.now))) }
{
    let paired = pairs(alloc, header.parts.items(), payloads.items()).ok()?;
    Some(paired && delivery_fits(header, payloads))
}

/// The submission after this number of tries, the last at this moment.
pub fn carried(submission: Submission, tries: u32, last: u64, standing: Mark) -> Option<Carried> {
    if last > MAX_MOMENT {
        drop(submission);
        drop(standing);
        return None;
    }
    Some(Carried {
        submission,
        tries,
        last,
        standing,
    })
}

/// The header of the message of the submission of this number, as kept after the message was confirmed.
pub fn kept(alloc: Global, number: u64) -> Option<Kept> {
    let header = header_of(alloc, number)?;
    if header_fits(&header) {
        Some(Kept { header })
    } else {
        drop(header);
        None
    }
}
