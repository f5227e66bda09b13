//! Submissions.

ghost use Rattle.std.specs.Prelude.{◌<◌, ◌≤◌, IsTrue};
ghost use Rattle.as4_values.specs.declared.moment.TheConstants.{MAX_MOMENT};
ghost use Rattle.mode_values.specs.ModeRanges.{IsRetries, IsPeriod};
ghost use Rattle.as4_values.specs.Pairing.{pair};
ghost use Rattle.as4_effects.specs.Sound.{is_id_of, is_route, submitted_body, fits_an_effect};

use as4_values::{NoMemory, Payload, PlainData, Route, Seq, UserHeader};
use std::alloc::Global;

/// A user message that was submitted.
#[derive(Drop)]
pub struct Submission {
    /// The number of submissions before it: below 1,048,576.
    pub number: u64,
    /// Its identifier is made of the number and a nonce.
    pub header: UserHeader,
    /// Each is named by one part info.
    pub payloads: Seq<Payload>,
    pub route: Route,
    /// How often it is sent again: 0 to 1,000 times.
    pub retries: u32,
    /// The time between two tries, 1 to 1,000,000,000 milliseconds.
    pub period: u64,
    /// When it was submitted, in milliseconds since 1970, before the year 10,000.
    pub moment: u64,
    pub ghost numbered: { number < 1048576 },
    pub ghost identified: { IsTrue (is_id_of number header.id) },
    pub ghost paired: { IsTrue (pair header.parts payloads) },
    pub ghost routed: { IsTrue (is_route route) },
    pub ghost limited: { IsRetries retries },
    pub ghost timed: { IsPeriod period },
    pub ghost dated: { moment ≤ MAX_MOMENT },
    pub ghost fits: { IsTrue (fits_an_effect (submitted_body number header payloads route retries period moment)) },
}

impl PlainData for Submission {
    fn try_clone(&self, alloc: Global) -> Result<Submission, NoMemory> {
        match (
            self.header.try_clone(alloc),
            self.payloads.try_clone(alloc),
            self.route.try_clone(alloc),
        ) {
            (Ok(header), Ok(payloads), Ok(route)) => Ok(Submission {
                number: self.number,
                header,
                payloads,
                route,
                retries: self.retries,
                period: self.period,
                moment: self.moment,
            }),
            (header, payloads, route) => {
                drop(header);
                drop(payloads);
                drop(route);
                Err(NoMemory)
            }
        }
    }

    fn same(&self, other: &Submission) -> bool {
        self.number == other.number
            && self.header.same(&other.header)
            && self.payloads.same(&other.payloads)
            && self.route.same(&other.route)
            && self.retries == other.retries
            && self.period == other.period
            && self.moment == other.moment
    }
}
