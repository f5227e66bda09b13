//! Deliveries.

ghost use Rattle.std.specs.Prelude.{IsTrue};
ghost use Rattle.as4_values.specs.Pairing.{pair};
ghost use Rattle.as4_effects.specs.Sound.{delivered_body, fits_an_effect};

use as4_values::{NoMemory, Payload, PlainData, Seq, UserHeader};
use std::alloc::Global;

/// A user message that was received and is in the inbox.
#[derive(Drop)]
pub struct Delivery {
    pub header: UserHeader,
    /// In the order of the package; each is named by one part info.
    pub payloads: Seq<Payload>,
    pub ghost paired: { IsTrue (pair header.parts payloads) },
    pub ghost fits: { IsTrue (fits_an_effect (delivered_body header payloads)) },
}

impl PlainData for Delivery {
    fn try_clone(&self, alloc: Global) -> Result<Delivery, NoMemory> {
        let header = self.header.try_clone(alloc)?;
        match self.payloads.try_clone(alloc) {
            Ok(payloads) => Ok(Delivery { header, payloads }),
            Err(error) => {
                drop(header);
                Err(error)
            }
        }
    }

    fn same(&self, other: &Delivery) -> bool {
        self.header.same(&other.header) && self.payloads.same(&other.payloads)
    }
}
