//! Signal messages.

ghost use Rattle.std.specs.Prelude.{IsTrue};
ghost use Rattle.as4_values.specs.SignalParts.{is_signal};

use crate::memory::NoMemory;
use crate::message_id::MessageId;
use crate::plain_data::{PlainData, try_clone_four};
use crate::signal_body::SignalBody;
use crate::stamp::StampText;
use std::alloc::Global;

/// `eb:SignalMessage` (ebMS 3.0 Core, section 5.2.3).
#[derive(Drop)]
pub struct Signal {
    pub stamp: StampText,
    pub id: MessageId,
    /// The message that this signal is about. A receipt has one.
    pub ref_to: Option<MessageId>,
    pub body: SignalBody,
    pub ghost whole: { IsTrue (is_signal ref_to body) },
}

impl PlainData for Signal {
    fn try_clone(&self, alloc: Global) -> Result<Signal, NoMemory> {
        let (stamp, id, ref_to, body) = try_clone_four(
            alloc,
            &self.stamp,
            &self.id,
            &self.ref_to,
            &self.body,
        )?;
        Ok(Signal {
            stamp,
            id,
            ref_to,
            body,
        })
    }

    fn same(&self, other: &Signal) -> bool {
        self.stamp.same(&other.stamp)
            && self.id.same(&other.id)
            && self.ref_to.same(&other.ref_to)
            && self.body.same(&other.body)
    }
}
