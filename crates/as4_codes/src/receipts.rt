//! Receipts.

ghost use Rattle.std.specs.Prelude.{◌≤◌, IfOk};
ghost use Rattle.as4_codes.specs.Signals.{IsReceiptOf};

use as4_values::{
    MAX_MOMENT, MessageId, NoMemory, PlainData, Signal, SignalBody, UserHeader, stamp_text,
};
use std::alloc::Global;

/// The receipt of a user message (ebMS 3.0 Core, section 5.2.3.3; AS4 Profile, section 5.1.8), made at the moment
/// `stamp`, in milliseconds since 1970-01-01T00:00:00Z; the nonce makes its identifier.
pub fn receipt(
    alloc: Global,
    header: &UserHeader,
    stamp: u64,
    nonce: u128,
) -> Result<Signal, NoMemory>
    requires { stamp ≤ MAX_MOMENT }
    ensures { IfOk result (λ signal. IsReceiptOf header.now stamp nonce signal) }
{
    let stamp = stamp_text(alloc, stamp)?;
    let id = MessageId::of_signal(alloc, nonce)?;
    let ref_to = Some(header.id.try_clone(alloc)?);
    let copy = Some(header.try_clone(alloc)?);
    Ok(Signal {
        stamp,
        id,
        ref_to,
        body: SignalBody::Receipt { copy },
    })
}
