//! Pull requests.

ghost use Rattle.std.specs.Prelude.{◌≤◌, IfOk};
ghost use Rattle.as4_codes.specs.Signals.{IsPullOf, IsPairOf};

use crate::receipts::receipt;
use as4_values::{
    MAX_MOMENT, MessageId, NoMemory, Pair, PlainData, Signal, SignalBody, Text, UserHeader,
    stamp_text,
};
use std::alloc::Global;

/// The pull request for a channel (ebMS 3.0 Core, section 5.2.3.1), made at the moment `stamp`, in milliseconds since
/// 1970-01-01T00:00:00Z; the nonce makes its identifier.
pub fn pull_request(alloc: Global, mpc: &Text, stamp: u64, nonce: u128) -> Result<Signal, NoMemory>
    requires { stamp ≤ MAX_MOMENT }
    ensures { IfOk result (λ signal. IsPullOf mpc.now stamp nonce signal) }
{
    Ok(Signal {
        stamp: stamp_text(alloc, stamp)?,
        id: MessageId::of_signal(alloc, nonce)?,
        ref_to: None,
        body: SignalBody::Pull {
            mpc: mpc.try_clone(alloc)?,
        },
    })
}

/// The receipt of a user message, bundled with the next pull request for a channel. The nonce makes the identifier of
/// the pull request, and the next nonce that of the receipt.
pub fn receipt_with_pull(
    alloc: Global,
    header: &UserHeader,
    mpc: &Text,
    stamp: u64,
    nonce: u128,
) -> Result<Pair, NoMemory>
    requires { stamp ≤ MAX_MOMENT }
    ensures { IfOk result (λ pair. IsPairOf header.now mpc.now stamp nonce pair) }
{
    match (
        receipt(alloc, header, stamp, nonce.wrapping_add(1)),
        pull_request(alloc, mpc, stamp, nonce),
    ) {
        (Ok(receipt), Ok(pull)) => Ok(Pair { receipt, pull }),
        (receipt, pull) => {
            drop(receipt);
            drop(pull);
            Err(NoMemory)
        }
    }
}
