//! Writes the envelopes of message units.
ghost use Rattle.std.specs.Prelude.{◌≡◌, ◌++◌, IfOk};
ghost use Rattle.message_model.specs.UnitText.{envelope_start, envelope_end, envelope_text, unit_text, user_message, signal_message, pair_text};

use crate::written::Written;
use as4_values::{NoMemory, Octets, Pair, Signal, Unit, UserHeader};
use std::alloc::Global;

const ENVELOPE_START: &[u8] =
    b"<S:Envelope xmlns:S=\"http://www.w3.org/2003/05/soap-envelope\" xmlns:eb=\"http://docs.oasis-open.org/ebxml-msg/ebms/v3.0/ns/core/200704/\"><S:Header><eb:Messaging S:mustUnderstand=\"true\">";

const ENVELOPE_END: &[u8] = b"</eb:Messaging></S:Header><S:Body></S:Body></S:Envelope>";

/// The envelope of a message unit (SOAP 1.2 Part 1, section 5.1; ebMS 3.0 Core, section 5.2): its one
/// canonical text, in UTF-8.
pub fn write_envelope(alloc: Global, unit: &Unit) -> Result<Octets, NoMemory>
    ensures { IfOk result (λ text. text ≡ envelope_text (unit_text unit.now)) }
{
    envelope_of(alloc, unit)
}

/// The envelope of a user message.
pub fn write_user_envelope(alloc: Global, header: &UserHeader) -> Result<Octets, NoMemory>
    ensures { IfOk result (λ text. text ≡ envelope_text (user_message header.now)) }
{
    envelope_of(alloc, header)
}

/// The envelope of a signal.
pub fn write_signal_envelope(alloc: Global, signal: &Signal) -> Result<Octets, NoMemory>
    ensures { IfOk result (λ text. text ≡ envelope_text (signal_message signal.now)) }
{
    envelope_of(alloc, signal)
}

/// The envelope of a receipt and the pull request that is bundled with it.
pub fn write_pair_envelope(alloc: Global, pair: &Pair) -> Result<Octets, NoMemory>
    ensures { IfOk result (λ text. text ≡ envelope_text (pair_text pair.now)) }
{
    envelope_of(alloc, pair)
}

#[tactic(auto, unfolding(message_model::specs::UnitText::envelope_start, message_model::specs::UnitText::envelope_end))]
fn envelope_of<T: Written>(alloc: Global, unit: &T) -> Result<Octets, NoMemory>
    ensures { IfOk result (λ text. text ≡ envelope_text (T.text unit.now)) }
{
    let mut out = Vec::with_capacity(alloc, 1024)?;
    out.extend_from_slice(ENVELOPE_START)?;
    unit.push_to(&mut out)?;
    out.extend_from_slice(ENVELOPE_END)?;
    Ok(Octets::of(out))
}

impl Written for Unit {
    ghost text = { unit_text };

    fn push_to(&self, out: &mut Vec<u8>) -> Result<(), NoMemory> {
        match self {
            Unit::User(header) => header.push_to(out),
            Unit::Signal(signal) => signal.push_to(out),
            Unit::Pair(pair) => pair.push_to(out),
        }
    }
}
