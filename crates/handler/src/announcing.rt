//! The line that a handler writes when it serves.
ghost use Rattle.std.specs.Prelude.{◌≡◌, ◌≤◌, ◌+◌, ◌-◌, ◌++◌, ℕ, IfOk, OnOk};
ghost use Rattle.std.specs.Fmt.{decimal};
ghost use Rattle.as4_flow.specs.Flow.{TakesFront};
ghost use Rattle.handler.specs.Announcing.{head_of, numbers_of};

use crate::setup::Setup;
use as4_flow::{Sink, send_all};
use as4_values::NoMemory;
use itoa::Buffer;
use office::Totals;
use std::alloc::Global;

/// Room for the numbers of the line and the words between them.
const NUMBERS: usize = 128;

/// The part of the line that is known before the journal is opened, with room for the rest.
pub(crate) fn begin_line(alloc: Global, setup: Setup<'_>) -> Result<Vec<u8>, NoMemory>
    ensures { IfOk result (λ head. head.items ≡ head_of setup.entry) }
{
    let Setup {
        peer,
        local,
        journal,
        ..
    } = setup;
    let mut head = format!(in alloc;
        "serving partners at {peer} and applications at {local}; journal {journal}: "
    )?.into_bytes();
    head.reserve(NUMBERS)?;
    Ok(head)
}

/// Writes the line. If the sink fails, a part of it may be missing. If memory runs out, nothing is written.
pub(crate) fn announce<E: Sink>(errors: &mut E, head: Vec<u8>, size: u64, totals: Totals)
    ensures line { TakesFront (head.items ++ numbers_of size (totals.submitted - (totals.receipted + totals.failed + totals.refused)) totals.inbox)
        (E.taken errors.old) (E.taken errors.new) }
    ensures counted { E.faults errors.old ≤ E.faults errors.new }
{
    let mut line = head;
    match finish(&mut line, size, totals) {
        Ok(()) => {
            let _ = send_all(errors, line.as_slice());
            drop(line);
        }
        Err(_) => drop(line),
    }
}

// The rest of the line: the size of the journal, the submissions that are pending, and the received messages.
#[tactic(auto, unfolding(crate::specs::Announcing::numbers_of))]
fn finish(line: &mut Vec<u8>, size: u64, totals: Totals) -> Result<(), NoMemory>
    ensures { OnOk result (line.new.items ≡ line.old.items
        ++ numbers_of size (totals.submitted - (totals.receipted + totals.failed + totals.refused)) totals.inbox) }
{
    number(line, size, b" bytes, ")?;
    number(line, pending(totals), b" pending, ")?;
    number(line, totals.inbox, b" received\n")
}

// The number of submissions that are pending.
fn pending(totals: Totals) -> u64
    ensures { result ≡ totals.submitted - (totals.receipted + totals.failed + totals.refused) }
{
    let ended = totals
        .receipted
        .saturating_add(totals.failed)
        .saturating_add(totals.refused);
    totals.submitted.saturating_sub(ended)
}

fn number(line: &mut Vec<u8>, value: u64, words: &[u8]) -> Result<(), NoMemory>
    ensures { OnOk result (line.new.items ≡ line.old.items ++ (decimal value ++ words.now)) }
{
    let mut digits = Buffer::new();
    line.extend_from_slice(digits.format(value).as_bytes())?;
    line.extend_from_slice(words)?;
    Ok(())
}
