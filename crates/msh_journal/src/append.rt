//! How a record of effects is made, and appended.
ghost use Rattle.std.specs.Prelude.{◌≡◌, ◌+◌, ◌≤◌, ◌^◌, [], List, None, IfErr, IfOk, IsOk, OnOk, is_ok, length};
ghost use Rattle.as4_disk.specs.Image.{Image};
ghost use Rattle.as4_disk.specs.Leaving.{LeavesOnly};
ghost use Rattle.as4_disk.specs.Runs.{MakesAll};
ghost use Rattle.as4_effects.specs.Effects.{effects_body, effects_limit};
ghost use Rattle.as4_effects.specs.declared.effect.Effect.{Effect as EffectValue};
ghost use Rattle.as4_flow.specs.Flow.{Told};
ghost use Rattle.exchange_model.specs.Apply.{applied, first_unfit};
ghost use Rattle.exchange_model.specs.End.{End};
ghost use Rattle.inbox.specs.Spots.{Spot};
ghost use Rattle.journal.specs.Calls.{record_calls};
ghost use Rattle.journal.specs.Faults.{CountsFault, IsDiskFault};
ghost use Rattle.journal.specs.Store.{leaf_of};
ghost use Rattle.msh_journal.specs.Frames.{IsFrameOf};
ghost use Rattle.msh_journal.specs.Payloads.{IsJournalWith};
ghost use Rattle.msh_recovery.specs.Opens.{IsAtOneOf, IsJournalOf};
ghost use Rattle.msh_recovery.specs.Records.{IsBodyOf, RecordLeads};
ghost use Rattle.msh_state.specs.Places.{places_after_all};

use as4_disk::Disk;
use as4_effects::Effect;
use as4_values::{NoMemory, Seq};
use event_code::{body_len, push_body};
use journal::{Frame, Journal, JournalFault};
use std::alloc::Global;

/// The record of these effects, as it is written; none where there are no effects.
pub fn frame_of(alloc: Global, effects: &Seq<Effect>) -> Result<Option<Frame>, NoMemory>
    requires counted { length effects.now ≤ effects_limit }
    requires short { length (effects_body effects.now) ≤ 2 ^ 30 }
    ensures frame { IfOk result (IsFrameOf effects.now) }
    ensures none { effects.now ≡ [] → IsOk result }
{
    if effects.items().is_empty() {
        return Ok(None);
    }
    let mut bytes = Frame::begin(alloc, body_len(effects) as usize)?;
    push_body(&mut bytes, effects)?;
    Ok(Some(Frame::end(bytes)?))
}

/// Appends the record, and answers its gate. At `Ok` it is on the disk; in the call a crash leaves the records with it or
/// without. It makes four device calls and takes no memory.
pub fn append_effects<D: Disk>(journal: &mut Journal<D>, frame: &Frame) -> Result<u64, JournalFault>
    requires ready { (end : End) × IsJournalOf D.Disk end journal.old
        × (end.size + (length frame.now + 9) ≤ 2 ^ 32) }
    ensures kept { OnOk result ((end next : End) → IsJournalOf D.Disk end journal.old
        → RecordLeads frame.now end next → IsJournalOf D.Disk next journal.new) }

    // What the effects deliver has its payloads in the record.
    ensures held { IfOk result (λ gate. (end : End) (places : List Spot) (effects : List EffectValue)
        → IsJournalWith D.Disk end places journal.old → IsBodyOf effects frame.now → first_unfit effects end ≡ None
        → IsJournalWith D.Disk (applied effects end) (places_after_all effects gate places) journal.new) }
    ensures gate { IfOk result (λ gate. gate ≡ journal.old.gate) }
    ensures any_moment { (end next : End) → IsJournalOf D.Disk end journal.old → RecordLeads frame.now end next
        → Told (D.seen journal.old.disk) (λ _. LeavesOnly D.Disk journal.old.disk journal.new.disk
        (λ (c : Image). IsAtOneOf c end next)) }
    ensures calls { MakesAll D.makes (record_calls (leaf_of journal.old.is_second) journal.old.gate frame.now)
        journal.old.disk journal.new.disk (is_ok result) }
    ensures faults { IfErr result IsDiskFault }
    ensures counts { CountsFault D.Disk journal.old.disk journal.new.disk result }
{
    let gate = journal.append(frame)?;
    Ok(gate)
}
