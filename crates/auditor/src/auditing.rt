//! The audit of the journal at a path.
ghost use Rattle.std.specs.Prelude.{◌≡◌, ◌≢◌, ◌∷◌, IfErr, IfOk, ℕ, map};
ghost use Rattle.auditor.specs.Auditing.{AuditsBy, AuditsLeaf, IsShownAs, ReadsAmong, TellsFaults, TellsText};
ghost use Rattle.auditor.specs.Lines.{IsTextFor};
ghost use Rattle.handler.specs.Hosts.{files_of};
ghost use Rattle.journal.specs.Leaf.{IsBroken};

use crate::ending::{AuditEnd, found, refused, unread};
use crate::files::read_picked;
use crate::form::Form;
use crate::lines::{drawing_of, text_of};
use as4_audit::{AuditRefusal, Finding, check};
use as4_flow::{SendFailed, Sink, send_all};
use as4_host::Host;
use as4_values::NoMemory;
use handler::read_modes;
use journal::{LeafRefusal, lend_records};
use pmodes::Modes;
use std::alloc::Global;

/// Audits the journal at a path by the modes of a file. It writes a line for each change after the start of the leaf,
/// up to the first record that isn't right, and then `yes` with the number of events, or `no` with the place of that
/// record; or it draws them. It changes no file, and locks none.
pub fn audit_journal<H: Host, O: Sink>(
    alloc: Global,
    host: &mut H,
    modes: &str,
    journal: &str,
    form: Form,
    output: &mut O,
) -> AuditEnd
    ensures audits { AuditsBy H.Host modes.now journal.now form host.old host.new (O.taken output.old) (O.taken output.new) result }
    ensures reads { ReadsAmong H.Host (modes.now ∷ files_of journal.now) host.old host.new }
    ensures host { TellsFaults AuditEnd.HostFault result (H.fault_count host.old) (H.fault_count host.new) }
    ensures faults { TellsFaults AuditEnd.WriteFault result (O.faults output.old) (O.faults output.new) }
{
    let modes = match read_modes(alloc, host, modes) {
        Ok(modes) => modes,
        Err(end) => return unread(end),
    };
    let end = match read_picked(alloc, host, journal) {
        Ok(leaf) => {
            let end = audit_leaf(alloc, &modes, leaf.bytes(), form, output);
            drop(leaf);
            end
        }
        Err(end) => end,
    };
    drop(modes);
    end
}

// Audits a leaf, and writes the lines.
fn audit_leaf<O: Sink>(
    alloc: Global,
    modes: &Modes,
    leaf: &[u8],
    form: Form,
    output: &mut O,
) -> AuditEnd
    ensures audits { AuditsLeaf modes.now form leaf.now (O.taken output.old) (O.taken output.new) result }
    ensures faults { TellsFaults AuditEnd.WriteFault result (O.faults output.old) (O.faults output.new) }
    ensures here { result ≢ AuditEnd.HostFault }
{
    match check(alloc, modes, leaf) {
        Ok(finding) => tell(alloc, leaf, form, finding, output),
        Err(refusal) => refused(refusal),
    }
}

// Writes the text of an audit of this leaf.
fn tell<O: Sink>(
    alloc: Global,
    leaf: &[u8],
    form: Form,
    finding: Finding,
    output: &mut O,
) -> AuditEnd
    ensures tells { TellsText form leaf.now finding (O.taken output.old) (O.taken output.new) result }
    ensures faults { TellsFaults AuditEnd.WriteFault result (O.faults output.old) (O.faults output.new) }
    ensures here { result ≢ AuditEnd.HostFault }
{
    match text_of_leaf(alloc, leaf, form, finding) {
        Ok(text) => {
            let end = match send_all(output, &text) {
                Ok(()) => found(finding),
                Err(SendFailed) => AuditEnd::WriteFault,
            };
            drop(text);
            end
        }
        Err(refusal) => refused(refusal),
    }
}

// The text of an audit of this leaf.
fn text_of_leaf(
    alloc: Global,
    leaf: &[u8],
    form: Form,
    finding: Finding,
) -> Result<Vec<u8>, AuditRefusal>
    ensures text { IfOk result (λ text. IsShownAs form leaf.now finding text.items) }
    ensures not_journal { IfErr result (λ e. (at : ℕ) → e ≡ AuditRefusal.NotJournal at → IsBroken at leaf.now) }
{
    let bodies = match lend_records(alloc, leaf) {
        Ok(bodies) => bodies,
        Err(LeafRefusal::NotJournal { at }) => return Err(AuditRefusal::NotJournal { at }),
        Err(LeafRefusal::NoMemory) => return Err(AuditRefusal::NoMemory),
    };
    let text = shown_as(alloc, form, &bodies, finding);
    drop(bodies);
    match text {
        Ok(text) => Ok(text),
        Err(NoMemory) => Err(AuditRefusal::NoMemory),
    }
}

// The records of an audit that found this, in this form.
fn shown_as(
    alloc: Global,
    form: Form,
    bodies: &[&[u8]],
    finding: Finding,
) -> Result<Vec<u8>, NoMemory>
    ensures { form ≡ Form.Lines → IfOk result (λ text. IsTextFor (map (λ body. body.now) bodies.now) finding text.items) }
{
    match form {
        Form::Lines => text_of(alloc, bodies, finding),
        Form::Drawing => drawing_of(alloc, bodies, finding),
    }
}
