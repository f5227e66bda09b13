//! The files of a journal, as an audit reads them.
ghost use Rattle.std.specs.Prelude.{◌≡◌, ◌≢◌, ◌⊎◌, ◌∷◌, [], ℕ, List, if◌then◌else◌, Err, IfErr, IfOk};
ghost use Rattle.auditor.specs.Auditing.{Holds, IsUnpicked, IsUnread, Picks, ReadsAmong};
ghost use Rattle.handler.specs.Hosts.{files_of};
ghost use Rattle.journal.specs.Store.{picks};

use crate::ending::AuditEnd;
use as4_host::{FileGot, Host};
use as4_values::Octets;
use std::alloc::Global;

/// The most bytes of a leaf that is audited.
pub const LEAF_LIMIT: u64 = 1_073_741_824;

const _: () = prove!(LEAF_LIMIT == 1073741824);

/// Reads the leaf that the selector of a journal picks.
pub(crate) fn read_picked<H: Host>(
    alloc: Global,
    host: &mut H,
    journal: &str,
) -> Result<Octets, AuditEnd>
    ensures reads { ReadsAmong H.Host (files_of journal.now) host.old host.new }
    ensures leaf { IfOk result (Picks H.Host journal.now host.old) }
    ensures unread { IfErr result (IsUnpicked H.Host journal.now host.old (H.fault_count host.new)) }
    ensures faults { result ≢ Err AuditEnd.HostFault → H.fault_count host.new ≡ H.fault_count host.old }
{
    match (
        format!(in alloc; "{journal}.s"),
        format!(in alloc; "{journal}.1"),
    ) {
        (Ok(selector), Ok(second)) => {
            let leaf = read_by(alloc, host, &selector, journal, &second);
            drop(selector);
            drop(second);
            leaf
        }
        (selector, second) => {
            drop(selector);
            drop(second);
            Err(AuditEnd::NoMemory)
        }
    }
}

// Reads the selector at a path, and then the first leaf or the second.
fn read_by<H: Host>(
    alloc: Global,
    host: &mut H,
    selector: &str,
    first: &str,
    second: &str,
) -> Result<Octets, AuditEnd>
    ensures reads { ReadsAmong H.Host (first.now ∷ second.now ∷ selector.now ∷ []) host.old host.new }
    ensures leaf { IfOk result (λ leaf. (bytes : List ℕ) × Holds H.Host host.old selector.now bytes
        × Holds H.Host host.old (if picks bytes then second.now else first.now) leaf) }
    ensures unread { IfErr result (λ e. IsUnread H.Host selector.now host.old (H.fault_count host.new) e
        ⊎ IsUnread H.Host first.now host.old (H.fault_count host.new) e ⊎ IsUnread H.Host second.now host.old (H.fault_count host.new) e) }
    ensures faults { result ≢ Err AuditEnd.HostFault → H.fault_count host.new ≡ H.fault_count host.old }
{
    let picked = read(alloc, host, selector)?;
    let is_second = picks(picked.bytes());
    drop(picked);
    read(alloc, host, if is_second { second } else { first })
}

// Whether a selector with these bytes picks the second leaf.
fn picks(selector: &[u8]) -> bool
    ensures { result ≡ picks selector.now }
{
    match selector.first() {
        Some(byte) => byte % 2 == 1,
        None => false,
    }
}

// Reads a file of the journal. A file that is missing has no bytes.
fn read<H: Host>(alloc: Global, host: &mut H, path: &str) -> Result<Octets, AuditEnd>
    ensures reads { ReadsAmong H.Host (path.now ∷ []) host.old host.new }
    ensures bytes { IfOk result (Holds H.Host host.old path.now) }
    ensures unread { IfErr result (IsUnread H.Host path.now host.old (H.fault_count host.new)) }
    ensures faults { result ≢ Err AuditEnd.HostFault → H.fault_count host.new ≡ H.fault_count host.old }
{
    match host.read_file(path, LEAF_LIMIT) {
        FileGot::Bytes(bytes) => Ok(bytes),
        FileGot::Missing => Ok(Octets::of(Vec::new(alloc))),
        FileGot::TooLong => Err(AuditEnd::TooLong),
        FileGot::Failed => Err(AuditEnd::HostFault),
        FileGot::NoMemory => Err(AuditEnd::NoMemory),
    }
}
