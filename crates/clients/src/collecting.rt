//! The collection of received documents.

ghost use Rattle.std.specs.Prelude.{◌≡◌, ◌+◌, ◌≤◌, ◌^◌, ℕ, All};
ghost use Rattle.as4_flow.specs.Flow.{Told};
ghost use Rattle.clients.specs.Answered.{IsLastAnswer};
ghost use Rattle.clients.specs.Causes.{RisesIf, collect_faults, collect_outputs, collect_reads, collect_writes};
ghost use Rattle.clients.specs.Lines.{KeepsOthers, WritesLines, answer_of};
ghost use Rattle.clients.specs.Runs.{Collects, CollectsOver, Takes, run};
ghost use Rattle.clients.specs.Sent.{SendsRequests};

use crate::ending::CollectEnd;
use crate::fetching::visit;
use crate::telling::tell;
use as4_flow::Sink;
use as4_host::{Host, Link};
use std::alloc::Global;

/// Collects received documents from the service at an address: the entries of its inbox from number `first` on, at most
/// `count` of them. Each one's message file is written to the folder before the entry is confirmed.
///
/// To confirm an entry confirms those before it: they should be collected, too.
pub fn collect<H: Host, K: Sink>(
    alloc: Global,
    host: &mut H,
    address: &str,
    first: u64,
    count: u64,
    folder: &str,
    output: &mut K,
) -> CollectEnd
    requires range { first + count ≤ 2 ^ 64 }
    ensures collects { Collects H.Host H.Dialer.Link K.Sink address.now folder.now first count host.old host.new output.old output.new result }
    ensures reads { RisesIf (collect_reads result) (H.reads host.old) (H.reads host.new) }
    ensures writes { RisesIf (collect_writes result) (H.writes host.old) (H.writes host.new) }
    ensures faults { RisesIf (collect_faults result) (H.fault_count host.old) (H.fault_count host.new) }
    ensures output { RisesIf (collect_outputs result) (K.faults output.old) (K.faults output.new) }
    ensures lines { WritesLines H.Host folder.now (H.answers host.old) first count host.new (K.taken output.old) (K.taken output.new) result }
    ensures sent { SendsRequests H.Host address.now folder.now (H.answers host.old) first count host.new (H.sent host.new) result }
    ensures addresses { Told (H.addresses host.new) (All (λ a. a ≡ address.now)) }
    ensures ended { (j : ℕ) × Told (answer_of j (H.answers host.old)) (IsLastAnswer result) }
    ensures others { KeepsOthers H.Host folder.now first count host.old host.new }
{
    collect_by_link(alloc, host, address, first, count, folder, output)
}

// Collects over a new link.
fn collect_by_link<H: Host, K: Sink>(
    alloc: Global,
    host: &mut H,
    address: &str,
    first: u64,
    count: u64,
    folder: &str,
    output: &mut K,
) -> CollectEnd
    requires range { first + count ≤ 2 ^ 64 }
    ensures { Collects H.Host H.Dialer.Link K.Sink address.now folder.now first count host.old host.new output.old output.new result }
{
    let mut link = host.dialer();
    let end = collect_over(
        alloc, host, &mut link, address, first, count, folder, output,
    );
    host.settle_dialer(link);
    end
}

// Collects over a link.
fn collect_over<H: Host, L: Link, K: Sink>(
    alloc: Global,
    host: &mut H,
    link: &mut L,
    address: &str,
    first: u64,
    count: u64,
    folder: &str,
    output: &mut K,
) -> CollectEnd
    requires range { first + count ≤ 2 ^ 64 }
    ensures { CollectsOver H.Host L.Link address.now folder.now K.Sink first count
        (run host.old link.old output.old) (run host.new link.new output.new) result }
{
    for i in 0..count {
        match take(alloc, host, link, address, first + i, folder, output) {
            Ok(()) => {}
            Err(end) => return end,
        }
    }
    CollectEnd::Done
}

// Collects entry n, and writes its line.
fn take<H: Host, L: Link, K: Sink>(
    alloc: Global,
    host: &mut H,
    link: &mut L,
    address: &str,
    n: u64,
    folder: &str,
    output: &mut K,
) -> Result<(), CollectEnd>
    ensures takes { Takes H.Host L.Link address.now folder.now K.Sink n
        (run host.old link.old output.old) (run host.new link.new output.new) result }
{
    let visit = visit(alloc, host, link, address, folder, n);
    tell(output, n, visit)
}
