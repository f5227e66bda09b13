//! Counts of faults.
ghost use Rattle.std.specs.Prelude.{◌≡◌, ℕ, ◌≤◌};
ghost use Rattle.as4_host.specs.Counts.{raised, HasNotRisen};

/// A count of faults after a stream with these faults was settled.
pub fn raised(faults: u64, count: u64) -> u64
    ensures value { result ≡ raised faults count }
    ensures counted { count ≤ result }
{
    if faults == 0 {
        count
    } else {
        count.saturating_add(1)
    }
}

/// A count that hasn't risen when a stream was settled says that the stream hasn't failed. A count that hasn't risen over
/// several calls hasn't risen in any of them.
pub fn a_settled_fault_is_counted()
    ensures settled { (faults count : ℕ) → HasNotRisen count (raised faults count) → faults ≡ 0 }
    ensures parts { (first between last : ℕ) → first ≤ between → between ≤ last → HasNotRisen first last
        → HasNotRisen first between × HasNotRisen between last }
{}
