//! A write that is durable once it has answered.
ghost use Rattle.std.specs.Prelude.{◌≡◌, ◌≤◌, [], ◌∷◌, length, is_ok, OnOk};
ghost use Rattle.as4_flow.specs.Flow.{Told};
ghost use Rattle.as4_disk.specs.Bytes.{IsOverwritten, Torn};
ghost use Rattle.as4_disk.specs.Leaving.{Counts, LeavesOnly};
ghost use Rattle.as4_disk.specs.Runs.{Goes, Follows, MakesAll};
ghost use Rattle.as4_disk.specs.Image.{On, IsOnly, TornFrom};
ghost use Rattle.as4_disk.specs.declared.change.Change.TheVariants.{Synced, Wrote};

use crate::{Disk, DiskFailed, Part};

/// Writes to a part and syncs it: two device calls. At Ok each crash leaves of the part what a read gives; at any
/// moment of the call one leaves what it might have left before, after a write that may be cut short.
pub fn write_durably<D: Disk>(
    disk: &mut D,
    part: Part,
    at: u64,
    bytes: &[u8],
) -> Result<(), DiskFailed>
    requires { Told (D.seen disk.old) (λ b. at ≤ length (b part)) }
    ensures written { OnOk result
        (Goes (On part (IsOverwritten at bytes.now)) (D.seen disk.old) (D.seen disk.new)) }
    ensures durable { OnOk result (Told (D.seen disk.new) (λ b. IsOnly part b (D.may_leave disk.new))) }
    ensures calls { MakesAll D.makes (Wrote part at bytes.now ∷ Synced part ∷ []) disk.old disk.new (is_ok result) }

    ensures any_moment { LeavesOnly D.Disk disk.old disk.new
        (TornFrom part at (length bytes.now) (D.may_leave disk.old)) }
    ensures crash { Follows (On part (Torn at (length bytes.now))) (D.may_leave disk.old) (D.may_leave disk.new) }
    ensures counts { Counts D.Disk disk.old disk.new result }
{
    disk.write_at(part, at, bytes)?;
    disk.sync(part)
}
