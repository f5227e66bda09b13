//! A disk of three parts with one time, as the layers above see it.
//!
//!     read       gives what was written last, whatever is durable of it
//!     write, cut change what a read gives at once, and what a crash leaves at some time before the next sync
//!     sync       settles one part: from then on a crash leaves of it what a read gives
//!
//! A crash may come at any moment, during a call or between two. It leaves one of the disk's images: of each part some
//! bytes. Between two syncs of a part, a range that was written and what lies past the part's old end may hold any
//! bytes, the others stay, and the part may have any length between the least and the greatest that it had.
ghost use Rattle.std.specs.Prelude.{◌≡◌, ℕ, ◌+◌, ◌≤◌, Bool, Option, length, take, drop, is_ok, is_some, IfOk, OnOk};
ghost use Rattle.as4_flow.specs.Flow.{Told};
ghost use Rattle.as4_disk.specs.Bytes.{IsOverwritten, Torn, IsCut, TornCut};
ghost use Rattle.as4_disk.specs.Faults.{HasCause};
ghost use Rattle.as4_disk.specs.Runs.{Goes, Follows, Within, Elapses};
ghost use Rattle.as4_disk.specs.Image.{Image, On, IsOnly, KeepsOthers};
ghost use Rattle.as4_disk.specs.declared.change.Change.{Change};
ghost use Rattle.as4_disk.specs.declared.change.Change.TheVariants.{Wrote, WasCut, Synced};

use crate::Part;

/// A device call failed. It has done its work, a part of it or nothing; only what a crash may leave is known.
#[derive(Clone, Copy, Debug, PartialEq, Eq)]
pub struct DiskFailed;

pub trait Disk {
    /// The bytes that a read gives, where the disk's content is observable.
    ghost seen: { Self → Option Image };

    /// What a crash at this moment may leave.
    ghost may_leave: { Self → Image → Type 0 };

    /// The moment, a number that doesn't fall.
    ghost moment: { Self → ℕ };

    /// What a crash at some moment from that one on might have left, during a call or between two.
    ghost left_since: { Self → ℕ → Image → Type 0 };

    /// How many faults there were, up to the last value of a `u64`.
    ghost fault_count: { Self → ℕ };

    /// What the disk says of a call that makes a change, where it leads from one state to another and whether it answers
    /// Ok. A disk that doesn't count its calls says nothing.
    ghost makes: { Change → Self → Self → Bool → Type 0 };

    /// How many bytes the part has.
    fn len(&mut self, part: Part) -> Result<u64, DiskFailed>
        ensures value { IfOk result (λ len. Told (seen self.old) (λ b. len ≡ length (b part))) }
        ensures seen { seen self.new ≡ seen self.old }
        ensures crash { Within (may_leave self.old) (may_leave self.new) }
        ensures time { Elapses (moment self.old) (moment self.new)
            (left_since self.old) (left_since self.new) (may_leave self.new) }
        ensures cause { HasCause (fault_count self.old) (fault_count self.new) result };

    /// Fills the room with the part's bytes from `at` on. A disk that doesn't tell fails where the part has fewer.
    /// Where it fails, the room may hold anything.
    fn read_at(&mut self, part: Part, at: u64, room: &mut [u8]) -> Result<(), DiskFailed>
        requires { Told (seen self.old) (λ b. at + length room.old ≤ length (b part)) }
        ensures bytes { OnOk result
            (Told (seen self.old) (λ b. room.new ≡ take (length room.old) (drop at (b part)))) }
        ensures seen { seen self.new ≡ seen self.old }
        ensures crash { Within (may_leave self.old) (may_leave self.new) }
        ensures time { Elapses (moment self.old) (moment self.new)
            (left_since self.old) (left_since self.new) (may_leave self.new) }
        ensures cause { HasCause (fault_count self.old) (fault_count self.new) result };

    /// Writes over what is there, and past the end. A disk that doesn't tell fails where the part ends before `at`.
    fn write_at(&mut self, part: Part, at: u64, bytes: &[u8]) -> Result<(), DiskFailed>
        requires { Told (seen self.old) (λ b. at ≤ length (b part)) }
        ensures written { OnOk result
            (Goes (On part (IsOverwritten at bytes.now)) (seen self.old) (seen self.new)) }
        ensures tells { is_some (seen self.new) ≡ is_some (seen self.old) }
        ensures crash { Follows (On part (Torn at (length bytes.now))) (may_leave self.old) (may_leave self.new) }
        ensures makes { makes (Wrote part at bytes.now) self.old self.new (is_ok result) }
        ensures time { Elapses (moment self.old) (moment self.new)
            (left_since self.old) (left_since self.new) (may_leave self.new) }
        ensures cause { HasCause (fault_count self.old) (fault_count self.new) result };

    /// Cuts the part to this length. A disk that doesn't tell fails where the part is shorter.
    fn cut(&mut self, part: Part, len: u64) -> Result<(), DiskFailed>
        requires { Told (seen self.old) (λ b. len ≤ length (b part)) }
        ensures written { OnOk result (Goes (On part (IsCut len)) (seen self.old) (seen self.new)) }
        ensures tells { is_some (seen self.new) ≡ is_some (seen self.old) }
        ensures crash { Follows (On part (TornCut len)) (may_leave self.old) (may_leave self.new) }
        ensures makes { makes (WasCut part len) self.old self.new (is_ok result) }
        ensures time { Elapses (moment self.old) (moment self.new)
            (left_since self.old) (left_since self.new) (may_leave self.new) }
        ensures cause { HasCause (fault_count self.old) (fault_count self.new) result };

    /// Where it answers Ok, each crash from now on leaves of this part what a read gives. Where it fails, nothing is
    /// settled. What a crash may leave of the other parts stays as it was.
    fn sync(&mut self, part: Part) -> Result<(), DiskFailed>
        ensures durable { OnOk result (Told (seen self.old) (λ b. IsOnly part b (may_leave self.new))) }
        ensures seen { seen self.new ≡ seen self.old }
        ensures crash { Within (may_leave self.old) (may_leave self.new) }
        ensures others { KeepsOthers part (may_leave self.old) (may_leave self.new) }
        ensures makes { makes (Synced part) self.old self.new (is_ok result) }
        ensures time { Elapses (moment self.old) (moment self.new)
            (left_since self.old) (left_since self.new) (may_leave self.new) }
        ensures cause { HasCause (fault_count self.old) (fault_count self.new) result };

    /// How many calls have failed, up to the last value of a `u64`.
    fn faults(&self) -> u64
        ensures { result ≡ fault_count self.now };

    /// The disk as it reads is one of its images.
    ghost reads_now: { (disk : Self) → Told (seen disk) (may_leave disk) };

    /// This moment is one of those since an earlier one.
    ghost counts_now: { (disk : Self) (t : ℕ) (c : Image) → t ≤ moment disk → may_leave disk c → left_since disk t c };

    /// Since this moment there is no other.
    ghost only_now: { (disk : Self) (c : Image) → left_since disk (moment disk) c → may_leave disk c };
}
