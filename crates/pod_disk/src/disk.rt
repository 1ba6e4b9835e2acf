//! The contract of a disk: what its calls give, and what a crash may leave.

ghost use Rattle.std.specs.Prelude.{◌≡◌, ◌+◌, ◌<◌, ◌≤◌, ℕ, List, Option, Some, is_some, length};
ghost use Rattle.std.specs.Prelude.{take, drop, OnOk, IfOk};
ghost use Rattle.std.specs.Option.{option_map};
ghost use Rattle.pod_io.specs.Counts.{CountsFaults};
ghost use Rattle.pod_io.specs.Visible.{IfVisible};
ghost use Rattle.pod_disk.specs.declared.disk.TheConstants.{LENGTH_LIMIT};
ghost use Rattle.pod_disk.specs.Disk.{overwritten, Torn, TornCut, Unchanged, Passes};

use pod_io::Failed;

/// A disk has fewer bytes than this.
pub const LENGTH_LIMIT: u64 = 1 << 63;

/// A disk: one file, of less than 2^63 bytes, that nobody else writes.
///
/// Reads give its content. A crash leaves one of its crash images, which are other than the content
/// where what was written is not on the disk yet: between two syncs each written range, and all
/// past the old end, may hold any bytes. After a call that failed nothing is known of its range
/// until a later sync succeeds. The content is one of the images at that moment, and that is all
/// that such a call says of it.
pub trait Disk: Drop {
    /// What reads give, where the disk tells it. A disk that does not tell it has no crash images.
    ghost content: { Self → Option (List ℕ) };

    /// A crash now may leave this.
    ghost image: { Self → List ℕ → Type 0 };

    /// The moment, as a number that does not fall.
    ghost moment: { Self → ℕ };

    /// A crash at that moment or a later one may have left this.
    ghost left_since: { Self → ℕ → List ℕ → Type 0 };

    /// How many calls failed. The count stops at the end of a `u64`.
    ghost faults: { Self → ℕ };

    /// What reads give is one of the images now.
    ghost reads_image: { (disk : Self) (b : List ℕ) → content disk ≡ Some b → image disk b };

    /// This moment is one of those since an earlier one.
    ghost counts_now: { (disk : Self) (t : ℕ) (c : List ℕ) → t ≤ moment disk → image disk c
        → left_since disk t c };

    /// Since this moment there is no other.
    ghost only_now: { (disk : Self) (c : List ℕ) → left_since disk (moment disk) c → image disk c };

    /// How many bytes the disk holds.
    fn len(&mut self) -> Result<u64, Failed>
        ensures len { IfOk result (λ n. IfVisible (content self.old) (λ b. n ≡ length b)) }
        ensures below { IfOk result (λ n. n < LENGTH_LIMIT) }
        ensures content { OnOk result (content self.new ≡ content self.old) }
        ensures visible { is_some (content self.new) ≡ is_some (content self.old) }
        ensures passes { Passes image moment left_since Unchanged self.old self.new }
        ensures faults { CountsFaults result (faults self.old) (faults self.new) };

    /// Reads as many bytes of the disk as `into` has, from the offset `at` on. They lie within the
    /// length.
    fn read(&mut self, at: u64, into: &mut [u8]) -> Result<(), Failed>
        requires { IfVisible (content self.old) (λ b. at + length into.old ≤ length b) }
        ensures bytes { OnOk result
            (IfVisible (content self.old) (λ b. into.new ≡ take (length into.old) (drop at b))) }
        ensures content { OnOk result (content self.new ≡ content self.old) }
        ensures visible { is_some (content self.new) ≡ is_some (content self.old) }
        ensures passes { Passes image moment left_since Unchanged self.old self.new }
        ensures faults { CountsFaults result (faults self.old) (faults self.new) };

    /// Writes the bytes over those of the disk from the offset `at` on, which is no greater than
    /// the length. A write that would reach 2^63 bytes fails. Until a sync succeeds a crash may
    /// leave any bytes in the range and past the old end.
    fn write_at(&mut self, at: u64, bytes: &[u8]) -> Result<(), Failed>
        requires { IfVisible (content self.old) (λ b. at ≤ length b) }
        ensures content { OnOk result
            (content self.new ≡ option_map (overwritten at bytes.now) (content self.old)) }
        ensures visible { is_some (content self.new) ≡ is_some (content self.old) }
        ensures room { OnOk result (at + length bytes.now < LENGTH_LIMIT) }
        ensures passes { Passes image moment left_since
            (Torn at (length bytes.now)) self.old self.new }
        ensures faults { CountsFaults result (faults self.old) (faults self.new) };

    /// Cuts the disk to `len` bytes, which is no more than it holds. Until a sync succeeds a crash
    /// may leave any length between.
    fn cut(&mut self, len: u64) -> Result<(), Failed>
        requires { IfVisible (content self.old) (λ b. len ≤ length b) }
        ensures content { OnOk result
            (content self.new ≡ option_map (take len) (content self.old)) }
        ensures visible { is_some (content self.new) ≡ is_some (content self.old) }
        ensures passes { Passes image moment left_since (TornCut len) self.old self.new }
        ensures faults { CountsFaults result (faults self.old) (faults self.new) };

    /// Waits until all is on the disk: from then on a crash leaves what reads give. Where it fails,
    /// reads may give any of the images.
    fn sync(&mut self) -> Result<(), Failed>
        ensures durable { OnOk result ((c : List ℕ) → image self.new c
            → content self.new ≡ Some c) }
        ensures content { OnOk result (content self.new ≡ content self.old) }
        ensures visible { is_some (content self.new) ≡ is_some (content self.old) }
        ensures passes { Passes image moment left_since Unchanged self.old self.new }
        ensures faults { CountsFaults result (faults self.old) (faults self.new) };
}
