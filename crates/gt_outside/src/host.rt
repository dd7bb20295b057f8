// Who keeps the disks and hands them out.
ghost use Rattle.std.specs.Prelude.{◌≡◌, ◌≢◌, ℕ, Bool, true, false, IfOk, OnOk, OnErr};
ghost use Rattle.gt_disk.specs.Files.{View, HasCause};

use gt_disk::{Disk, Failed};

/// The keeper of the disks. A disk that was taken is out until it is given back.
pub trait Host {
    type D: Disk + Drop;

    /// How often a `take` has failed.
    ghost faults: { Self → ℕ };

    /// Whether the disk of this number is out.
    ghost is_out: { Self → ℕ → Bool };

    /// The count of faults of each disk as it was when it was here last.
    ghost disk_faults: { Self → ℕ → ℕ };

    /// The view of each disk as it was when it was here last.
    ghost disk_view: { Self → ℕ → View };

    /// Hands out the disk of this number. After `Failed` it is still here.
    fn take(&mut self, number: u8) -> Result<Self::D, Failed>
        requires here { is_out self.old number ≡ false }
        ensures view { IfOk result (λ disk. Self.D.view disk ≡ disk_view self.old number) }
        ensures count { IfOk result (λ disk. Self.D.fault_count disk ≡ disk_faults self.old number) }
        ensures out { OnOk result (is_out self.new number ≡ true) }
        ensures err { OnErr result (is_out self.new number ≡ false) }
        ensures others { (n : ℕ) → n ≢ number → is_out self.new n ≡ is_out self.old n }
        ensures views { (n : ℕ) → disk_view self.new n ≡ disk_view self.old n }
        ensures counts { (n : ℕ) → disk_faults self.new n ≡ disk_faults self.old n }
        ensures cause { HasCause (faults self.old) (faults self.new) result };

    /// Takes a disk back as the disk of this number.
    fn give(&mut self, number: u8, disk: Self::D)
        requires out { is_out self.old number ≡ true }
        ensures here { is_out self.new number ≡ false }
        ensures view { disk_view self.new number ≡ Self.D.view disk }
        ensures count { disk_faults self.new number ≡ Self.D.fault_count disk }
        ensures others { (n : ℕ) → n ≢ number → is_out self.new n ≡ is_out self.old n }
        ensures other_views { (n : ℕ) → n ≢ number → disk_view self.new n ≡ disk_view self.old n }
        ensures other_counts { (n : ℕ) → n ≢ number → disk_faults self.new n ≡ disk_faults self.old n }
        ensures faults { faults self.new ≡ faults self.old };
}
