/// What an owner can publish: a list of entries from a first position on.
pub trait Told {
    ghost use Rattle.std.specs.Prelude.{◌≡◌, ℕ, ◌+◌, List, length};
    ghost use Rattle.gt_model.specs.declared.entry.Entry.{Entry};

    ghost first: { Self → ℕ };

    ghost list: { Self → List Entry };

    /// The list's last position.
    fn last(&self) -> u64
        ensures { result ≡ Self.first self.now + length (Self.list self.now) };
}
