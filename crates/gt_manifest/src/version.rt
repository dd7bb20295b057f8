/// The two spellings of a manifest.
#[derive(Clone, Copy, Debug, PartialEq, Eq)]
pub enum Version {
    /// `GTM1`, which is only read: no repository was packed.
    First,
    /// `GTM2`, which is written: each repository has the positions at which it was last packed.
    Second,
}
