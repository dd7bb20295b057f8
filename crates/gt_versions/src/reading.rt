ghost use Rattle.std.specs.Prelude.{◌≡◌, None};
ghost use Rattle.std.specs.Option.{option_copied};
ghost use Rattle.gt_versions.specs.Versions.{last_at};
ghost use Rattle.gt_versions.specs.Lives.{lives_since, start_of, value_since};

use crate::Versions;

impl<V> Versions<V> {
    /// Where the last version at or before a position begins, 0 where each begins later.
    pub fn start(&self, position: u64) -> u64
        ensures { result ≡ start_of (last_at self.now.0 position None) }
    {
        match self.at(position) {
            None => 0,
            Some(version) => version.0,
        }
    }
}

impl Versions<bool> {
    /// Since when it is there, at a position. None where it isn't.
    pub fn lives_since(&self, position: u64) -> Option<u64>
        ensures { result ≡ lives_since self.now.0 position }
    {
        match self.at(position) {
            Some((start, true)) => Some(*start),
            _ => None,
        }
    }
}

impl<V> Versions<Option<V>> {
    /// The value at a position, where that was given from `start` on.
    pub fn value_since(&self, start: u64, position: u64) -> Option<&V>
        ensures { option_copied result ≡ value_since start (last_at self.now.0 position None) }
    {
        match self.at(position) {
            None => None,
            Some(version) => {
                if start <= version.0 {
                    version.1.as_ref()
                } else {
                    None
                }
            }
        }
    }
}
