/// How much a partition takes.
#[derive(Clone, Copy, Debug, PartialEq, Eq)]
pub struct Limits {
    /// The greatest position of a log.
    pub positions: u64,
    /// The greatest number of a checkpoint.
    pub epochs: u64,
    /// How many transactions and jobs may be live at a time.
    pub pins: u8,
    /// How many paths the map of partitions takes.
    pub paths: u64,
}

impl Limits {
    ghost use Rattle.std.specs.Prelude.{◌≡◌};
    ghost use Rattle.gt_model.specs.Usual.{usual};

    /// Those of the program: 4,294,967,295 positions and epochs, 64 pins, 65,536 paths.
    pub fn usual() -> Limits
        ensures { result ≡ usual }
    {
        Limits {
            positions: 4_294_967_295,
            epochs: 4_294_967_295,
            pins: 64,
            paths: 65_536,
        }
    }
}
