ghost use Rattle.std.specs.Prelude.{◌≡◌};

use crate::counting::counted;
use crate::trouble::{during, tell};
use gt_disk::Failed;
use gt_outside::Source;
use std::io::Read;

/// Standard input as a source. It tells what the runtime's reader tells, and reads no more than it is asked for. An error is never
/// the input's end. It is told on standard error.
#[derive(Drop)]
pub struct StandardInput<R: Input + Eprint + Drop> {
    rt: R,
    reader: R::Reader,
    faults: u64,
}

impl<R: Input + Eprint + Drop> StandardInput<R> {
    /// The input of this runtime.
    pub fn new(rt: R) -> StandardInput<R>
        ensures { ⟦<StandardInput<R> as Source>⟧.faults result ≡ 0 }
    {
        let reader = rt.reader();
        StandardInput {
            rt,
            reader,
            faults: 0,
        }
    }
}

impl<R: Input + Eprint + Drop> Source for StandardInput<R> {
    ghost left = { λ source. R.Reader.remaining source.reader };

    ghost faults = { λ source. source.faults };

    fn read(&mut self, into: &mut [u8]) -> Result<usize, Failed> {
        let answer = during("read", self.reader.read(into));
        tell(&self.rt, "standard input", &answer);
        counted(&mut self.faults, answer)
    }
}
