ghost use Rattle.std.specs.Prelude.{◌≡◌, ◌<◌, ◌⊎◌, ℕ, length, IsErr, Ok, Err};

use crate::counting::counted;
use crate::trouble::{Trouble, during, tell};
use gt_disk::Failed;
use gt_outside::Sink;
use std::io;
use std::io::{Error, ErrorKind};

/// Standard output as a sink. It tells nothing, and keeps nothing back: what it took has left the process. An error is told on
/// standard error.
#[derive(Drop)]
pub struct StandardOutput<R: Print + Eprint + Drop> {
    rt: R,
    faults: u64,
}

impl<R: Print + Eprint + Drop> StandardOutput<R> {
    /// The output of this runtime.
    pub fn new(rt: R) -> StandardOutput<R>
        ensures { ⟦<StandardOutput<R> as Sink>⟧.faults result ≡ 0 }
    {
        StandardOutput { rt, faults: 0 }
    }
}

impl<R: Print + Eprint + Drop> Sink for StandardOutput<R> {
    ghost use Rattle.std.specs.Prelude.{None};

    ghost written = { λ _. None };

    ghost faults = { λ sink. sink.faults };

    fn write(&mut self, from: &[u8]) -> Result<usize, Failed> {
        let answer = taken(from, self.rt.write_some(from));
        tell(&self.rt, "standard output", &answer);
        counted(&mut self.faults, answer)
    }
}

// What the system took of a piece. Nothing of a piece that isn't empty is an error.
fn taken(from: &[u8], answer: io::Result<usize>) -> Result<usize, Trouble>
    ensures some { (n : ℕ) → answer ≡ Ok n → (0 < n) ⊎ (length from.now ≡ 0) → result ≡ Ok n }
    ensures none { answer ≡ Ok 0 → 0 < length from.now → IsErr result }
    ensures failed { IsErr answer → IsErr result }
{
    match during("write", answer) {
        Ok(0) if !from.is_empty() => Err(Trouble {
            call: "write",
            error: Error::from(ErrorKind::WriteZero),
        }),
        answer => answer,
    }
}
