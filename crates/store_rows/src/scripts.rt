use crate::expanding::add_line;
use std::alloc::Global;

#[derive(Drop)]
struct Script {
    name: String,
    bytes: Vec<u8>,
}

/// Scripts by name. The last is being read, or all were read.
#[derive(Drop)]
pub(crate) struct Scripts {
    all: Vec<Script>,
    pub(crate) is_reading: bool,
}

impl Scripts {
    pub(crate) fn new(alloc: Global) -> Scripts {
        Scripts {
            all: Vec::new(alloc),
            is_reading: false,
        }
    }

    /// Begins to read a script.
    pub(crate) fn begin(&mut self, alloc: Global, name: &str) -> Option<()> {
        let script = Script {
            name: String::from_str(alloc, name).ok()?,
            bytes: Vec::new(alloc),
        };
        self.all.push(script).ok()?;
        self.is_reading = true;
        Some(())
    }

    /// Takes a line of the script that is being read; a dot ends it.
    pub(crate) fn take_line(&mut self, alloc: Global, line: &str) -> Option<()> {
        if line == "." {
            self.is_reading = false;
            return Some(());
        }
        let script = self.all.last_mut()?;
        add_line(alloc, &mut script.bytes, line)
    }

    /// The last script of a name, or none.
    pub(crate) fn find(&self, name: &str) -> Option<&[u8]> {
        let at = self
            .all
            .iter()
            .rposition(|script| script.name.as_str() == name)?;
        Some(self.all.get(at)?.bytes.as_slice())
    }
}
