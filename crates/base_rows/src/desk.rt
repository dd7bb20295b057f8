//! The disk in hand, and the rows that are done to it.
use crate::printing::loaded_line;
use crate::words::{bytes_of, file_of, limits_of, number};
use gt_base::Base;
use gt_disk::{Fault, MemDisk, write_synced};
use gt_model::Limits;
use std::alloc::Global;
use std::io;

/// The disk in hand, and the limits of its loads.
#[derive(Drop)]
pub(crate) struct Desk {
    disk: MemDisk,
    limits: Limits,
}

impl Desk {
    pub(crate) fn new(alloc: Global) -> Option<Desk> {
        Some(Desk {
            disk: MemDisk::new(alloc).ok()?,
            limits: Limits::usual(),
        })
    }

    /// Takes a line of the input. A row that isn't done is printed.
    pub(crate) fn take_line(
        &mut self,
        rt: &impl Print,
        alloc: Global,
        line: &str,
    ) -> io::Result<()> {
        let (row, words) = line.split_once(' ').unwrap_or((line, ""));
        if row == "load" {
            return self.load(rt, alloc, number(words));
        }
        match self.change(alloc, row, words) {
            Some(()) => Ok(()),
            None => println!(rt; "not done: {line}"),
        }
    }

    /// Does a row that prints nothing.
    fn change(&mut self, alloc: Global, row: &str, words: &str) -> Option<()> {
        match row {
            "clear" => self.clear(alloc),
            "file" => self.put(alloc, words),
            "limits" => self.limit(words),
            "fail" => self.fail(number(words)),
            _ => None,
        }
    }

    /// Begins a new disk, under the usual limits.
    fn clear(&mut self, alloc: Global) -> Option<()> {
        *self = Desk::new(alloc)?;
        Some(())
    }

    /// Puts a file on the disk, which lasts.
    fn put(&mut self, alloc: Global, words: &str) -> Option<()> {
        let (file, digits) = words.rsplit_once(' ')?;
        let bytes = bytes_of(alloc, digits)?;
        write_synced(&mut self.disk, file_of(file), &bytes).ok()
    }

    fn limit(&mut self, words: &str) -> Option<()> {
        let (positions, epochs) = words.split_once(' ')?;
        self.limits = limits_of(number(positions), number(epochs));
        Some(())
    }

    /// The call of this number, counted from a new disk on, is to fail.
    fn fail(&mut self, call: u64) -> Option<()> {
        self.disk.fail(&[Fault { call, kept: 0 }]).ok()
    }

    fn load(&mut self, rt: &impl Print, alloc: Global, gate: u64) -> io::Result<()> {
        let loaded = Base::load(alloc, &self.limits, gate, &mut self.disk);
        loaded_line(rt, &loaded)
    }
}
