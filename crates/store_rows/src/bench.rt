//! The disk in hand, and the rows that are done to it.
use crate::comparing::play_twice;
use crate::files::{self, left_at, left_at_end};
use crate::pair::Pair;
use crate::printing::{Answers, print_ended};
use crate::scripts::Scripts;
use crate::words::{choice_of, file_of};
use crate::{logs, outside, setting};
use gt_disk::{Disk, MemDisk, Stop};
use gt_play::Setting;
use std::alloc::Global;
use std::{io, mem};

/// The disk in hand; one that was kept, with all its moments; the scripts; what the next of them meets; and two more disks,
/// for rows on disks alone.
#[derive(Drop)]
pub(crate) struct Bench {
    disk: MemDisk,
    kept: MemDisk,
    scripts: Scripts,
    setting: Setting,
    pair: Pair,
}

impl Bench {
    pub(crate) fn new(alloc: Global) -> Option<Bench> {
        Some(Bench {
            disk: MemDisk::new(alloc).ok()?,
            kept: MemDisk::new(alloc).ok()?,
            scripts: Scripts::new(alloc),
            setting: setting::usual(alloc),
            pair: Pair::new(alloc)?,
        })
    }

    /// Takes a line of the input: a line of a script, or a row.
    pub(crate) fn take_line(
        &mut self,
        rt: &impl Print,
        alloc: Global,
        line: &str,
    ) -> io::Result<()> {
        if self.scripts.is_reading {
            return told(rt, line, self.scripts.take_line(alloc, line));
        }
        let (row, words) = line.split_once(' ').unwrap_or((line, ""));
        match row {
            "run" => self.run(rt, alloc, words, Answers::Whole),
            "digest" => self.run(rt, alloc, words, Answers::Digest),
            "words" => self.run_words(rt, alloc, words),
            "files" => files::print_files(rt, alloc, &self.disk),
            "log" => logs::print_log(rt, alloc, &mut self.disk, words),
            "pair" => self.pair.take_row(rt, alloc, words),
            "outside" => outside::take_row(rt, alloc, words),
            "note" => println!(rt; "{words}"),
            _ => told(rt, line, self.change(alloc, row, words)),
        }
    }

    /// Does a row that prints nothing.
    fn change(&mut self, alloc: Global, row: &str, words: &str) -> Option<()> {
        match row {
            "script" => self.scripts.begin(alloc, words),
            "new" => self.take_new(alloc),
            "keep" => self.keep(alloc),
            "stop" => self.stop(alloc, words),
            "put" => self.put(alloc, words),
            "remove" => self.disk.remove(file_of(words)).ok(),
            _ => setting::set(alloc, &mut self.setting, row, words),
        }
    }

    fn take_new(&mut self, alloc: Global) -> Option<()> {
        self.disk = MemDisk::new(alloc).ok()?;
        Some(())
    }

    /// Keeps the disk in hand, and goes on with a copy.
    fn keep(&mut self, alloc: Global) -> Option<()> {
        let copy = left_at_end(alloc, &self.disk, Stop::Most)?;
        self.kept = mem::replace(&mut self.disk, copy);
        Some(())
    }

    /// Takes what a stop at a moment leaves of the disk that was kept.
    fn stop(&mut self, alloc: Global, words: &str) -> Option<()> {
        let (tick, choice) = words.split_once(' ')?;
        self.disk = left_at(alloc, &self.kept, tick, choice_of(choice))?;
        Some(())
    }

    fn put(&mut self, alloc: Global, words: &str) -> Option<()> {
        let (file, digits) = words.split_once(' ')?;
        files::put(alloc, &mut self.disk, file_of(file), digits)
    }

    fn run(
        &mut self,
        rt: &impl Print,
        alloc: Global,
        name: &str,
        answers: Answers,
    ) -> io::Result<()> {
        let Some(script) = self.scripts.find(name) else {
            return println!(rt; "no script {name}");
        };
        let played = play_twice(alloc, &self.disk, &self.setting, &["replay"], script);
        setting::mend(&mut self.setting);
        let Some((ended, is_alike)) = played else {
            return println!(rt; "no memory");
        };
        print_ended(rt, alloc, &ended, answers, is_alike)?;
        self.disk = ended.disk;
        Ok(())
    }

    /// Calls with these words over a line that makes a repository.
    fn run_words(&mut self, rt: &impl Print, alloc: Global, words: &str) -> io::Result<()> {
        let words: Vec<&str> = words.split_terminator(' ').collect(alloc)?;
        match play_twice(
            alloc,
            &self.disk,
            &self.setting,
            &words,
            b"1 create words.git\n",
        ) {
            Some((ended, is_alike)) => print_ended(rt, alloc, &ended, Answers::Whole, is_alike),
            None => println!(rt; "no memory"),
        }
    }
}

/// Prints a row that wasn't done.
fn told(rt: &impl Print, line: &str, done: Option<()>) -> io::Result<()> {
    match done {
        Some(()) => Ok(()),
        None => println!(rt; "not done: {line}"),
    }
}
