//! What the next script meets.
use crate::words::{faults_of, number, numbers};
use gt_model::Limits;
use gt_play::Setting;
use std::alloc::Global;

/// Nothing fails, and the limits are the usual.
pub(crate) fn usual(alloc: Global) -> Setting {
    Setting {
        limits: None,
        faults: Vec::new(alloc),
        reads: Vec::new(alloc),
        writes: Vec::new(alloc),
        takes: Vec::new(alloc),
        lengths: None,
    }
}

/// Nothing fails any more.
pub(crate) fn mend(setting: &mut Setting) {
    setting.faults.clear();
    setting.reads.clear();
    setting.writes.clear();
    setting.takes.clear();
    setting.lengths = None;
}

/// Sets what fails in the next script, or the limits of all that follow.
pub(crate) fn set(alloc: Global, setting: &mut Setting, what: &str, words: &str) -> Option<()> {
    match what {
        "fail" => setting.faults = faults_of(alloc, words)?,
        "reads" => setting.reads = numbers(alloc, words, ' ')?,
        "writes" => setting.writes = numbers(alloc, words, ' ')?,
        "takes" => setting.takes = numbers(alloc, words, ' ')?,
        "lengths" => setting.lengths = Some(number(words)),
        "limits" => setting.limits = limits_of(words),
        _ => return None,
    }
    Some(())
}

/// Limits of positions, of pins and of epochs, as `3 2 1`; any other word is the usual.
fn limits_of(words: &str) -> Option<Limits> {
    let (positions, rest) = words.split_once(' ')?;
    let (pins, epochs) = rest.split_once(' ')?;
    let mut limits = Limits::usual();
    limits.positions = number(positions);
    limits.pins = pins.parse::<u8>().unwrap_or(u8::MAX);
    limits.epochs = number(epochs);
    Some(limits)
}
