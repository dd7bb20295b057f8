//! Lines of scripts that are said in short.
use crate::words::number;
use std::alloc::Global;

/// 64 zeros.
const BLOCK: &[u8] = b"0000000000000000000000000000000000000000000000000000000000000000";

/// Adds what a line stands for. `*N LINE` is as many lines, in which `{}` is the number of the line from 0, in six digits;
/// `+N LINE` is the line with as many zeros behind it, and `=LINE` the line without its end; any other is itself.
pub(crate) fn add_line(alloc: Global, script: &mut Vec<u8>, line: &str) -> Option<()> {
    if let Some(rest) = line.strip_prefix("*") {
        let (count, line) = rest.split_once(' ')?;
        return add_copies(alloc, script, number(count), line);
    }
    if let Some(rest) = line.strip_prefix("+") {
        let (count, line) = rest.split_once(' ')?;
        return add_long(script, number(count), line);
    }
    match line.strip_prefix("=") {
        Some(rest) => script.extend_from_slice(rest.as_bytes()).ok(),
        None => add(script, line),
    }
}

fn add(script: &mut Vec<u8>, line: &str) -> Option<()> {
    script.extend_from_slice(line.as_bytes()).ok()?;
    script.push(b'\n').ok()
}

fn add_copies(alloc: Global, script: &mut Vec<u8>, count: u64, line: &str) -> Option<()> {
    for n in 0..count {
        match line.split_once("{}") {
            Some((before, after)) => add_copy(alloc, script, n, before, after)?,
            None => add(script, line)?,
        }
    }
    Some(())
}

fn add_copy(alloc: Global, script: &mut Vec<u8>, n: u64, before: &str, after: &str) -> Option<()> {
    let digits = format!(in alloc; "{n:06}").ok()?;
    script.extend_from_slice(before.as_bytes()).ok()?;
    script.extend_from_slice(digits.as_bytes()).ok()?;
    add(script, after)
}

fn add_long(script: &mut Vec<u8>, zeros: u64, line: &str) -> Option<()> {
    script.extend_from_slice(line.as_bytes()).ok()?;
    for _ in 0..zeros / 64 {
        script.extend_from_slice(BLOCK).ok()?;
    }
    for _ in 0..zeros % 64 {
        script.push(b'0').ok()?;
    }
    script.push(b'\n').ok()
}
