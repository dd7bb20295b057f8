//! Answers, made from a word for each variant and its values, and printed as lines.
use crate::names::{name_of, ref_of};
use crate::refusals::{named_refusal, numbered_refusal, plain_refusal};
use gt_model::{Answer, Done, RefList, RefValue};
use gt_object::Record;
use gt_script::print_answer;
use std::alloc::Global;
use std::io;
use std::io::Write;

pub(crate) fn answer_row(rt: &impl Print, alloc: Global, words: &str) -> io::Result<()> {
    match answer_of(alloc, words) {
        Some(answer) => answer_line(rt, alloc, &answer),
        None => println!(rt; "no such answer"),
    }
}

fn answer_line(rt: &impl Print, alloc: Global, answer: &Answer) -> io::Result<()> {
    match print_answer(alloc, answer) {
        Ok(line) => io::writer(rt).write_all(&line),
        Err(error) => println!(rt; "{error:?}"),
    }
}

fn answer_of(alloc: Global, words: &str) -> Option<Answer> {
    match words.split_once(' ') {
        Some(("Refs", values)) => refs(alloc, values),
        Some(("Object", digits)) => object(alloc, digits),
        Some((word, values)) => with_values(alloc, word, values),
        None => plain(words),
    }
}

fn plain(word: &str) -> Option<Answer> {
    match plain_done(word) {
        Some(done) => Some(Ok(done)),
        None => Some(Err(plain_refusal(word)?)),
    }
}

fn plain_done(word: &str) -> Option<Done> {
    match word {
        "Staged" => Some(Done::Staged),
        "Checked" => Some(Done::Checked),
        "Aborted" => Some(Done::Aborted),
        "Swept" => Some(Done::Swept),
        "Restarted" => Some(Done::Restarted),
        _ => None,
    }
}

/// References: a name and a value each.
fn refs(alloc: Global, values: &str) -> Option<Answer> {
    let mut list = RefList::new(alloc);
    for pair in values.trim_start_matches('-').split_terminator(';') {
        list.push(ref_value(alloc, pair)?).ok()?;
    }
    Some(Ok(Done::Refs { list }))
}

fn ref_value(alloc: Global, pair: &str) -> Option<RefValue> {
    let (name, value) = pair.split_once(' ')?;
    Some(RefValue {
        name: ref_of(alloc, name)?,
        value: name_of(value)?,
    })
}

fn object(alloc: Global, digits: &str) -> Option<Answer> {
    let bytes = hex::decode(alloc, digits).ok()?;
    let whole = Record::parse(alloc, &bytes).ok()?;
    Some(Ok(Done::Object { whole }))
}

fn with_values(alloc: Global, word: &str, values: &str) -> Option<Answer> {
    let (first, second) = values.split_once(' ').unwrap_or((values, ""));
    if let Some(done) = done_of(word, first, second) {
        return Some(Ok(done));
    }
    if let Some(refusal) = numbered_refusal(word, number(first), number(second)) {
        return Some(Err(refusal));
    }
    Some(Err(named_refusal(alloc, word, first, second)?))
}

/// A number; the greatest one where the word is none.
pub(crate) fn number(word: &str) -> u64 {
    word.parse::<u64>().unwrap_or(u64::MAX)
}

fn done_of(word: &str, first: &str, second: &str) -> Option<Done> {
    match word {
        "Named" => Some(Done::Named {
            name: name_of(first)?,
        }),
        "Value" => Some(Done::Value {
            value: name_of(first),
        }),
        "Step" => Some(Done::Step {
            ready: first == "true",
        }),
        "Created" => Some(Done::Created {
            position: number(first),
            pool: second == "true",
        }),
        _ => done_at(word, number(first)),
    }
}

fn done_at(word: &str, position: u64) -> Option<Done> {
    match word {
        "Deleted" => Some(Done::Deleted { position }),
        "Linked" => Some(Done::Linked { position }),
        "Begun" => Some(Done::Begun { position }),
        "Committed" => Some(Done::Committed { position }),
        "Finished" => Some(Done::Finished { position }),
        "HouseOpen" => Some(Done::HouseOpen { position }),
        "HouseDone" => Some(Done::HouseDone { position }),
        "Applied" => Some(Done::Applied { position }),
        "Trimmed" => Some(Done::Trimmed { low: position }),
        _ => None,
    }
}
