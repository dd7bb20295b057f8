//! What a script that was played has come to.
use gt_play::Ended;
use gt_prog::Status;
use sha1::Sha1;
use std::alloc::Global;
use std::io;
use std::io::Write;

/// How the answers of a script are printed.
#[derive(Clone, Copy)]
pub(crate) enum Answers {
    Whole,
    /// Their length and their SHA-1.
    Digest,
}

/// Prints the answers and the status, and what else there is to tell: bytes of the input that weren't read, another disk
/// that was changed, and that a disk that tells nothing ended in another way.
pub(crate) fn print_ended(
    rt: &impl Print,
    alloc: Global,
    ended: &Ended,
    answers: Answers,
    is_alike: bool,
) -> io::Result<()> {
    match answers {
        Answers::Whole => io::writer(rt).write_all(&ended.output)?,
        Answers::Digest => print_digest(rt, alloc, &ended.output)?,
    }
    print_status(rt, alloc, ended.status)?;
    print_rest(rt, ended)?;
    if is_alike {
        Ok(())
    } else {
        println!(rt; "another end over a disk that tells nothing")
    }
}

fn print_digest(rt: &impl Print, alloc: Global, bytes: &[u8]) -> io::Result<()> {
    let digits = hex::encode(alloc, Sha1::digest(bytes).as_slice())?;
    println!(rt; "{} bytes {digits}", bytes.len())
}

fn print_status(rt: &impl Print, alloc: Global, status: Status) -> io::Result<()> {
    let text = status.text(alloc)?;
    println!(rt; "{text}= {}", status.code())
}

fn print_rest(rt: &impl Print, ended: &Ended) -> io::Result<()> {
    if ended.left != Some(0) {
        println!(rt; "left {:?}", ended.left)?;
    }
    if let Some(number) = ended.other {
        println!(rt; "changed disk {number}")?;
    }
    Ok(())
}
