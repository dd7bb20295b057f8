//! The program: a script of requests over folders, one answer line a request.
#![tactic(auto)]

mod ending;

use ending::ended;
use gt_prog::{Status, gitstore_plain};
use gt_real::{FolderHost, StandardInput, StandardOutput};
use std::process::ExitCode;
use std::{env, io};

/// The first word is the folder of the disks, `.` without any word; the others say what to do.
fn main(rt: HostRuntime) -> ExitCode {
    let status = ended(run(&rt));
    if let Ok(text) = status.text(rt.alloc()) {
        let _ = rt.eprint(text.as_str());
    }
    ExitCode::from(status.code())
}

fn run(rt: &HostRuntime) -> io::Result<Status> {
    let alloc = rt.alloc();
    let mut args = env::args(rt)?.skip(1);
    let folder = match args.next() {
        Some(folder) => folder,
        None => String::from_str(alloc, ".")?,
    };
    let texts: Vec<String> = args.collect(alloc)?;
    let words: Vec<&str> = texts.iter().map(|text| text.as_str()).collect(alloc)?;
    let mut host = FolderHost::new(rt.clone()?, folder);
    let mut source = StandardInput::new(rt.clone()?);
    let mut sink = StandardOutput::new(rt.clone()?);
    Ok(gitstore_plain(alloc, &words, &mut host, &mut source, &mut sink))
}
