//! The program `gds PATH WORDS`: one command on the database at PATH, and its answer on standard output.
#![tactic(auto)]

use gds_cli::{Status, gds};
use host_file::{FileHost, StdinSource, without_links};
use std::alloc::AllocError;
use std::fs::File;
use std::process::ExitCode;
use std::{env, io};

/// The exit status where the arguments can't be had, as where one isn't UTF-8.
const NO_ARGUMENTS: u8 = 24;
/// The exit status where `/dev/null` can't be opened three times.
const NO_STANDARD: u8 = 25;

/// The command line, without the program's own name.
fn arguments(rt: &HostRuntime) -> Option<Vec<String>> {
    let mut all: Vec<String> = env::args(rt).ok()?.collect(rt.alloc()).ok()?;
    if !all.is_empty() {
        all.remove(0);
    }
    Some(all)
}

/// Runs the words on the file that `path` leads to, and on the one beside that.
fn run(rt: &HostRuntime, path: &str, words: &[String]) -> Result<u8, AllocError> {
    let path = without_links(rt, rt.alloc(), path)?;
    let host = FileHost::new(rt, rt.alloc(), path.as_str())?;
    let input = StdinSource::new(rt);
    Ok(gds(rt.alloc(), words, host, input).status.code())
}

/// Where a program is started without standard input, output or error, the next file that it opens gets that number.
/// These three files take such numbers, so that no answer is written into a database and none is read as a script.
fn hold_standard(rt: &HostRuntime) -> io::Result<[File; 3]> {
    let first = File::open(rt, "/dev/null")?;
    let second = File::open(rt, "/dev/null")?;
    let third = File::open(rt, "/dev/null")?;
    Ok([first, second, third])
}

fn main(rt: HostRuntime) -> ExitCode {
    let Ok(_held) = hold_standard(&rt) else {
        return ExitCode::from(NO_STANDARD);
    };
    let Some(all) = arguments(&rt) else {
        return ExitCode::from(NO_ARGUMENTS);
    };
    let outcome = match all.split_first() {
        None => run(&rt, "", &[]),
        Some((path, words)) => run(&rt, path.as_str(), words),
    };
    ExitCode::from(outcome.unwrap_or(Status::Memory.code()))
}
