//! The program `cbmc`: gives the checker the words of the command line, the files of the system and standard output.
#![tactic(auto)]

#[cfg(test)]
mod tests;
#[cfg(test)]
mod verdict_tests;

use cbmc_top::top;
use outside::{FileSource, StdSink};
use std::alloc::Global;
use std::process::ExitCode;
use std::{env, io};

/// The status where there was no memory for the words.
const NO_MEMORY: u8 = 12;

/// The words of the command line. Where they can't be had, as where one isn't UTF-8, there are none; an error says
/// that there was no memory for them.
fn words(rt: &HostRuntime, alloc: Global) -> io::Result<Vec<String>> {
    match env::args(rt) {
        Ok(args) => args.collect(alloc).map_err(io::Error::from),
        Err(error) => match error.kind() {
            io::ErrorKind::OutOfMemory => Err(error),
            _ => Ok(Vec::new(alloc)),
        },
    }
}

fn main(rt: HostRuntime) -> ExitCode {
    let alloc = rt.alloc();
    let Ok(words) = words(&rt, alloc) else {
        return ExitCode::from(NO_MEMORY);
    };
    let mut files = FileSource::new(alloc, &rt);
    let mut out = StdSink::new(&rt);
    let done = top(alloc, &words, &mut files, &mut out);
    ExitCode::from(done.status)
}
