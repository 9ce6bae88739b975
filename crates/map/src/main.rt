//! Rewrites constraint logic programs by scripts of steps: `map replay P S` writes the program that the script in file
//! S makes of the program in file P, and `map fill P S` writes the script with all its certificates.

#![tactic(auto)]

use map_main::{FileShelf, InputSource, OutputSink, Status, Words, map_run};
use std::process::ExitCode;
use std::{env, io};

fn main(rt: HostRuntime) -> ExitCode {
    let mut shelf = FileShelf::new(&rt);
    let mut input = InputSource::new(rt.reader());
    let mut out = OutputSink::new(io::writer(&rt));
    let status = match Words::of_args(rt.alloc(), env::args(&rt)) {
        Ok(words) => map_run(rt.alloc(), &words, &mut shelf, &mut input, &mut out),
        Err(no_memory) => Status::from(no_memory),
    };
    status.exit_code()
}
