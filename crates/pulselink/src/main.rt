//! The program `pulselink`: its words, standard input and standard output handed to the library, and the
//! reason of a faulty run as one line on standard error.
#![tactic(auto)]

mod about;
mod help;
mod show;
mod task;

use arrayvec::ArrayString;
use edge_command::{EXPLAINED_ROOM, explain, run_plain};
use line_base::{Sink, StdSink, StdSource};
use show::show;
use std::process::ExitCode;
use std::rt::Env;
use std::{env, io};
use task::{Task, task_of};

fn main(rt: HostRuntime) -> ExitCode {
    let mut out = StdSink::new(rt.stdout());
    let reason = match task_of(words(&rt)) {
        Task::Show(about) => show(about, &mut out),
        Task::End(reason) => reason,
        Task::Run(words) => {
            let mut source = StdSource::new(rt.stdin());
            run_plain(rt.alloc(), &words, &mut source, &mut out).reason
        }
    };
    let mut line = ArrayString::<EXPLAINED_ROOM>::new();
    explain(&reason, &mut line);
    // Where standard error takes no line, the status still tells.
    let _ = StdSink::new(rt.stderr()).put(line.as_str().as_bytes());
    ExitCode::from(reason.status())
}

/// The words behind the program's name.
fn words<R: Env + AllocGlobal>(rt: &R) -> io::Result<Vec<String>> {
    let mut words = env::args(rt)?;
    let _ = words.next();
    Ok(words.collect(rt.alloc())?)
}
