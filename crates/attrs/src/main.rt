//! `attrs`: runs a script of attribute operations and writes its transcript.
#![tactic(auto)]

mod command;
mod gate;
mod status;
mod telling;
#[cfg(test)]
mod tests;
mod words;

use at_source::{StdSink, StdSource};
use command::start;
use gate::OpenGate;
use std::env;
use std::process::ExitCode;

fn main(rt: HostRuntime) -> ExitCode {
    let mut source = StdSource::new(rt.stdin());
    let mut sink = StdSink::new(rt.stdout());
    let status = start(
        &rt,
        rt.alloc(),
        env::args(&rt),
        &mut source,
        &mut sink,
        &OpenGate,
    );
    ExitCode::from(status.code())
}
