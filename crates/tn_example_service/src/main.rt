//! A service of lines at a port of this machine, which serves until it is ended. `tools/new-service` copies
//! this crate: `share/service-template/README.md` says how to go on.
#![tactic(auto)]

use crate::greeter::Greeter;
use log::sink::Discard;
use std::alloc::{AllocError, Global};
use std::env;
use std::io::Write;
use std::process::ExitCode;
use tn_discipline::Text;
use tn_serve::services::{Greeted, Greeting};
use tn_serve::{At, Call, Finished, Hook, Host, Never, Service, Serving, serve};
use tn_session::Maker;

mod greeter;
#[cfg(test)]
mod tests;

/// The status if nothing can be served, and the one for wrong arguments.
const UNSERVED: u8 = 1;

const WRONG_WORDS: u8 = 2;

fn main(rt: HostRuntime) -> ExitCode {
    let alloc = rt.alloc();
    let Some(port) = port_of(&rt, alloc) else {
        let _ = println!(rt; "usage: tn_example_service PORT");
        return ExitCode::from(WRONG_WORDS);
    };
    let at = At {
        host: "127.0.0.1",
        port,
        handed: None,
    };
    let serving = Serving {
        count: u64::MAX,
        ..Serving::standard()
    };
    let mut causes = Vec::new(alloc);
    let served = serve(
        rt,
        alloc,
        &[at],
        serving,
        Never,
        Greeters { _rt: rt },
        &Discard,
        &mut causes,
    );
    let _ = rt.stderr().write_all(&causes);
    match served {
        Ok(_) => ExitCode::SUCCESS,
        Err(_) => ExitCode::from(UNSERVED),
    }
}

// Returns the port that the first argument names.
fn port_of(rt: &HostRuntime, alloc: Global) -> Option<u16> {
    let words: Vec<String> = env::args(rt).ok()?.collect(alloc).ok()?;
    words.get(1)?.as_str().parse::<u16>().ok()
}

/// The text that each user reads first.
const FIRST: &[u8] = b"name?\n";

/// Gives each session a job of its own, whose user reads `FIRST` first. What a job waits for wants the handle.
#[derive(Drop)]
struct Greeters<H> {
    _rt: H,
}

impl<H: Host> Service for Greeters<H> {
    type Job = Greeted<Greeter>;

    type Jobs = Greeting<OneJob>;

    fn session(&mut self, alloc: Global, call: Call) -> Result<Greeting<OneJob>, AllocError> {
        let mut text = Vec::new(alloc);
        text.extend_from_slice(FIRST)?;
        let Call { hook, .. } = call;
        Ok(Greeting::new(OneJob(Some(hook)), Text::from(text)))
    }

    fn ended(&mut self, _number: usize, _finished: &Finished) {}
}

// Makes the job, which gets the hook, unless it was made already.
#[derive(Drop)]
struct OneJob(Option<Hook>);

impl Maker for OneJob {
    type Job = Greeter;

    fn next(&mut self, _alloc: Global) -> Result<Option<Greeter>, AllocError> {
        match self.0.take() {
            Some(hook) => Ok(Some(Greeter::new(Some(hook)))),
            None => Ok(None),
        }
    }
}
