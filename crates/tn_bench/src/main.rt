//! The speed of each part of `tn`. Each workload makes its own input. Without arguments a little of
//! each is done, and what was done is printed. With `long` much of each is done, and its speed is
//! printed; with `echoes` only of the workloads over connections.
#![tactic(auto)]

use crate::measure::{Bench, Stuck};
use std::alloc::Global;
use std::env;
use std::env::Env;
use std::io::Write;
use std::net::{Net, TcpListener, TcpStream};
use std::process::ExitCode;
use std::time::Clock;
use tn_serve::Host;

mod decoding;
mod echoes;
mod ends;
mod growth;
mod measure;
mod pairs;
mod worlds;

fn main(rt: HostRuntime) -> ExitCode {
    let mut out = rt.stdout();
    let wanted = read_words(&rt);
    match run_wanted(rt, rt.alloc(), &mut out, wanted) {
        Ok(()) => ExitCode::SUCCESS,
        Err(Stuck) => ExitCode::FAILURE,
    }
}

/// The workloads to be measured.
#[derive(Clone, Copy, PartialEq, Eq)]
enum Wanted {
    /// A little of each workload; its counts are printed.
    Counts,
    All,
    /// The workloads over connections.
    Echoes,
}

fn read_words<H: Env + Alloc>(rt: &H) -> Wanted {
    let mut wanted = Wanted::Counts;
    if let Ok(words) = env::args(rt) {
        for word in words {
            wanted = match word.as_str() {
                "long" => Wanted::All,
                "echoes" => Wanted::Echoes,
                _ => Wanted::Counts,
            };
        }
    }
    wanted
}

fn run_wanted<H, W: Write>(rt: H, alloc: Global, out: &mut W, wanted: Wanted) -> Result<(), Stuck>
where
    H: Host + Clock + Net<Listener = TcpListener, Stream = TcpStream>,
{
    let mut bench = Bench::new(rt, out, wanted != Wanted::Counts);
    if wanted != Wanted::Echoes {
        run_parts(alloc, &mut bench)?;
    }
    echoes::run(rt, alloc, &mut bench)
}

fn run_parts<H: Clock, W: Write>(alloc: Global, bench: &mut Bench<'_, H, W>) -> Result<(), Stuck> {
    decoding::run(alloc, bench)?;
    pairs::run(alloc, bench)?;
    ends::run(alloc, bench)?;
    worlds::run(alloc, bench)?;
    growth::run(alloc, bench)
}
