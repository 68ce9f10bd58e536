//! The growth of cost: equal work with few and many sessions, with short and long lines, and with
//! few and many waiting entries. The cost of a byte should stay the same.

use crate::ends::{KEYS, Serving, make_server};
use crate::measure::{Bench, Done, Stuck, Workload};
use crate::pairs::{line_of, make_typing};
use std::alloc::Global;
use std::io::Write;
use std::time::Clock;
use tn_discipline::Limit;
use tn_server::Editing;

/// The number of feeds of the sessions, all together.
const TURNS: usize = 256;

/// The number of lines of 64 keys in a piece.
const LINES: u32 = 16;

/// Servers side by side, fed in turn.
#[derive(Drop)]
struct Many {
    servers: Vec<Serving>,
}

impl Workload for Many {
    fn once(&mut self) -> Result<Done, Stuck> {
        let mut done = Done::nothing();
        for turn in 0..TURNS {
            let count = self.servers.len();
            if count == 0 {
                break;
            }
            if let Some(server) = self.servers.get_mut(turn % count) {
                done = done.and(server.once()?);
            }
        }
        Ok(done)
    }
}

fn make_servers(alloc: Global, count: u32) -> Result<Many, Stuck> {
    let mut servers = Vec::new(alloc);
    for _ in 0..count {
        servers.push(make_server(alloc, KEYS, LINES, Editing::Remote)?)?;
    }
    Ok(Many { servers })
}

fn sessions<H: Clock, W: Write>(
    alloc: Global,
    bench: &mut Bench<'_, H, W>,
    name: &str,
    count: u32,
) -> Result<(), Stuck> {
    let load = make_servers(alloc, count)?;
    bench.tell(name, load)
}

fn keys<H: Clock, W: Write>(
    alloc: Global,
    bench: &mut Bench<'_, H, W>,
    name: &str,
    length: u32,
    echo: bool,
    waiting: u32,
) -> Result<(), Stuck> {
    let limit = Limit::new(4_095).unwrap_or(Limit::standard());
    let keys = line_of(alloc, length, false)?;
    let load = make_typing(alloc, limit, keys, echo, waiting)?;
    bench.tell(name, load)
}

/// Keys by name: the length of a line, whether it is echoed, and how many entries wait already.
const TYPED: &[(&str, u32, bool, u32)] = &[
    ("no echo, lines of 254 of 4,095", 254, false, 0),
    ("no echo, lines of 4,094 of 4,095", 4_094, false, 0),
    ("echo, lines of 254 of 4,095", 254, true, 0),
    ("echo, lines of 4,094 of 4,095", 4_094, true, 0),
    ("no echo, lines of 64, 1 entry waits", 64, false, 0),
    ("no echo, lines of 64, 1,000 entries wait", 64, false, 999),
];

pub(crate) fn run<H: Clock, W: Write>(
    alloc: Global,
    bench: &mut Bench<'_, H, W>,
) -> Result<(), Stuck> {
    sessions(alloc, bench, "1 server edits keys", 1)?;
    sessions(alloc, bench, "8 servers edit keys", 8)?;
    sessions(alloc, bench, "64 servers edit keys", 64)?;
    for (name, length, echo, waiting) in TYPED {
        keys(alloc, bench, name, *length, *echo, *waiting)?;
    }
    Ok(())
}
