//! Both ends and the streams between them.

use crate::measure::{Bench, Done, Stuck, Workload};
use std::alloc::Global;
use std::io::Write;
use std::time::Clock;
use tn_discipline::{Limit, Settings};
use tn_world::{Event, World, WorldFault};

/// The number of lines that are typed in one world.
const LINES: u32 = 256;

impl From<WorldFault> for Stuck {
    fn from(_fault: WorldFault) -> Stuck {
        Stuck
    }
}

/// The keys of a line, and a return.
const KEYS: &[u8; 63] = b"the quick brown fox jumps over the lazy dog, and all is as was\r";

/// A key is typed, sent, echoed and shown, and so is a return; then the line is taken.
#[derive(Drop)]
struct Travelling {
    alloc: Global,
}

impl Workload for Travelling {
    fn once(&mut self) -> Result<Done, Stuck> {
        let (settings, limit) = (Settings::standard(), Limit::standard());
        let mut world = World::open(self.alloc, settings, 80, 24, limit)?;
        let done = travel(&mut world);
        drop(world);
        done
    }
}

fn travel(world: &mut World) -> Result<Done, Stuck> {
    let mut done = Done::nothing();
    for _ in 0..LINES {
        for key in [b'x', b'\r'] {
            world.run(&[
                Event::Key(key),
                Event::ToServer(usize::MAX),
                Event::Pull(usize::MAX),
                Event::ToClient(usize::MAX),
            ])?;
        }
        world.run(&[Event::Take])?;
        done = done.and(Done {
            bytes: 2,
            wholes: 1,
        });
    }
    Ok(done)
}

/// The keys of a line are typed, and go at once; then it is echoed, shown and taken.
#[derive(Drop)]
struct Lines {
    alloc: Global,
    events: Vec<Event>,
}

impl Lines {
    fn new(alloc: Global) -> Result<Lines, Stuck> {
        let mut events = Vec::new(alloc);
        for key in KEYS {
            events.push(Event::Key(*key))?;
        }
        for event in [
            Event::ToServer(usize::MAX),
            Event::Pull(usize::MAX),
            Event::ToClient(usize::MAX),
            Event::Take,
        ] {
            events.push(event)?;
        }
        Ok(Lines { alloc, events })
    }
}

impl Workload for Lines {
    fn once(&mut self) -> Result<Done, Stuck> {
        let (settings, limit) = (Settings::standard(), Limit::standard());
        let mut world = World::open(self.alloc, settings, 80, 24, limit)?;
        let done = type_lines(&mut world, &self.events);
        drop(world);
        done
    }
}

fn type_lines(world: &mut World, events: &[Event]) -> Result<Done, Stuck> {
    let mut done = Done::nothing();
    for _ in 0..LINES {
        world.run(events)?;
        done = done.and(Done {
            bytes: KEYS.len() as u64,
            wholes: 1,
        });
    }
    Ok(done)
}

pub(crate) fn run<H: Clock, W: Write>(
    alloc: Global,
    bench: &mut Bench<'_, H, W>,
) -> Result<(), Stuck> {
    bench.tell("a world's keys, deliveries and takes", Travelling { alloc })?;
    bench.tell("a world's lines of 63, each sent whole", Lines::new(alloc)?)
}
