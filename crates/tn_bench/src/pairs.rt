//! Keys into a pseudoterminal pair, whose job takes each line.

use crate::measure::{Bench, Done, Stuck, Workload};
use std::alloc::{AllocError, Global};
use std::io::Write;
use std::time::Clock;
use tn_discipline::{Limit, Settings, Symbol};
use tn_pty::Pair;

/// The number of lines that are typed in one pass.
const LINES: u32 = 256;

/// Types the same line again and again, takes a line each time, and pulls what is shown.
#[derive(Drop)]
pub(crate) struct Typing {
    pair: Pair,
    keys: Vec<u8>,
    echo: bool,
    screen: Vec<Symbol>,
}

impl Typing {
    // Types the line once, and takes nothing.
    fn type_line(&mut self) -> Result<(), Stuck> {
        match self.pair.type_run(self.keys.as_slice(), self.echo) {
            Ok(()) => Ok(()),
            Err(_) => Err(Stuck),
        }
    }
}

impl Workload for Typing {
    fn once(&mut self) -> Result<Done, Stuck> {
        let mut done = Done::nothing();
        for _ in 0..LINES {
            self.type_line()?;
            let taken = self.pair.take().is_some();
            self.pair.pull(usize::MAX, &mut self.screen)?;
            self.screen.clear();
            done = done.and(Done {
                bytes: self.keys.len() as u64,
                wholes: u64::from(taken),
            });
        }
        Ok(done)
    }
}

/// Returns the keys of a line of this number of bytes, the closing one included. Every third is
/// ERASE if that is asked for.
pub(crate) fn line_of(alloc: Global, length: u32, erases: bool) -> Result<Vec<u8>, AllocError> {
    let mut keys = Vec::new(alloc);
    for place in 1..length {
        keys.push(if erases && place % 3 == 0 { 127 } else { b'x' })?;
    }
    keys.push(b'\n')?;
    Ok(keys)
}

/// Makes keys at a terminal whose lines have at most this number of bytes, and at which this number
/// of entries wait already.
pub(crate) fn make_typing(
    alloc: Global,
    limit: Limit,
    keys: Vec<u8>,
    echo: bool,
    waiting: u32,
) -> Result<Typing, Stuck> {
    let pair = Pair::new(alloc, Settings::standard(), limit)?;
    let screen = Vec::new(alloc);
    let mut load = Typing {
        pair,
        keys,
        echo,
        screen,
    };
    for _ in 0..waiting {
        load.type_line()?;
    }
    Ok(load)
}

fn keys<H: Clock, W: Write>(
    alloc: Global,
    bench: &mut Bench<'_, H, W>,
    name: &str,
    length: u32,
    erases: bool,
    echo: bool,
) -> Result<(), Stuck> {
    let keys = line_of(alloc, length, erases)?;
    let load = make_typing(alloc, Limit::standard(), keys, echo, 0)?;
    bench.tell(name, load)
}

/// Keys by name: the length of a line, whether every third is ERASE, and whether they are echoed.
const TYPED: &[(&str, u32, bool, bool)] = &[
    ("no echo, lines of 2", 2, false, false),
    ("no echo, lines of 64", 64, false, false),
    ("no echo, lines of 254", 254, false, false),
    ("no echo, each third key ERASE", 64, true, false),
    ("echo, lines of 2", 2, false, true),
    ("echo, lines of 64", 64, false, true),
    ("echo, lines of 254", 254, false, true),
    ("echo, each third key ERASE", 64, true, true),
];

pub(crate) fn run<H: Clock, W: Write>(
    alloc: Global,
    bench: &mut Bench<'_, H, W>,
) -> Result<(), Stuck> {
    for (name, length, erases, echo) in TYPED {
        keys(alloc, bench, name, *length, *erases, *echo)?;
    }
    Ok(())
}
