//! Readers and writers that fail.

ghost use Rattle.std.specs.{Prelude.{◌≡◌, None}, Io.{ReadsAtMost, WritesAtMost}};
ghost use Rattle.std.specs.Io.KnownBytes.{ReadConsumes, WriteAppends};
ghost use Rattle.tn_cores.specs.streams.Counting.{told_by};

use std::alloc::Global;
use std::io::{self, ErrorKind, Read};
use std::process::Abort;
use tn_cli::{CliFault, run_local, run_replay};
use tn_cores::streams::{Drain, Source, Tally, nothing_to_say};

/// Gives zeros for ever, so many at a time.
#[derive(Drop)]
struct Endless(usize);

impl Read for Endless {
    fn read(&mut self, buf: &mut [u8]) -> io::Result<usize> {
        let count = self.0.min(buf.len());
        buf[..count].fill(0);
        Ok(count)
    }
}

/// A reader that gives a key, and then fails; it reports how many of its calls failed.
#[derive(Drop)]
pub(crate) struct Broken {
    gave: bool,
    pub(crate) tally: Tally,
}

impl Broken {
    pub(crate) fn new() -> Broken {
        Broken {
            gave: false,
            tally: Tally::new(),
        }
    }

    fn give(&mut self, buf: &mut [u8]) -> io::Result<usize>
        ensures bound { ReadsAtMost result buf.new }
        ensures bytes { ReadConsumes None None result buf.new }
        ensures tally { self.new.tally ≡ self.old.tally }
    {
        match buf.first_mut() {
            Some(first) if !self.gave => {
                *first = b'\n';
                self.gave = true;
                Ok(1)
            },
            _ => Err(io::Error::from(ErrorKind::Other)),
        }
    }
}

impl Source for Broken {
    ghost told = { λ b. told_by b.tally };

    fn last_words(&self) -> &'static [u8] {
        nothing_to_say()
    }

    fn read_some(&mut self, buf: &mut [u8]) -> io::Result<usize> {
        let answer = self.give(buf);
        self.tally = self.tally.after_read(&answer);
        answer
    }
}

/// A writer that takes one byte at a time, this number of them, and then none or fails; it reports
/// how many of its calls failed.
#[derive(Drop)]
pub(crate) struct Narrow {
    pub(crate) taken: Vec<u8>,
    pub(crate) room: usize,
    pub(crate) fails: bool,
    pub(crate) tally: Tally,
}

impl Narrow {
    pub(crate) fn new(alloc: Global, room: usize, fails: bool) -> Narrow {
        Narrow {
            taken: Vec::new(alloc),
            room,
            fails,
            tally: Tally::new(),
        }
    }

    fn take(&mut self, buf: &[u8]) -> io::Result<usize>
        ensures bound { WritesAtMost result buf.now }
        ensures bytes { WriteAppends None None result buf.now }
        ensures tally { self.new.tally ≡ self.old.tally }
    {
        if self.taken.len() < self.room {
            if let Some(first) = buf.first() {
                self.taken.push(*first)?;
                return Ok(1);
            }
        }
        if self.fails {
            Err(io::Error::from(ErrorKind::Other))
        } else {
            Ok(0)
        }
    }
}

impl Drain for Narrow {
    ghost told = { λ n. told_by n.tally };

    fn write_some(&mut self, buf: &[u8]) -> io::Result<usize> {
        let answer = self.take(buf);
        self.tally = self.tally.after_write(buf, &answer);
        answer
    }
}

fn prints_nothing(rt: &impl Abort, ended: Result<(), CliFault>, why: CliFault, output: &[u8]) {
    assert!(rt; ended == Err(why));
    assert!(rt; output.is_empty());
}

fn reads_too_much(rt: &impl Abort, alloc: Global, step: usize) {
    let mut output = Vec::new(alloc);
    let ended = run_local(alloc, &mut Endless(step), &mut output);
    prints_nothing(rt, ended, CliFault::TooLong, &output);
    let ended = run_replay(alloc, &mut Endless(step), &mut output);
    prints_nothing(rt, ended, CliFault::TooLong, &output);
}

#[test]
fn too_much_input_prints_nothing(rt: HostRuntime) {
    reads_too_much(&rt, rt.alloc(), 1);
    reads_too_much(&rt, rt.alloc(), 4_000);
}

fn cannot_read(rt: &impl Abort, alloc: Global, locally: bool) {
    let mut output = Vec::new(alloc);
    let mut reader = Broken::new();
    let ended = if locally {
        run_local(alloc, &mut reader, &mut output)
    } else {
        run_replay(alloc, &mut reader, &mut output)
    };
    prints_nothing(rt, ended, CliFault::Read, &output);
    assert!(rt; reader.tally.failed() == 1);
}

#[test]
fn what_cannot_be_read_prints_nothing(rt: HostRuntime) {
    cannot_read(&rt, rt.alloc(), true);
    cannot_read(&rt, rt.alloc(), false);
}

/// The output of a line.
const WHOLE: &[u8] = b"text 610a\n";

// Prints a line to this writer.
fn print_line(alloc: Global, writer: &mut Narrow) -> Result<(), CliFault> {
    run_local(alloc, &mut b"a\n".as_slice(), writer)
}

// There is no room for all of a line: a write fails, and what was written begins it.
fn writes_a_front(rt: &impl Abort, alloc: Global, mut writer: Narrow) {
    let ended = print_line(alloc, &mut writer);
    let failed = ended == Err(CliFault::Write) && writer.tally.failed() == 1;
    assert!(rt; failed || ended == Err(CliFault::Memory));
    assert!(rt; WHOLE.starts_with(writer.taken.as_slice()));
}

fn writes_the_whole(rt: &impl Abort, alloc: Global) {
    let mut writer = Narrow::new(alloc, 100, true);
    if print_line(alloc, &mut writer).is_ok() {
        assert!(rt; writer.taken.as_slice() == WHOLE);
    }
}

#[test]
fn a_failed_write_leaves_a_front(rt: HostRuntime) {
    let alloc = rt.alloc();
    for room in 0..8 {
        writes_a_front(&rt, alloc, Narrow::new(alloc, room, true));
        writes_a_front(&rt, alloc, Narrow::new(alloc, room, false));
    }
    writes_the_whole(&rt, alloc);
}
