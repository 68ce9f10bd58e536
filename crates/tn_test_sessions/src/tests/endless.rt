//! Keys, and a job in the background, that have no end by themselves.

use super::runs::{join, serve};
use super::sessions::reaction;
use std::alloc::{AllocError, Global};
use std::io;
use std::test::Fail;
use tn_cores::streams::{Source, nothing_to_say};
use tn_discipline::{Entry, Settings};
use tn_jobs::{After, Job, Reaction};
use tn_server::Editing;
use tn_session::{Ended, Maker, Unwatched};

/// Gives keys for ever.
#[derive(Drop)]
struct Endless;

impl Source for Endless {
    fn last_words(&self) -> &'static [u8] {
        nothing_to_say()
    }

    fn read_some(&mut self, buf: &mut [u8]) -> io::Result<usize> {
        buf.fill(b'y');
        Ok(buf.len())
    }
}

/// A network whose other end has gone.
#[derive(Drop)]
struct Gone;

impl Source for Gone {
    fn last_words(&self) -> &'static [u8] {
        nothing_to_say()
    }

    fn read_some(&mut self, _buf: &mut [u8]) -> io::Result<usize> {
        Ok(0)
    }
}

/// Is done at its first entry; in the background it steps for ever.
#[derive(Drop)]
struct Ticking;

impl Job for Ticking {
    ghost use Rattle.std.specs.Prelude.{⊤};

    ghost fresh = { λ job. ⊤ };

    ghost reacts = { λ old entry reaction new. ⊤ };

    ghost steps = { λ old reaction new. ⊤ };

    fn entry(&mut self, alloc: Global, _entry: Entry) -> Result<Reaction, AllocError> {
        reaction(alloc, b"", After::Done)
    }

    fn step(&mut self, alloc: Global) -> Result<Reaction, AllocError> {
        reaction(alloc, b"tick\n", After::Stay)
    }
}

/// A maker of this number of them.
#[derive(Drop)]
struct Ticks {
    left: u8,
}

impl Maker for Ticks {
    type Job = Ticking;

    fn next(&mut self, _alloc: Global) -> Result<Option<Ticking>, AllocError> {
        if self.left == 0 {
            return Ok(None);
        }
        self.left -= 1;
        Ok(Some(Ticking))
    }
}

// The thread of the background jobs is asked to stop.
#[test]
fn a_background_job_steps_no_more_once_the_client_has_gone(rt: HostRuntime) -> Result<(), Fail> {
    let alloc = rt.alloc();
    let mut out = Vec::new(alloc);
    let (settings, editing) = (Settings::standard(), Editing::Remote);
    let maker = Ticks { left: 2 };
    let report = serve(
        rt, alloc, Gone, &mut out, settings, editing, maker, Unwatched,
    )?;
    assert!(rt; report.ended == Ended::HangUp);
    Ok(())
}

// The thread that reads the keys is asked to stop.
#[test]
fn keys_are_read_no_more_once_the_server_has_gone(rt: HostRuntime) -> Result<(), Fail> {
    let alloc = rt.alloc();
    let mut out = Vec::new(alloc);
    let mut screen = Vec::new(alloc);
    let report = join(rt, alloc, Gone, Endless, &mut out, &mut screen, Unwatched)?;
    assert!(rt; report.ended == Ended::HangUp);
    Ok(())
}
