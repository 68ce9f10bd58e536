//! Tests that the work goes on in several threads: each waits for what another does.

use super::runs::{join, serve};
use super::sessions::{ended, reaction};
use std::alloc::{AllocError, Global};
use std::io::Read;
use std::process::Abort;
use std::sync::atomic::{AtomicBool, Ordering};
use std::sync::{Arc, Wait};
use std::test::Fail;
use std::thread::Threads;
use std::{io, thread};
use tn_discipline::{Entry, Settings};
use tn_jobs::{After, Job, JobId, Reaction};
use tn_server::Editing;
use tn_session::{Ended, Gate, Maker, Place, Report, Unwatched};

/// The most turns of a wait.
const MAX_TURNS: u32 = 1_048_576;

/// The flags that the threads set for each other.
#[derive(Drop)]
struct Flags {
    entry: AtomicBool,
    written: AtomicBool,
    stuck: AtomicBool,
}

impl Flags {
    fn wait(&self, flag: &AtomicBool) {
        wait(flag, &self.stuck);
    }
}

// Waits for a flag, and sets `stuck` if that takes too long.
pub(super) fn wait(flag: &AtomicBool, stuck: &AtomicBool) {
    for _turn in 0..MAX_TURNS {
        if flag.load(Ordering::SeqCst) {
            return;
        }
        thread::yield_now();
    }
    stuck.store(true, Ordering::SeqCst);
}

/// Gives a line, and its end once a background job has written.
#[derive(Drop)]
struct Slow {
    flags: Arc<Flags, Global>,
    given: bool,
}

impl Read for Slow {
    fn read(&mut self, buf: &mut [u8]) -> io::Result<usize> {
        if self.given {
            self.flags.wait(&self.flags.written);
            return Ok(0);
        }
        self.given = true;
        match buf.get_mut(..3) {
            Some(front) => {
                front.copy_from_slice(b"a\r\0");
                Ok(3)
            },
            None => Ok(0),
        }
    }
}

/// In the foreground it waits until a background job has written, which waits for it.
#[derive(Drop)]
struct Waiter {
    flags: Arc<Flags, Global>,
}

impl Job for Waiter {
    ghost use Rattle.std.specs.Prelude.{⊤};

    ghost fresh = { λ job. ⊤ };

    ghost reacts = { λ old entry reaction new. ⊤ };

    ghost steps = { λ old reaction new. ⊤ };

    fn entry(&mut self, alloc: Global, _entry: Entry) -> Result<Reaction, AllocError> {
        self.flags.entry.store(true, Ordering::SeqCst);
        self.flags.wait(&self.flags.written);
        reaction(alloc, b"", After::Stay)
    }

    fn step(&mut self, alloc: Global) -> Result<Reaction, AllocError> {
        self.flags.wait(&self.flags.entry);
        reaction(alloc, b"tick\n", After::Done)
    }
}

#[derive(Drop)]
struct Two {
    flags: Arc<Flags, Global>,
    left: u8,
}

impl Maker for Two {
    type Job = Waiter;

    fn next(&mut self, _alloc: Global) -> Result<Option<Waiter>, AllocError> {
        if self.left == 0 {
            return Ok(None);
        }
        self.left -= 1;
        let flags = Arc::try_clone(&self.flags)?;
        Ok(Some(Waiter { flags }))
    }
}

/// A gate that sets a flag once the background job's text was handled.
#[derive(Drop)]
struct Telling {
    flags: Arc<Flags, Global>,
}

impl Gate for Telling {
    fn at(&self, place: Place) {
        if place == Place::TermSaid(JobId(1)) {
            self.flags.written.store(true, Ordering::SeqCst);
        }
    }
}

fn meets<R: Threads + Wait + Copy + Send + 'static>(
    rt: R,
    alloc: Global,
    flags: &Arc<Flags, Global>,
) -> Result<Report, Fail> {
    let reader = Slow {
        flags: Arc::try_clone(flags)?,
        given: false,
    };
    let maker = Two {
        flags: Arc::try_clone(flags)?,
        left: 2,
    };
    let telling = Telling {
        flags: Arc::try_clone(flags)?,
    };
    let mut out = Vec::new(alloc);
    let (settings, editing) = (Settings::standard(), Editing::Remote);
    Ok(serve(
        rt, alloc, reader, &mut out, settings, editing, maker, telling,
    )?)
}

#[test]
fn a_session_runs_on_several_threads(rt: HostRuntime) -> Result<(), Fail> {
    let flags = Flags {
        entry: AtomicBool::new(false),
        written: AtomicBool::new(false),
        stuck: AtomicBool::new(false),
    };
    let flags = Arc::new(rt.alloc(), flags)?;
    let report = meets(rt, rt.alloc(), &flags)?;
    assert!(rt; report == ended(Ended::HangUp, 1, 1, 0));
    assert!(rt; !flags.stuck.load(Ordering::SeqCst));
    Ok(())
}

/// The flags that the two readers of a client set for each other.
#[derive(Drop)]
struct Meeting {
    keys: AtomicBool,
    net: AtomicBool,
    typed: AtomicBool,
    stuck: AtomicBool,
}

/// Types some keys, one in each read, once the network is being read too.
#[derive(Drop)]
struct Typist {
    meeting: Arc<Meeting, Global>,
    left: u8,
}

impl Read for Typist {
    fn read(&mut self, buf: &mut [u8]) -> io::Result<usize> {
        let meeting = &*self.meeting;
        meeting.keys.store(true, Ordering::SeqCst);
        wait(&meeting.net, &meeting.stuck);
        let Some(first) = buf.first_mut() else {
            return Ok(0);
        };
        if self.left == 0 {
            meeting.typed.store(true, Ordering::SeqCst);
            return Ok(0);
        }
        self.left -= 1;
        *first = b'a';
        Ok(1)
    }
}

/// A network that ends once keys are being read too, and all were typed.
#[derive(Drop)]
struct Quiet {
    meeting: Arc<Meeting, Global>,
}

impl Read for Quiet {
    fn read(&mut self, _buf: &mut [u8]) -> io::Result<usize> {
        let meeting = &*self.meeting;
        meeting.net.store(true, Ordering::SeqCst);
        wait(&meeting.keys, &meeting.stuck);
        wait(&meeting.typed, &meeting.stuck);
        Ok(0)
    }
}

fn types<R: Abort + Threads + Wait + Copy + Send + 'static>(
    rt: R,
    alloc: Global,
    meeting: &Arc<Meeting, Global>,
) -> Result<(), Fail> {
    let net = Quiet {
        meeting: Arc::try_clone(meeting)?,
    };
    let keys = Typist {
        meeting: Arc::try_clone(meeting)?,
        left: 3,
    };
    let mut out = Vec::new(alloc);
    let mut screen = Vec::new(alloc);
    let report = join(rt, alloc, net, keys, &mut out, &mut screen, Unwatched)?;
    assert!(rt; report == ended(Ended::HangUp, 3, 0, 0));
    assert!(rt; out.as_slice() == b"aaa".as_slice());
    Ok(())
}

#[test]
fn a_client_session_reads_keys_and_the_network_at_once(rt: HostRuntime) -> Result<(), Fail> {
    let meeting = Meeting {
        keys: AtomicBool::new(false),
        net: AtomicBool::new(false),
        typed: AtomicBool::new(false),
        stuck: AtomicBool::new(false),
    };
    let meeting = Arc::new(rt.alloc(), meeting)?;
    types(rt, rt.alloc(), &meeting)?;
    assert!(rt; !meeting.stuck.load(Ordering::SeqCst));
    Ok(())
}
