//! Sessions whose reader or writer fails, or for which memory is refused.

ghost use Rattle.std.specs.{Prelude.{◌≡◌, ◌≤◌, Some, None, length}, Io.WritesAtMost};
ghost use Rattle.std.specs.Io.KnownBytes.{WriteAppends};
ghost use Rattle.tn_cores.specs.streams.Counting.{told_by};

use super::runs::serve;
use super::sessions::{Jobs, ended};
use std::alloc::Global;
use std::io::{self, ErrorKind};
use std::process::Abort;
use std::sync::Wait;
use std::thread::Threads;
use tn_cores::streams::{Drain, Source, Tally, nothing_to_say};
use tn_discipline::Settings;
use tn_server::{Editing, ServerFault};
use tn_session::{Ended, Finish, Report, SessionFault, Unwatched};

/// A reader that gives some bytes at once, then fails this number of times, and then ends; it
/// foretells how many of its calls will fail.
#[derive(Drop)]
struct Once {
    bytes: &'static [u8],
    failures: u32,
}

impl Once {
    fn give(&mut self, buf: &mut [u8]) -> usize
        ensures bound { result ≤ length buf.new }
        ensures length { length buf.new ≡ length buf.old }
        ensures failures { self.new.failures ≡ self.old.failures }
    {
        let count = self.bytes.len().min(buf.len());
        let (front, rest) = self.bytes.split_at(count);
        buf[..count].copy_from_slice(front);
        self.bytes = rest;
        count
    }
}

impl Source for Once {
    ghost foretold = { λ once. Some (record { failing = once.failures; interrupted = 0 }) };

    fn last_words(&self) -> &'static [u8] {
        nothing_to_say()
    }

    fn read_some(&mut self, buf: &mut [u8]) -> io::Result<usize> {
        if self.bytes.is_empty() && self.failures > 0 {
            self.failures -= 1;
            return Err(io::Error::from(ErrorKind::Other));
        }
        Ok(self.give(buf))
    }
}

/// A writer that takes all but one call, which fails or takes nothing; it reports how many of its
/// calls failed.
#[derive(Drop)]
struct Failing {
    taken: Vec<u8>,
    before: u32,
    takes_none: bool,
    tally: Tally,
}

impl Failing {
    fn take(&mut self, buf: &[u8]) -> io::Result<usize>
        ensures bound { WritesAtMost result buf.now }
        ensures bytes { WriteAppends None None result buf.now }
        ensures tally { self.new.tally ≡ self.old.tally }
    {
        if self.before == 0 {
            if self.takes_none {
                return Ok(0);
            }
            return Err(io::Error::from(ErrorKind::Other));
        }
        self.before = self.before.saturating_sub(1);
        self.taken.extend_from_slice(buf)?;
        Ok(buf.len())
    }
}

impl Drain for Failing {
    ghost told = { λ f. told_by f.tally };

    fn write_some(&mut self, buf: &[u8]) -> io::Result<usize> {
        let answer = self.take(buf);
        self.tally = self.tally.after_write(buf, &answer);
        answer
    }
}

impl Finish for Failing {
    fn finish(&mut self) {}
}

/// The opening messages, the line, and GA.
const WHOLE: [u8; 20] = [
    255, 253, 34, 255, 253, 31, 255, 251, 3, 255, 253, 3, 255, 251, 1, 97, 13, 10, 255, 249,
];

// A session to which a line comes, and then the end of the input or a fault.
fn served<R: Threads + Wait + Copy + Send + 'static>(
    rt: R,
    alloc: Global,
    failures: u32,
    writer: &mut Failing,
) -> Result<Report, SessionFault> {
    let reader = Once {
        bytes: b"a\r\0",
        failures,
    };
    let (settings, editing) = (Settings::standard(), Editing::Remote);
    let maker = Jobs { left: 1 };
    serve(
        rt, alloc, reader, writer, settings, editing, maker, Unwatched,
    )
}

fn writer(alloc: Global, before: u32, takes_none: bool) -> Failing {
    Failing {
        taken: Vec::new(alloc),
        before,
        takes_none,
        tally: Tally::new(),
    }
}

// Returns whether a session may end so if an allocation was refused.
fn is_refused(answer: &Result<Report, SessionFault>) -> bool {
    match answer {
        Err(fault) => matches!(
            fault,
            SessionFault::Memory | SessionFault::Start | SessionFault::Channel
        ),
        Ok(report) => matches!(
            report.ended,
            Ended::Fault(
                SessionFault::Memory
                    | SessionFault::Write
                    | SessionFault::Server(ServerFault::Memory | ServerFault::Pty(_))
            )
        ),
    }
}

// The session ends so and writes all; if an allocation was refused, a second one does, and the
// first has written a front.
fn ends<R: Abort + Threads + Wait + Copy + Send + 'static>(
    rt: R,
    alloc: Global,
    failures: u32,
    how: Ended,
) {
    for _try in 0..2 {
        let mut writer = writer(alloc, u32::MAX, false);
        let answer = served(rt, alloc, failures, &mut writer);
        if answer == Ok(ended(how, 1, 1, 0)) && writer.taken.as_slice() == WHOLE.as_slice() {
            return;
        }
        // After a failed read a refusal is not reported any more: the first fault counts.
        let failed = failures > 0 && answer == Ok(ended(how, 1, 1, 0));
        assert!(rt; failed || is_refused(&answer), "{answer:?}");
        assert!(rt; WHOLE.starts_with(writer.taken.as_slice()));
    }
    assert!(rt; false, "refused twice");
}

#[test]
fn a_session_tells_a_failed_read(rt: HostRuntime) {
    ends(rt, rt.alloc(), 1, Ended::Fault(SessionFault::Read));
}

#[test]
fn a_session_ends_where_its_input_does(rt: HostRuntime) {
    ends(rt, rt.alloc(), 0, Ended::HangUp);
}

// Returns whether a write failed, the one after this number; or it is not known, if an allocation
// was refused.
fn fails_to_write<R: Abort + Threads + Wait + Copy + Send + 'static>(
    rt: R,
    alloc: Global,
    before: u32,
) -> Option<bool> {
    let mut writer = writer(alloc, before, before % 2 == 0);
    let answer = served(rt, alloc, 0, &mut writer);
    assert!(rt; WHOLE.starts_with(writer.taken.as_slice()));
    match how_it_ended(&answer) {
        Some(Ended::HangUp) => {
            assert!(rt; writer.taken.as_slice() == WHOLE.as_slice() && writer.tally.failed() == 0);
            Some(false)
        },
        Some(Ended::Fault(SessionFault::Write)) => {
            assert!(rt; writer.tally.failed() == 1);
            Some(true)
        },
        _ => {
            assert!(rt; is_refused(&answer), "{answer:?}");
            None
        },
    }
}

fn how_it_ended(answer: &Result<Report, SessionFault>) -> Option<Ended> {
    match answer {
        Ok(report) => Some(report.ended),
        Err(_) => None,
    }
}

#[test]
fn a_session_tells_a_failed_write(rt: HostRuntime) {
    let mut refused = 0u32;
    let mut failed = 0u32;
    for before in 0..16 {
        match fails_to_write(rt, rt.alloc(), before) {
            Some(true) => failed = failed.saturating_add(1),
            Some(false) => {},
            None => refused = refused.saturating_add(1),
        }
    }
    assert!(rt; refused <= 1);
    assert!(rt; (2..16).contains(&failed), "{failed}");
}
