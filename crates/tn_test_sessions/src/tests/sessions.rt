//! Sessions over memory.

use super::runs::{join, serve};
use std::alloc::{AllocError, Global};
use std::io::Cursor;
use std::process::Abort;
use std::sync::Wait;
use std::test::Fail;
use std::thread::Threads;
use tn_discipline::{Entry, Settings, Sig, Text};
use tn_jobs::{After, Job, Reaction};
use tn_server::Editing;
use tn_session::{Ended, Maker, Report, Unwatched};

/// DO LINEMODE, DO NAWS, WILL SUPPRESS-GO-AHEAD, DO SUPPRESS-GO-AHEAD, WILL ECHO.
const OPENING: usize = 15;

/// Writes each line back; `exit` and the end of the input end it, and a signal is named.
#[derive(Drop)]
pub(super) struct Echo;

fn text_of(alloc: Global, bytes: &[u8]) -> Result<Text, AllocError> {
    let mut text = Vec::new(alloc);
    text.extend_from_slice(bytes)?;
    Ok(Text::from(text))
}

pub(crate) fn reaction(alloc: Global, bytes: &[u8], after: After) -> Result<Reaction, AllocError> {
    let text = text_of(alloc, bytes)?;
    Ok(Reaction { text, after })
}

impl Job for Echo {
    ghost use Rattle.std.specs.Prelude.{⊤};

    ghost fresh = { λ job. ⊤ };

    ghost reacts = { λ old entry reaction new. ⊤ };

    ghost steps = { λ old reaction new. ⊤ };

    fn entry(&mut self, alloc: Global, entry: Entry) -> Result<Reaction, AllocError> {
        match entry {
            Entry::Text(text) if text.as_slice() == b"exit\n".as_slice() => {
                reaction(alloc, b"bye\n", After::Done)
            },
            Entry::Text(text) => reaction(alloc, text.as_slice(), After::Stay),
            Entry::Eof => reaction(alloc, b"bye\n", After::Done),
            Entry::Signal(Sig::Int) => reaction(alloc, b"int\n", After::Stay),
            Entry::Signal(Sig::Quit) => reaction(alloc, b"quit\n", After::Stay),
            Entry::Signal(Sig::Tstp) => reaction(alloc, b"tstp\n", After::Stop),
        }
    }

    fn step(&mut self, alloc: Global) -> Result<Reaction, AllocError> {
        reaction(alloc, b"tick\n", After::Done)
    }
}

/// A maker of this number of jobs.
#[derive(Drop)]
pub(super) struct Jobs {
    pub(super) left: u8,
}

impl Maker for Jobs {
    type Job = Echo;

    fn next(&mut self, _alloc: Global) -> Result<Option<Echo>, AllocError> {
        if self.left == 0 {
            return Ok(None);
        }
        self.left -= 1;
        Ok(Some(Echo))
    }
}

// A session over this input, and how it ended.
fn served<R: Threads + Wait + Copy + Send + 'static>(
    rt: R,
    alloc: Global,
    input: &'static [u8],
    out: &mut Vec<u8>,
    editing: Editing,
    tostop: bool,
    jobs: u8,
) -> Result<Report, Fail> {
    let mut settings = Settings::standard();
    settings.flags.tostop = tostop;
    let maker = Jobs { left: jobs };
    Ok(serve(rt, alloc, input, out, settings, editing, maker, Unwatched)?)
}

pub(crate) fn ended(ended: Ended, pieces: u64, entries: u64, stops: u64) -> Report {
    Report {
        ended,
        pieces,
        entries,
        stops,
    }
}

// A session with one job writes this number of bytes after its opening messages, and ends so.
fn writes<R: Abort + Threads + Wait + Copy + Send + 'static>(
    rt: R,
    alloc: Global,
    input: &'static [u8],
    editing: Editing,
    wanted: &[u8],
    report: Report,
) -> Result<(), Fail> {
    let mut out = Vec::new(alloc);
    let told = served(rt, alloc, input, &mut out, editing, false, 1)?;
    assert!(rt; out.get(OPENING..) == Some(wanted));
    assert!(rt; told == report);
    Ok(())
}

/// The bytes that are typed, those that a session writes then, whether its job ended it, and how
/// many jobs were stopped.
const TYPED: &[(&[u8], &[u8], Ended, u64)] = &[
    (b"a\r\0", b"a\r\n\xff\xf9", Ended::HangUp, 0),
    (b"\x03", b"int\r\n\xff\xf9", Ended::HangUp, 0),
    (b"\x1a", b"tstp\r\n\xff\xf9", Ended::HangUp, 1),
    (b"exit\r\0", b"bye\r\n", Ended::Done, 0),
];

#[test]
fn a_session_answers_what_is_typed(rt: HostRuntime) -> Result<(), Fail> {
    for (input, wanted, how, stops) in TYPED {
        let report = ended(*how, 1, 1, *stops);
        writes(rt, rt.alloc(), *input, Editing::Remote, *wanted, report)?;
    }
    Ok(())
}

/// More lines than may wait.
const PASTED: &[u8; 4096] = &[10; 4096];

#[test]
fn a_session_holds_back_what_is_pasted(rt: HostRuntime) -> Result<(), Fail> {
    let mut out = Vec::new(rt.alloc());
    let report = served(rt, rt.alloc(), PASTED, &mut out, Editing::Remote, false, 1)?;
    assert!(rt; report == ended(Ended::HangUp, 8, 4096, 0));
    Ok(())
}

#[test]
fn a_session_stops_what_writes_in_the_background(rt: HostRuntime) -> Result<(), Fail> {
    let mut out = Vec::new(rt.alloc());
    let report = served(rt, rt.alloc(), b"", &mut out, Editing::Remote, true, 2)?;
    assert!(rt; out.len() == OPENING);
    assert!(rt; report == ended(Ended::HangUp, 0, 0, 0));
    Ok(())
}

/// The whole table of special characters, MODE with EDIT and TRAPSIG, the line, and GA.
const EDITED: [u8; 43] = [
    255, 250, 34, 3, 3, 2, 3, 7, 2, 28, 8, 2, 4, 9, 2, 26, 10, 2, 127, 11, 2, 21, 17, 0, 0, 18, 0,
    0, 255, 240, 255, 250, 34, 1, 3, 255, 240, 97, 3, 13, 10, 255, 249,
];

/// WILL LINEMODE, the acknowledgement of that mode, `a`, an interrupt, and the line's end.
const AT_CLIENT: &[u8; 14] = b"\xff\xfb\x22\xff\xfa\x22\x01\x07\xff\xf0a\x03\r\n";

#[test]
fn a_session_reads_what_the_client_edited(rt: HostRuntime) -> Result<(), Fail> {
    let report = ended(Ended::HangUp, 1, 1, 0);
    writes(rt, rt.alloc(), AT_CLIENT, Editing::Local, &EDITED, report)
}

#[test]
fn a_client_session_sends_and_echoes_keys(rt: HostRuntime) -> Result<(), Fail> {
    let mut out = Vec::new(rt.alloc());
    let mut screen = Vec::new(rt.alloc());
    let (net, keys) = (Cursor::new([]), Cursor::new(*b"a\r"));
    let report = join(rt, rt.alloc(), net, keys, &mut out, &mut screen, Unwatched)?;
    assert!(rt; report == ended(Ended::HangUp, 1, 0, 0));
    assert!(rt; out.as_slice() == b"a\r\0".as_slice());
    assert!(rt; screen.as_slice() == b"a\r\n".as_slice());
    Ok(())
}
