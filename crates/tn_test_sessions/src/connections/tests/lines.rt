//! Lines typed over connections on this machine, compared with one local terminal: the entries that
//! the foreground job takes are those that `run_local` prints for the same keys.

use super::clients::{connect_here, link};
use std::alloc::{AllocError, Global};
use std::io::{self, Cursor, Read, Write};
use std::net::{Ipv4Addr, Net, Shutdown, TcpListener, TcpStream};
use std::process::Abort;
use std::sync::{Arc, Mutex, Wait};
use std::test::Fail;
use std::thread::Threads;
use std::time::{Clock, Duration};
use std::{mem, thread};
use tn_cli::run_local;
use tn_connect::Host;
use tn_discipline::{Entry, Limit, Settings, Sig, Text};
use tn_jobs::{After, Job, Reaction};
use tn_program::Network;
use tn_server::Editing;
use tn_session::{Ended, Finish, Maker, Unwatched, serve_session};
use tn_test_core::models::random::Random;

/// The number of sessions, half of them with lines that the client is asked to edit.
const SESSIONS: u32 = 100;

/// INTR, QUIT, SUSP, EOF, ERASE, KILL, and what closes a line.
const SPECIAL: [u8; 11] = [3, 28, 26, 4, 127, 127, 127, 21, 13, 13, 10];

const ORDINARY: [u8; 6] = [b'a', b'b', b'c', b' ', b',', b';'];

fn key(random: &mut Random) -> u8 {
    match random.roll(16) {
        0 => u8::try_from(random.roll(256)).unwrap_or(0),
        1 => 255,
        2..=6 => random.pick(&SPECIAL),
        _ => random.pick(&ORDINARY),
    }
}

// Some keys, and at times one of them as often as no line has room for.
fn keys_of(alloc: Global, random: &mut Random) -> Result<Vec<u8>, AllocError> {
    let mut keys = Vec::new(alloc);
    for _ in 0..random.roll(200) {
        let key = key(random);
        let times = if random.roll(60) == 0 { 270 } else { 1 };
        for _ in 0..times {
            keys.push(key)?;
        }
    }
    Ok(keys)
}

/// Gives its keys in pieces, some of them after a pause.
#[derive(Drop)]
struct Typist<R> {
    rt: R,
    random: Random,
    keys: Cursor<Vec<u8>>,
}

impl<R: Clock> Read for Typist<R> {
    fn read(&mut self, buf: &mut [u8]) -> io::Result<usize> {
        if self.random.flips() {
            thread::sleep(&self.rt, Duration::from_millis(1));
        }
        let most = self.random.roll(16).saturating_add(1).min(buf.len());
        self.keys.read(&mut buf[..most])
    }
}

/// Writes down each entry that it takes, and answers with no text.
#[derive(Drop)]
struct Recorder<R> {
    rt: R,
    taken: Arc<Mutex<String>, Global>,
}

// Answers an entry with no text.
fn silence(alloc: Global, after: After) -> Reaction {
    let text = Text::from(Vec::new(alloc));
    Reaction { text, after }
}

impl<R: Wait + Drop> Job for Recorder<R> {
    ghost use Rattle.std.specs.Prelude.{⊤};

    ghost fresh = { λ job. ⊤ };

    ghost reacts = { λ old entry reaction new. ⊤ };

    ghost steps = { λ old reaction new. ⊤ };

    fn entry(&mut self, alloc: Global, entry: Entry) -> Result<Reaction, AllocError> {
        write_down(&mut self.taken.lock(&self.rt), &entry)?;
        Ok(silence(alloc, After::Stay))
    }

    fn step(&mut self, alloc: Global) -> Result<Reaction, AllocError> {
        Ok(silence(alloc, After::Done))
    }
}

// The line that `tn local` prints of an entry.
fn write_down(taken: &mut String, entry: &Entry) -> Result<(), AllocError> {
    match entry {
        Entry::Text(text) => write_text(taken, text.as_slice()),
        Entry::Eof => taken.push_str("eof\n"),
        Entry::Signal(Sig::Int) => taken.push_str("signal int\n"),
        Entry::Signal(Sig::Quit) => taken.push_str("signal quit\n"),
        Entry::Signal(Sig::Tstp) => taken.push_str("signal tstp\n"),
    }
}

fn write_text(taken: &mut String, bytes: &[u8]) -> Result<(), AllocError> {
    taken.push_str("text ")?;
    for byte in bytes {
        let _refused = write!(taken, "{byte:02x}");
    }
    taken.push('\n')
}

/// Makes one job.
#[derive(Drop)]
struct One<R> {
    job: Option<Recorder<R>>,
}

impl<R: Wait + Drop> Maker for One<R> {
    type Job = Recorder<R>;

    fn next(&mut self, _alloc: Global) -> Result<Option<Recorder<R>>, AllocError> {
        Ok(self.job.take())
    }
}

/// The writing side of a connection, which is shut down at the end.
#[derive(Drop)]
struct Sending {
    stream: TcpStream,
}

impl Write for Sending {
    fn write(&mut self, buf: &[u8]) -> io::Result<usize> {
        self.stream.write(buf)
    }

    fn flush(&mut self) -> io::Result<()> {
        Ok(())
    }
}

impl Finish for Sending {
    fn finish(&mut self) {
        let _ = self.stream.shutdown(Shutdown::Write);
    }
}

// Runs a server's session over a connection, and returns whether a hang-up ended it.
fn serve<R: Threads + Wait + Copy + Send + 'static>(
    rt: R,
    alloc: Global,
    stream: TcpStream,
    editing: Editing,
    job: Recorder<R>,
) -> Option<bool> {
    let reader = stream.try_clone().ok()?;
    let mut writer = Sending { stream };
    let gate = Arc::new(alloc, Unwatched).ok()?;
    let maker = One { job: Some(job) };
    let (settings, limit) = (Settings::standard(), Limit::standard());
    match serve_session(
        rt,
        alloc,
        reader,
        &mut writer,
        settings,
        limit,
        editing,
        maker,
        gate,
    ) {
        Ok((report, _ports)) => Some(report.ended == Ended::HangUp),
        Err(_) => None,
    }
}

// Returns the entries that the foreground job of a session took, if a hang-up ended it.
fn record<R: Threads + Wait + Copy + Send + 'static>(
    rt: R,
    alloc: Global,
    stream: TcpStream,
    editing: Editing,
) -> Option<String> {
    let taken = Arc::new(alloc, Mutex::new(String::new(alloc))).ok()?;
    let job = Recorder {
        rt,
        taken: Arc::try_clone(&taken).ok()?,
    };
    if serve(rt, alloc, stream, editing, job) != Some(true) {
        return None;
    }
    let mut guard = taken.lock(&rt);
    Some(mem::replace(&mut *guard, String::new(alloc)))
}

// Returns the entries that the foreground job takes of these keys, which are typed in pieces at the
// other end of a connection.
fn typed_there<H>(
    rt: H,
    alloc: Global,
    keys: Vec<u8>,
    random: Random,
    editing: Editing,
) -> Result<Option<String>, Fail>
where
    H: Network + Host + Clock + Net<Listener = TcpListener, Stream = TcpStream>,
{
    let listener = TcpListener::bind(&rt, (Ipv4Addr::LOCALHOST, 0))?;
    let port = listener.local_addr()?.port();
    let server = thread::spawn(&rt, move || -> Option<String> {
        let Ok((stream, _)) = listener.accept() else {
            return None;
        };
        record(rt, alloc, stream, editing)
    })?;
    let typist = Typist {
        rt,
        random,
        keys: Cursor::new(keys),
    };
    let mut screen = Vec::new(alloc);
    let ended = connect_here(rt, alloc, port, link(alloc)?, typist, &mut screen);
    let taken = server.join(&rt);
    let (fault, _) = ended?;
    Ok(if fault.is_none() { taken } else { None })
}

// Returns the entries that one local terminal makes of them.
fn typed_here(alloc: Global, mut keys: &[u8]) -> Result<Vec<u8>, Fail> {
    let mut printed = Vec::new(alloc);
    run_local(alloc, &mut keys, &mut printed)?;
    Ok(printed)
}

fn is_same<H>(rt: H, alloc: Global, seed: u32) -> Result<bool, Fail>
where
    H: Network + Host + Clock + Net<Listener = TcpListener, Stream = TcpStream>,
{
    let mut random = Random::new(seed);
    let keys = keys_of(alloc, &mut random)?;
    let here = typed_here(alloc, &keys)?;
    let editing = if random.flips() {
        Editing::Local
    } else {
        Editing::Remote
    };
    match typed_there(rt, alloc, keys, random, editing)? {
        Some(there) => Ok(there.as_bytes() == here.as_slice()),
        None => Ok(false),
    }
}

#[test]
fn a_job_takes_what_a_local_terminal_gives(rt: HostRuntime) -> Result<(), Fail> {
    for seed in 0..SESSIONS {
        assert!(rt; is_same(rt, rt.alloc(), seed)?, "{seed}");
    }
    Ok(())
}
