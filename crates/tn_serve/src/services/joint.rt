//! The connection to a line service, which is made while its session runs.

ghost use Rattle.std.specs.Io.{ReadsAtMost, KnownBytes.ReadConsumes};
ghost use Rattle.std.specs.Prelude.{◌≡◌, ◌≤◌, None, IfOk, IfSome, length, string_bytes};
ghost use Rattle.tn_net.specs.network.Asked.{ReachesService, names_path};
ghost use Rattle.tn_serve.specs.services.Dialing.{unreached};

use crate::services::cutting::{Greets, HearsTelnet};
use crate::services::dialing::Pacing;
use crate::services::talking::{hear, say};
use crate::services::telnet::Speech;
use crate::services::telnet_side::TelnetSide;
use std::alloc::Global;
use std::io::{ErrorKind, Read, Write};
use std::net::{Shutdown, TcpStream};
use std::sync::atomic::{AtomicBool, Ordering};
use std::sync::{Arc, Mutex, OnceLock, Wait};
use std::time::{Clock, Duration, Instant};
use std::{io, thread};
use tn_net::network::{Network, reach_service};
use tn_net::{Closing, Hook};

/// The number of milliseconds for which a read or a write waits before it looks whether its session
/// is over.
pub(crate) const LOOK: u64 = 250;

/// The number of seconds for which each address is waited for, before it is checked whether the
/// session is over.
const SLICE: u32 = 1;

/// The number of milliseconds without a connection after which an address is asked again.
const WAITED: u64 = 900;

/// The number of looks of a write for the connection until then, and the number of milliseconds
/// between them.
const WAITS: u8 = 25;

pub(crate) const WAIT: u64 = 10;

/// The text that a user reads in place of the service's bytes, before the cause.
const UNREACHED: &[u8] = b"the service cannot be reached";

/// The connection to a line service, as both sides of a session have it: the one that reads makes it.
#[derive(Drop)]
pub struct Joint {
    /// The host, or `unix:` and the path of a socket, which has no port.
    pub(crate) host: String,
    pub(crate) port: u16,
    /// The number of seconds for which the service is dialled.
    pub(crate) patience: u32,
    pub(crate) stream: OnceLock<TcpStream>,
    /// The service is not dialled any more.
    pub(crate) given_up: AtomicBool,
    /// The client's side of a talk in Telnet, if that is spoken.
    pub(crate) telnet: Option<Mutex<TelnetSide>>,
}

impl Joint {
    // Keeps the connection. If it cannot be used, the service is given up.
    fn keep<R: Wait>(&self, rt: &R, stream: TcpStream, hook: &Hook) {
        match prepared(&stream) {
            Ok(onward) => {
                let _ = self.stream.set(rt, stream);
                hook.join(rt, onward);
            },
            Err(_) => self.give_up(),
        }
    }

    fn give_up(&self) {
        self.given_up.store(true, Ordering::SeqCst);
    }

    fn is_given_up(&self) -> bool {
        self.given_up.load(Ordering::SeqCst)
    }

    // Sends bytes of a line. `None` if the other job sends something meanwhile.
    fn send<R: Wait>(&self, rt: &R, stream: &TcpStream, line: &[u8]) -> io::Result<Option<usize>>
        ensures { IfOk result (λ sent. IfSome sent (λ count. count ≤ length line.now)) }
    {
        match &self.telnet {
            Some(telnet) => say(rt, telnet, stream, line),
            None => {
                let mut stream = stream;
                let count = stream.write(line)?;
                Ok(Some(count))
            },
        }
    }
}

// Sets for how long a call of the connection waits: for a short time. Returns one more handle of it.
fn prepared(stream: &TcpStream) -> io::Result<TcpStream> {
    // A socket of the Unix domain has no such option.
    let _ = stream.set_nodelay(true);
    stream.set_read_timeout(Some(Duration::from_millis(LOOK)))?;
    stream.set_write_timeout(Some(Duration::from_millis(LOOK)))?;
    stream.try_clone()
}

/// The reader of the service's bytes. The first reads dial the service, and each read waits for a
/// short time.
#[derive(Drop)]
pub struct Heard<H, N> {
    pub(crate) rt: H,
    pub(crate) joint: Arc<Joint, Global>,
    alloc: Global,
    hook: Hook,
    /// The moment at which the service was dialled first.
    began: Option<Instant>,
    /// The text that is read if the service was not reached, before the cause and after it.
    words: &'static [u8],
    end: &'static [u8],
    /// The cause, and how many bytes of it were read.
    cause: Vec<u8>,
    told: usize,
    speech: Speech,
    /// The holder of the text that is read first, which gets the report of a service that speaks
    /// Telnet.
    notes: N,
    /// The number of bytes of the first text that were read.
    greeted: usize,
}

impl<H, N> Heard<H, N> {
    pub(crate) fn new(
        rt: H,
        alloc: Global,
        joint: Arc<Joint, Global>,
        hook: Hook,
        notes: N,
    ) -> Heard<H, N>
        ensures rt { result.rt ≡ rt }
        ensures joint { result.joint ≡ joint }
        ensures words { result.words.now ≡ unreached }
    {
        Heard {
            rt,
            joint,
            alloc,
            hook,
            began: None,
            words: UNREACHED,
            end: b"\n",
            cause: Vec::new(alloc),
            told: 0,
            speech: Speech::new(),
            notes,
            greeted: 0,
        }
    }
}

impl<H: Clock + Copy + Network + Wait, N: Drop> Heard<H, N> {
    // Asks each address once, for a short time.
    fn ask(&self, causes: &mut Vec<u8>) -> io::Result<TcpStream>
        ensures { ReachesService (names_path (string_bytes self.now.joint.value.host))
            (H.joins self.now.rt (string_bytes self.now.joint.value.host))
            (H.finds self.now.rt (string_bytes self.now.joint.value.host) self.now.joint.value.port)
            (H.dials self.now.rt) result }
    {
        let joint = &*self.joint;
        let host = joint.host.as_str();
        reach_service(&self.rt, host, joint.port, SLICE, causes)
    }

    // Dials, for a short time. The service is given up once it was dialled for long enough, or if no address kept
    // it waiting; then it is noted why.
    fn dial(&mut self) {
        let now = Instant::now(&self.rt).ok();
        if self.began.is_none() {
            self.began = now;
        }
        let mut causes = Vec::new(self.alloc);
        match self.ask(&mut causes) {
            Ok(stream) => self.joint.keep(&self.rt, stream, &self.hook),
            Err(error) => {
                if self.waited(now) >= WAITED && self.waited(self.began) < self.patience() {
                    return;
                }
                let _ = write!(self.cause, ": {}", error);
                self.hook.note_unreached(&self.rt, causes);
                self.joint.give_up();
            },
        }
    }

    // Returns the number of milliseconds for which the service was dialled since this moment.
    // Without a clock it is 0.
    fn waited(&self, moment: Option<Instant>) -> u64 {
        match moment.map(|moment| moment.elapsed(&self.rt)) {
            Some(Ok(elapsed)) => u64::try_from(elapsed.as_millis()).unwrap_or(u64::MAX),
            _ => 0,
        }
    }

    // Reads that the service was not reached, and why.
    fn say(&mut self, buf: &mut [u8]) -> io::Result<usize>
        ensures bound { ReadsAtMost result buf.new }
    {
        if !self.words.is_empty() {
            return self.words.read(buf);
        }
        let Some(mut left) = self.cause.get(self.told..) else {
            return self.end.read(buf);
        };
        if left.is_empty() {
            return self.end.read(buf);
        }
        let read = left.read(buf);
        if let Ok(count) = &read {
            self.told = self.told.saturating_add(*count);
        }
        read
    }

    // Returns the number of milliseconds for which the service is dialled.
    fn patience(&self) -> u64 {
        u64::from(self.joint.patience).saturating_mul(1_000)
    }
}

impl<H, N: Greets> Heard<H, N> {
    // Returns the rest of the text that is read first.
    fn greeting(&self) -> &[u8] {
        self.notes.banner().get(self.greeted..).unwrap_or(b"")
    }

    fn greet(&mut self, buf: &mut [u8]) -> io::Result<usize>
        ensures bound { ReadsAtMost result buf.new }
    {
        let mut left = self.greeting();
        let read = left.read(buf);
        if let Ok(count) = &read {
            self.greeted = self.greeted.saturating_add(*count);
        }
        read
    }
}

impl<H: Clock + Copy + Network + Wait, N: Greets + HearsTelnet + Drop> Read for Heard<H, N> {
    fn read(&mut self, buf: &mut [u8]) -> io::Result<usize>
        ensures bound { ReadsAtMost result buf.new }
        ensures bytes { ReadConsumes None None result buf.new }
    {
        if !self.greeting().is_empty() {
            return self.greet(buf);
        }
        if let Some(stream) = self.joint.stream.get() {
            if let Some(telnet) = &self.joint.telnet {
                return hear(&self.rt, telnet, stream, &self.hook, buf);
            }
            let mut stream = stream;
            let count = stream.read(buf)?;
            return keep_text(&mut self.speech, &self.notes, count, buf);
        }
        if self.joint.is_given_up() {
            return self.say(buf);
        }
        self.dial();
        Err(io::Error::from(ErrorKind::WouldBlock))
    }
}

impl<H, N> Pacing for Heard<H, N> {
    fn wait_at_most(&self, milliseconds: u64) {
        if let Some(stream) = self.joint.stream.get() {
            stream.wait_at_most(milliseconds);
        }
    }
}

// Keeps the text of the bytes that were read, and reports once a service that speaks Telnet. A read
// without text is to be made again.
fn keep_text<N: HearsTelnet>(
    speech: &mut Speech,
    notes: &N,
    count: usize,
    buf: &mut [u8],
) -> io::Result<usize>
    ensures bound { ReadsAtMost result buf.new }
{
    let Some(bytes) = buf.get_mut(..count) else {
        return Ok(0);
    };
    let was_text = !speech.speaks_telnet();
    let kept = speech.keep_text(bytes);
    if was_text && speech.speaks_telnet() {
        notes.hear_telnet();
    }
    if kept == 0 && count > 0 {
        return Err(io::Error::from(ErrorKind::WouldBlock));
    }
    Ok(kept.min(buf.len()))
}

/// The writer of bytes to the service. Until the service is reached a write waits for a short time,
/// and is to be made again.
#[derive(Drop)]
pub struct Told<H> {
    pub(crate) rt: H,
    pub(crate) joint: Arc<Joint, Global>,
    hook: Hook,
}

impl<H> Told<H> {
    pub(crate) fn new(rt: H, joint: Arc<Joint, Global>, hook: Hook) -> Told<H>
        ensures rt { result.rt ≡ rt }
        ensures joint { result.joint ≡ joint }
    {
        Told { rt, joint, hook }
    }
}

impl<H: Clock + Wait> Told<H> {
    // Writes once the service is reached. `None` if that is to be tried again, after a short time.
    fn try_write(&self, buf: &[u8]) -> io::Result<Option<usize>>
        ensures { IfOk result (λ sent. IfSome sent (λ count. count ≤ length buf.now)) }
    {
        if let Some(stream) = self.joint.stream.get() {
            return self.joint.send(&self.rt, stream, buf);
        }
        if self.joint.is_given_up() || self.hook.is_over() {
            return Err(io::Error::from(ErrorKind::NotConnected));
        }
        Ok(None)
    }
}

impl<H: Clock + Drop + Wait> Write for Told<H> {
    fn write(&mut self, buf: &[u8]) -> io::Result<usize> {
        for _ in 0..WAITS {
            if let Some(count) = self.try_write(buf)? {
                return Ok(count);
            }
            thread::sleep(&self.rt, Duration::from_millis(WAIT));
        }
        Err(io::Error::from(ErrorKind::Interrupted))
    }

    fn flush(&mut self) -> io::Result<()> {
        Ok(())
    }
}

impl<H> Closing for Told<H> {
    fn close(&self, how: Shutdown) {
        match self.joint.stream.get() {
            Some(stream) => stream.close(how),
            None => self.hook.end(),
        }
    }
}
