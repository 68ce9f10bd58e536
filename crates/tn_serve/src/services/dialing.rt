//! A connection to a line service, for the jobs of one session.

ghost use Rattle.std.specs.Io.{ReadsAtMost, WritesAtMost, KnownBytes.{ReadConsumes, WriteAppends}};
ghost use Rattle.std.specs.Prelude.{◌≡◌, ◌+◌, None, IfOk, IfSome, IsFalse, IsSome, IsTrue, OnErr, OnOk};
ghost use Rattle.std.specs.Prelude.{string_bytes};
ghost use Rattle.tn_serve.specs.services.{Dialing.IsToldTo, HangingUp.{HangsUpAtEnd, IsLast}};
ghost use Rattle.tn_serve.specs.services.Joining.{Connects, count};
ghost use Rattle.tn_net.specs.Passing.{HandsOn};

use crate::services::cutting::{Greets, HearsCut, HearsTelnet, LineFormat};
use crate::services::hanging_up::HangUp;
use crate::services::joining::Gateway;
use crate::services::joint::{Heard, Joint, LOOK, Told};
use crate::services::makers::Gateways;
use crate::services::telnet_side::TelnetSide;
use std::alloc::{AllocError, Global};
use std::io;
use std::io::{ErrorKind, Read, Write};
use std::net::{Shutdown, TcpStream};
use std::sync::atomic::{AtomicBool, Ordering};
use std::sync::{Arc, Mutex, OnceLock, Wait};
use std::time::{Clock, Duration};
use tn_cores::streams::is_interrupted;
use tn_net::network::Network;
use tn_net::{Closing, Hook};
use tn_session::{Finish, Maker};

/// The least number of looks of a write, while the service takes nothing.
const LOOKS: u32 = 20;

/// The number of looks of a write in a second.
const LOOKS_A_SECOND: u32 = 4;

/// The number of milliseconds for which a read waits after a carriage return, until that is shown
/// by itself.
const SOON: u64 = 20;

/// A stream of which each read waits for a time that can be set.
pub trait Pacing {
    fn wait_at_most(&self, milliseconds: u64);
}

impl Pacing for TcpStream {
    fn wait_at_most(&self, milliseconds: u64) {
        let _ = self.set_read_timeout(Some(Duration::from_millis(milliseconds)));
    }
}

/// Makes the jobs of one session that is joined to a line service. They connect to it while the session runs.
#[derive(Drop)]
pub struct Joiner<H, N> {
    rt: H,
    host: String,
    port: u16,
    patience: u32,
    lines: LineFormat,
    hook: Option<(Hook, N, N)>,
    jobs: Option<Gateways<ServiceReader<H, Heard<H, N>>, ServiceWriter<H, Told<H>, N>>>,
}

impl<H, N> Joiner<H, N> {
    /// Makes jobs that are joined to the service at this host and port, or at the path of a socket
    /// if the host is `unix:` and that path, which they dial for at most `patience` seconds. They
    /// hang up by this hook once the service ends. The first of `notes` gets the report of a
    /// service that speaks Telnet, and gives the text that the user reads first; the second gets
    /// the reports of lines that may have been truncated.
    pub fn new(
        rt: H,
        host: String,
        port: u16,
        patience: u32,
        lines: LineFormat,
        hook: Hook,
        notes: (N, N),
    ) -> Joiner<H, N>
        ensures rt { result.rt ≡ rt }
        ensures host { result.host ≡ host }
        ensures port { result.port ≡ port }
        ensures patience { result.patience ≡ patience }
        ensures lines { result.lines ≡ lines }
        ensures new { IsSome result.hook }
    {
        Joiner {
            rt,
            host,
            port,
            patience,
            lines,
            hook: Some((hook, notes.0, notes.1)),
            jobs: None,
        }
    }
}

// The client's side of a talk in Telnet, if lines go so.
fn telnet_of(alloc: Global, lines: LineFormat) -> Result<Option<Mutex<TelnetSide>>, AllocError> {
    if !lines.speaks_telnet {
        return Ok(None);
    }
    let side = TelnetSide::new(alloc, lines.sends_signals)?;
    Ok(Some(Mutex::new(side)))
}

impl<H: Clock + Copy + Network + Wait, N: Drop> Joiner<H, N> {
    // Makes the connection to the service, which is still to be dialled.
    fn joint(&self, alloc: Global) -> Result<Arc<Joint, Global>, AllocError>
        ensures host { IfOk result (λ joint.
            string_bytes joint.value.host ≡ string_bytes self.now.host) }
        ensures port { IfOk result (λ joint. joint.value.port ≡ self.now.port) }
        ensures patience { IfOk result (λ joint. joint.value.patience ≡ self.now.patience) }
    {
        let joint = Joint {
            host: String::from_str(alloc, self.host.as_str())?,
            port: self.port,
            patience: self.patience,
            stream: OnceLock::new(),
            given_up: AtomicBool::new(false),
            telnet: telnet_of(alloc, self.lines)?,
        };
        Ok(Arc::new(alloc, joint)?)
    }

    fn join(
        &self,
        alloc: Global,
        hook: Hook,
        notes: (N, N),
    ) -> Result<Gateways<ServiceReader<H, Heard<H, N>>, ServiceWriter<H, Told<H>, N>>, AllocError>
        ensures both { IfOk result (λ jobs. count jobs.writer + count jobs.reader ≡ 2) }
        ensures lines { IfOk result (λ jobs. jobs.lines ≡ self.now.lines) }
        ensures told { IfOk result (λ jobs. IfSome jobs.writer (λ writer. IsToldTo self.now.rt
            (string_bytes self.now.host) self.now.port self.now.patience writer.stream)) }
        ensures heard { IfOk result (λ jobs. IfSome jobs.reader (λ reader.
            IfSome jobs.writer (λ writer. (reader.stream.rt ≡ writer.stream.rt)
            × (reader.stream.joint.value ≡ writer.stream.joint.value)))) }
    {
        let joint = self.joint(alloc)?;
        hook.hold();
        let said_all = Arc::new(alloc, AtomicBool::new(false))?;
        let writer = ServiceWriter {
            rt: self.rt,
            stream: Told::new(self.rt, Arc::try_clone(&joint)?, hook.another()?),
            hook: hook.another()?,
            said_all: Arc::try_clone(&said_all)?,
            heeds_interrupts: !self.lines.sends_signals,
            notes: notes.1,
        };
        let reader = ServiceReader {
            rt: self.rt,
            stream: Heard::new(self.rt, alloc, joint, hook.another()?, notes.0),
            hook,
            said_all,
            returned: false,
        };
        Ok(Gateways::new(reader, writer, self.lines))
    }

    // Joins the session to the service, if that was not tried yet.
    fn connect(&mut self, alloc: Global) -> Result<(), AllocError>
        ensures connects { OnOk result (Connects (λ writer. IsToldTo self.old.rt
            (string_bytes self.old.host) self.old.port self.old.patience writer.stream)
            self.old.lines self.old.hook self.old.jobs self.new.jobs) }
        ensures tried { self.new.hook ≡ None }
        ensures refused { OnErr result (IsSome self.old.hook) }
    {
        let Some((hook, heard, told)) = self.hook.take() else {
            return Ok(());
        };
        self.jobs = Some(self.join(alloc, hook, (heard, told))?);
        Ok(())
    }
}

impl<H: Clock + Copy + Network + Wait, N: Greets + HearsCut + HearsTelnet + Drop> Maker
    for Joiner<H, N> {
    ghost use Rattle.std.specs.Prelude.{Some, string_bytes};
    ghost use Rattle.tn_serve.specs.services.Dialing.{IsToldTo};
    ghost use Rattle.tn_serve.specs.services.Joining.{GivesReached, GivesSide, left_to_make};

    type Job = Gateway<ServiceReader<H, Heard<H, N>>, ServiceWriter<H, Told<H>, N>>;

    ghost left = { λ joiner. Some (left_to_make joiner.hook joiner.jobs) };

    ghost gives = { λ old job new. GivesSide (left_to_make old.hook old.jobs) job
        × GivesReached (λ writer. IsToldTo old.rt (string_bytes old.host) old.port old.patience
        writer.stream) old.lines old.hook job };

    fn next(
        &mut self,
        alloc: Global,
    ) -> Result<
        Option<Gateway<ServiceReader<H, Heard<H, N>>, ServiceWriter<H, Told<H>, N>>>,
        AllocError,
    > {
        self.connect(alloc)?;
        match &mut self.jobs {
            Some(jobs) => {
                let next = jobs.next(alloc)?;
                Ok(next)
            },
            None => Ok(None),
        }
    }
}

/// The reader of the service's bytes. Their end hangs up, and the reader ends if the session is
/// over. After a carriage return a read is interrupted if nothing comes soon, so that a carriage
/// return by itself does not wait for the next bytes.
#[derive(Drop)]
pub struct ServiceReader<H, S, K = Hook> {
    rt: H,
    stream: S,
    hook: K,
    /// The service has closed its side.
    said_all: Arc<AtomicBool, Global>,
    /// A carriage return came last.
    returned: bool,
}

// tools/progress: d_gateway.pml, MAKES_STEP
// Reads what comes, until the session is over, or, after a carriage return, for a short time.
fn hear<H: Wait, S: Read, K: HangUp>(
    rt: &H,
    stream: &mut S,
    hook: &K,
    returned: bool,
    buf: &mut [u8],
) -> io::Result<usize>
    ensures bound { ReadsAtMost result buf.new }
    ensures hands_on { HandsOn (S.remaining stream.old) (S.remaining stream.new) result buf.new }
{
    for _ in rt.forever() {
        match stream.read(buf) {
            Ok(count) => return Ok(count),
            Err(error) if is_timeout(&error) => {},
            Err(error) => return Err(error),
        }
        if hook.is_over() {
            return Ok(0);
        }
        if returned {
            return Err(io::Error::from(ErrorKind::Interrupted));
        }
    }
    Ok(0)
}

impl<H: Copy + Wait, S: Drop + Read + Pacing, K: HangUp> ServiceReader<H, S, K> {
    fn hear(&mut self, buf: &mut [u8]) -> io::Result<usize>
        ensures bound { ReadsAtMost result buf.new }
        ensures hands_on { HandsOn (S.remaining self.old.stream) (S.remaining self.new.stream) result buf.new }
        ensures hook { self.new.hook ≡ self.old.hook }
    {
        hear(&self.rt, &mut self.stream, &self.hook, self.returned, buf)
    }

    // Sets the time for which a read waits, after this last byte.
    fn pace(&mut self, returned: bool)
        ensures stream { self.new.stream ≡ self.old.stream }
        ensures hook { self.new.hook ≡ self.old.hook }
    {
        if returned == self.returned {
            return;
        }
        self.returned = returned;
        self.stream.wait_at_most(if returned { SOON } else { LOOK });
    }

    // Hangs up after the last read.
    fn end_after(&mut self, read: &io::Result<usize>)
        ensures ends { HangsUpAtEnd read.now (K.hung_up self.old.hook) (K.hung_up self.new.hook) }
        ensures stream { self.new.stream ≡ self.old.stream }
    {
        if !is_last(read) {
            return;
        }
        self.said_all.store(true, Ordering::SeqCst);
        self.hook.hang_up();
    }
}

impl<H: Copy + Wait, S: Drop + Read + Pacing, K: HangUp> Read for ServiceReader<H, S, K> {
    fn read(&mut self, buf: &mut [u8]) -> io::Result<usize>
        ensures bound { ReadsAtMost result buf.new }
        ensures bytes { ReadConsumes None None result buf.new }
        ensures hands_on { HandsOn (S.remaining self.old.stream) (S.remaining self.new.stream) result buf.new }
        ensures ends { HangsUpAtEnd result (K.hung_up self.old.hook) (K.hung_up self.new.hook) }
    {
        let read = self.hear(buf);
        self.end_after(&read);
        self.pace(ends_by_return(&read, buf));
        read
    }
}

/// The writer of the lines to the service. If the session is over, or the service has closed its
/// side, a write that the service does not take is given up in time; at an interrupt it is given up
/// at once.
#[derive(Drop)]
pub struct ServiceWriter<H, S, N> {
    rt: H,
    stream: S,
    hook: Hook,
    said_all: Arc<AtomicBool, Global>,
    /// Interrupts end the session, in place of going to the service.
    heeds_interrupts: bool,
    /// The receiver of the reports of lines that may have been truncated.
    notes: N,
}

// tools/progress: d_gateway.pml, ANSWERS
// Writes as much as the stream takes at once, until the session is over, or the service has closed
// its side, and it takes nothing in time; or until an interrupt waits, if that is to end the
// session.
fn tell<H: Wait, S: Write>(
    rt: &H,
    stream: &mut S,
    hook: &Hook,
    said_all: &AtomicBool,
    heeds_interrupts: bool,
    buf: &[u8],
) -> io::Result<usize>
    ensures bound { WritesAtMost result buf.now }
    ensures bytes { WriteAppends (S.contents stream.old) (S.contents stream.new) result buf.now }
{
    let mut looks = 0u32;
    for _ in rt.forever() {
        match stream.write(buf) {
            Ok(count) => return Ok(count),
            Err(error) if is_timeout(&error) => looks = looks.saturating_add(1),
            Err(error) if is_interrupted(&error) => {},
            Err(error) => return Err(error),
        }
        if is_given_up(looks, hook, said_all, heeds_interrupts) {
            break;
        }
        if is_late(looks, hook.patience()) {
            hook.hang_up();
            break;
        }
    }
    Err(io::Error::from(ErrorKind::BrokenPipe))
}

impl<H: Copy + Wait, S: Drop + Write, N: Drop> Write for ServiceWriter<H, S, N> {
    ghost contents = { λ writer. S.Write.contents writer.stream };

    fn write(&mut self, buf: &[u8]) -> io::Result<usize> {
        tell(
            &self.rt,
            &mut self.stream,
            &self.hook,
            &self.said_all,
            self.heeds_interrupts,
            buf,
        )
    }

    fn flush(&mut self) -> io::Result<()> {
        Ok(())
    }
}

impl<H: Copy + Wait, S: Drop + Write + Closing, N: Drop> Finish for ServiceWriter<H, S, N> {
    fn finish(&mut self) {
        self.stream.close(Shutdown::Write);
    }
}

impl<H, S, N: HearsCut> HearsCut for ServiceWriter<H, S, N> {
    fn hear_cut(&self, bytes: usize) {
        self.notes.hear_cut(bytes);
    }
}

// Returns whether the service has taken nothing for longer than it may: then the session ends. If
// the bytes sent before fill the connection, it does not show whether the user has left.
fn is_late(looks: u32, patience: usize) -> bool {
    patience > 0 && (looks / LOOKS_A_SECOND) as usize >= patience
}

// Returns whether no more goes to the service, after this number of looks at which it took nothing.
fn is_given_up(looks: u32, hook: &Hook, said_all: &AtomicBool, heeds_interrupts: bool) -> bool {
    if heeds_interrupts && hook.is_interrupted() {
        return true;
    }
    looks >= LOOKS && is_to_end(hook, said_all)
}

// Returns whether the service is to be sent no more than it takes: nothing more comes from the user
// than has come, or the service has closed its side, which ends the session.
fn is_to_end(hook: &Hook, said_all: &AtomicBool) -> bool {
    hook.is_over() || hook.has_client_ended() || said_all.load(Ordering::SeqCst)
}

// Returns whether a read gave bytes that end with a carriage return.
fn ends_by_return(read: &io::Result<usize>, buf: &[u8]) -> bool {
    match read {
        Ok(count) if *count > 0 => matches!(buf.get(*count - 1), Some(b'\r')),
        _ => false,
    }
}

// Returns whether the call waited for its time.
fn is_timeout(error: &io::Error) -> bool {
    error.kind() == ErrorKind::WouldBlock
}

// Returns whether the service has closed its side, or its connection is broken.
fn is_last(read: &io::Result<usize>) -> bool
    ensures last { IsTrue result → IsLast read.now }
    ensures other { IsFalse result → ¬ IsLast read.now }
{
    match read {
        Ok(count) => *count == 0,
        Err(error) => error.kind() != ErrorKind::Interrupted,
    }
}
