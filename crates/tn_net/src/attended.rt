//! The reading side of a server's connection, with limits on the client's silence and on the time
//! of the session.

ghost use Rattle.std.specs.{Prelude.{◌≡◌, ◌≤◌, ◌≢◌, length, take, IfOk, IfSome, None, Some}, Io.ReadsAtMost};
ghost use Rattle.std.specs.Io.KnownBytes.{Consumes, Keeps, ReadConsumes};
ghost use Rattle.tn_net.specs.{LastWords.{last_lines, line_of}, Passing.GivesNext};
ghost use Rattle.tn_cores.specs.streams.{Beside.IsOneOf, Foretelling.ForetellsCall};
ghost use Rattle.tn_cores.specs.streams.Telling.{CountsRead, TellsCall};

use crate::bell::{Bell, has_peer_ended, is_broken};
use crate::connection::Closing;
use crate::presence::TypedPieces;
use std::alloc::{AllocError, Global};
use std::io::{ErrorKind, Read};
use std::net::{Shutdown, TcpStream};
use std::os::fd::AsRawFd;
use std::sync::atomic::{AtomicBool, AtomicUsize, Ordering};
use std::sync::{Arc, OnceLock, Wait};
use std::time::{Clock, Duration, Instant};
use std::{io, thread};
use tn_cores::streams::{Source, WindowSize};

/// The number of milliseconds for which a read waits before it looks whether its session is over.
const LOOK: u16 = 500;

/// The number of seconds that a peer has to close after it got the end of the stream, and after its
/// session lasted too long or its server is to end.
const LINGER: u64 = 5;

const LINGER_LATE: u64 = 1;

/// The reason why a session was late to end: its peer typed nothing for too long, or it lasted too
/// long itself.
const IDLE: usize = 1;

const TOO_LONG: usize = 2;

/// An interrupt or a quit waits for the job in the foreground.
const INTERRUPTED: usize = usize::MAX;

/// The factor by which a window's size is one number: its width times this, plus its height.
const SIDE: usize = 65_536;

/// The most looks whether a session is held still, and the number of milliseconds between them.
const HOLDS: u8 = 200;

const HOLD: u64 = 10;

/// The state that the two sides of a server's connection and its session share.
#[derive(Drop)]
pub struct Standing {
    /// The peer got the end of the stream.
    finished: AtomicBool,
    /// The peer typed nothing for too long (`IDLE`), or the session lasted too long (`TOO_LONG`); else 0.
    late: AtomicUsize,
    /// The size of the peer's window: its width `SIDE` times, and its height.
    window: AtomicUsize,
    /// Its server is to end.
    closing: AtomicBool,
    /// A job of the session wants it to end as by a hang-up.
    hung_up: AtomicBool,
    /// The bell that is rung if a job wants the session to end.
    bell: Bell,
    /// A job of the session still has to write once nothing more comes from the peer.
    held: AtomicBool,
    /// Whether nothing more comes from the peer.
    gone: AtomicBool,
    /// The number of seconds for which nothing may pass, or 0 for ever.
    patience: AtomicUsize,
    /// The connection, by which it is seen whether the peer has ended.
    stream: OnceLock<TcpStream>,
    /// The causes why the connection to which a job is joined was not reached, in lines.
    unreached: OnceLock<Vec<u8>>,
    /// The connection to which a job is joined.
    onward: OnceLock<TcpStream>,
    /// The number of the peer's pieces that went to the session.
    pieces: AtomicUsize,
    /// One more than after how many pieces all that was typed had gone to the job in the foreground, which
    /// waited for more. While that job does not wait: `INTERRUPTED`, or 0.
    answered: AtomicUsize,
    /// Whether no more is sent to the connection to which a job is joined.
    spent: AtomicBool,
}

impl Standing {
    /// Makes the state of a peer that was sent nothing yet, and from which everything is still to
    /// come.
    pub fn new(alloc: Global) -> Result<Arc<Standing, Global>, AllocError> {
        let standing = Standing {
            finished: AtomicBool::new(false),
            late: AtomicUsize::new(0),
            window: AtomicUsize::new(0),
            closing: AtomicBool::new(false),
            hung_up: AtomicBool::new(false),
            bell: Bell::new(),
            held: AtomicBool::new(false),
            gone: AtomicBool::new(false),
            patience: AtomicUsize::new(0),
            stream: OnceLock::new(),
            unreached: OnceLock::new(),
            onward: OnceLock::new(),
            pieces: AtomicUsize::new(0),
            answered: AtomicUsize::new(0),
            spent: AtomicBool::new(false),
        };
        Ok(Arc::new(alloc, standing)?)
    }

    /// Ends the session as by a hang-up: at once if it is held and the system has a bell to give,
    /// else within half a second.
    pub fn hang_up(&self) {
        self.hung_up.store(true, Ordering::SeqCst);
        self.bell.ring();
    }

    /// Returns whether the session is to end, or ended, by `hang_up`.
    pub fn is_hung_up(&self) -> bool {
        self.hung_up.load(Ordering::SeqCst)
    }

    /// Ends the session as by a hang-up, within half a second, since its server is to end.
    pub fn close(&self) {
        self.closing.store(true, Ordering::SeqCst);
        self.bell.ring();
    }

    /// Returns whether the session is to end, or ended, by `close`.
    pub fn is_closing(&self) -> bool {
        self.closing.load(Ordering::SeqCst)
    }

    /// Closes the connection in both directions, so that no write to a peer that takes nothing waits any more.
    pub fn cut(&self) {
        if let Some(stream) = self.stream.get() {
            stream.close(Shutdown::Both);
        }
    }

    /// Lets the session go on for two seconds at most once nothing more comes from the peer.
    pub fn hold(&self) {
        self.held.store(true, Ordering::SeqCst);
    }

    /// Returns whether the peer typed nothing for too long.
    pub fn is_idle(&self) -> bool {
        self.late.load(Ordering::SeqCst) == IDLE
    }

    /// Returns whether the session lasted too long.
    pub fn is_too_long(&self) -> bool {
        self.late.load(Ordering::SeqCst) == TOO_LONG
    }

    /// Returns whether the session was ended while its peer may still send: by `hang_up` or
    /// `close`, or since it lasted too long, or what came was not typed.
    pub fn is_ended_here(&self) -> bool {
        self.is_hung_up() || self.is_closing() || self.is_too_long() || self.is_idle()
    }

    /// Returns whether nothing more comes from the peer: it has hung up, or got the end of the
    /// stream.
    pub fn is_over(&self) -> bool {
        self.is_finished() || self.gone.load(Ordering::SeqCst)
    }

    /// Returns the number of seconds for which nothing may pass on the way to the peer, nor on to
    /// the connection to which a job is joined; 0 is for ever.
    pub fn patience(&self) -> usize {
        self.patience.load(Ordering::SeqCst)
    }

    /// Returns whether the peer has ended its stream, or is gone, even if the bytes that it sent
    /// before are not read yet.
    pub fn has_peer_ended(&self) -> bool {
        match self.stream.get() {
            Some(stream) => has_peer_ended(stream.as_raw_fd()),
            None => false,
        }
    }

    /// Keeps why what a job is joined to was not reached.
    pub(crate) fn note_unreached<R: Wait>(&self, rt: &R, causes: Vec<u8>) {
        let _ = self.unreached.set(rt, causes);
    }

    /// Returns why the connection to which a job is joined was not reached, if it was not.
    pub fn unreached(&self) -> Option<&[u8]> {
        match self.unreached.get() {
            Some(causes) => Some(causes.as_slice()),
            None => None,
        }
    }

    /// Notes the connection to which a job is joined: once the peer has ended its stream, and all
    /// of that has gone to the job in the foreground, no more is sent there.
    pub(crate) fn join<R: Wait>(&self, rt: &R, onward: TcpStream) {
        let _ = self.onward.set(rt, onward);
        if self.spent.load(Ordering::SeqCst) {
            self.end_onward(Shutdown::Write);
        }
    }

    /// Counts one more piece of the peer's stream that went to the session.
    pub fn count_piece(&self) {
        self.pieces.fetch_add(1, Ordering::SeqCst);
    }

    /// Notes that this number of pieces had their effect: whether all that was typed in them has
    /// gone to the job in the foreground, which waits for more, and whether an interrupt or a quit
    /// waits for that job.
    pub fn note_typed(&self, pieces: u64, is_answered: bool, is_interrupted: bool) {
        let answered = if is_answered {
            usize::try_from(pieces.saturating_add(1)).unwrap_or(0)
        } else if is_interrupted {
            INTERRUPTED
        } else {
            0
        };
        self.answered.store(answered, Ordering::SeqCst);
    }

    /// Notes the size of the peer's window.
    pub fn note_window(&self, size: WindowSize) {
        let width = usize::from(size.width).saturating_mul(SIDE);
        let window = width.saturating_add(usize::from(size.height));
        self.window.store(window, Ordering::SeqCst);
    }

    /// Returns the size of the peer's window in characters; 0 leaves a dimension open, as both are
    /// at first.
    pub(crate) fn window(&self) -> WindowSize {
        let window = self.window.load(Ordering::SeqCst);
        WindowSize {
            width: u16::try_from(window / SIDE).unwrap_or(0),
            height: u16::try_from(window % SIDE).unwrap_or(0),
        }
    }

    /// Returns whether an interrupt or a quit waits for the job in the foreground.
    pub(crate) fn is_interrupted(&self) -> bool {
        self.answered.load(Ordering::SeqCst) == INTERRUPTED
    }

    // Passes the end of the peer's stream on to the connection to which a job is joined, once all
    // before it went there. Each piece was counted before, by the thread that read it.
    fn pass_end(&self) {
        let pieces = self.pieces.load(Ordering::SeqCst);
        if self.answered.load(Ordering::SeqCst) != pieces.saturating_add(1) {
            return;
        }
        self.end();
    }

    /// Ends the stream to the connection to which a job is joined, or is joined later.
    pub(crate) fn end(&self) {
        self.spent.store(true, Ordering::SeqCst);
        self.end_onward(Shutdown::Write);
    }

    // Notes that nothing more comes from the peer, and that it takes nothing more: the connection
    // to which a job is joined is left at once.
    fn leave_onward(&self) {
        self.end_onward(Shutdown::Both);
    }

    fn end_onward(&self, how: Shutdown) {
        if let Some(onward) = self.onward.get() {
            onward.close(how);
        }
    }

    // Notes that nothing more comes from the peer, since reading failed or not.
    fn go(&self, failed: bool) {
        self.gone.store(true, Ordering::SeqCst);
        if failed {
            self.leave_onward();
        }
    }

    // Returns whether the connection is broken, as by a reset. A connection of the Unix domain,
    // which has no address, looks so once the peer has closed it, and is not: the bytes sent before
    // go on.
    fn is_broken(&self) -> bool {
        match self.stream.get() {
            Some(stream) => stream.local_addr().is_ok() && is_broken(stream.as_raw_fd()),
            None => false,
        }
    }

    /// Sends the end of the stream to the peer, and to the connection to which a job is joined: the
    /// jobs have left, or have no effect any more.
    pub(crate) fn finish(&self) {
        self.finished.store(true, Ordering::SeqCst);
        self.end();
    }

    fn is_finished(&self) -> bool {
        self.finished.load(Ordering::SeqCst)
    }

    // Returns whether the session is to end as by a hang-up, and the peer has not got the end of
    // the stream yet.
    fn is_to_end(&self) -> bool {
        self.is_hung_up() && !self.is_finished()
    }

    // Returns whether the session is to go on although nothing more comes from the peer.
    fn is_held(&self) -> bool {
        self.held.load(Ordering::SeqCst) && !self.is_hung_up() && !self.is_finished()
    }
}

/// The reason why no more is read from a peer that may still send, if neither the peer nor a job
/// wants that.
#[derive(Clone, Copy)]
pub(crate) enum Why {
    /// The peer typed nothing for too long.
    Idle,
    /// Its session has lasted too long.
    TooLong,
    /// Its server is to end.
    Closing,
}

fn words_of(why: Option<Why>) -> &'static [u8]
    ensures { result.now ≡ line_of why }
{
    match why {
        None => b"",
        Some(Why::Idle) => b"idle\n",
        Some(Why::TooLong) => b"too long\n",
        Some(Why::Closing) => b"closing\n",
    }
}

/// A client's stream, as a server reads it. It ends, as by a hang-up, if the client types nothing
/// for too long, if the session has lasted too long, if its server is to end, if a job of it wants
/// that, and if the client does not close in time after it got the end of the stream. Its last
/// words are `idle` in the first case, `too long` in the second and `closing` in the third.
#[derive(Drop)]
pub struct Attended<H, S> {
    rt: H,
    stream: S,
    standing: Arc<Standing, Global>,
    /// The number of seconds for which a client may type nothing, or 0 for ever.
    idle: u32,
    /// After how many seconds the session ends, or 0 for never.
    longest: u32,
    began: Option<Instant>,
    /// The moment at which something was typed last.
    heard: Option<Instant>,
    typed: TypedPieces,
    finished: Option<Instant>,
    why: Option<Why>,
}

impl<H: Clock + Copy + Wait> Attended<H, TcpStream> {
    /// Makes the reading side of a connection. It ends if for `idle` seconds nothing came that
    /// reaches the terminal, or after `longest` seconds; 0 is never. A write to the connection that
    /// the peer does not take for the shorter of the two fails: while it waits, the peer's silence
    /// is not noticed.
    ///
    /// # Errors
    ///
    /// - The system's error for the times of the connection, or for one more handle of it.
    pub fn new(
        rt: H,
        alloc: Global,
        stream: TcpStream,
        standing: Arc<Standing, Global>,
        idle: u32,
        longest: u32,
    ) -> io::Result<Attended<H, TcpStream>>
        ensures idle { IfOk result (λ attended. attended.idle ≡ idle) }
        ensures longest { IfOk result (λ attended. attended.longest ≡ longest) }
        ensures stream { IfOk result (λ attended. attended.stream ≡ stream) }
    {
        stream.set_read_timeout(Some(Duration::from_millis(u64::from(LOOK))))?;
        let bound = shorter(idle, longest);
        if bound > 0 {
            stream.set_write_timeout(Some(Duration::from_secs(u64::from(bound))))?;
        }
        let _ = standing.stream.set(&rt, stream.try_clone()?);
        standing.patience.store(bound as usize, Ordering::SeqCst);
        let now = Instant::now(&rt).ok();
        Ok(Attended {
            rt,
            stream,
            standing,
            idle,
            longest,
            began: now,
            heard: now,
            typed: TypedPieces::new(alloc),
            finished: None,
            why: None,
        })
    }
}

impl<H: Clock + Copy, S: Drop> Attended<H, S> {
    // Returns whether a moment lies this number of seconds back. Without a clock none does.
    fn is_past(&self, moment: Option<Instant>, seconds: u64) -> bool {
        match moment.map(|moment| moment.elapsed(&self.rt)) {
            Some(Ok(elapsed)) => elapsed.as_secs() >= seconds,
            _ => false,
        }
    }

    // Returns whether no more is read: the peer typed nothing for too long, or it had its time to
    // close. A peer that was idle has no such time, and one that stayed too long, or whose server
    // is to end, a short one.
    fn is_over(&mut self) -> bool
        ensures { self.new.stream ≡ self.old.stream }
    {
        if !self.standing.is_finished() {
            return self.is_idle();
        }
        if self.standing.is_idle() {
            return true;
        }
        if self.finished.is_none() {
            self.finished = Instant::now(&self.rt).ok();
        }
        let seconds = if self.standing.is_too_long() || self.standing.is_closing() {
            LINGER_LATE
        } else {
            LINGER
        };
        self.is_past(self.finished, seconds)
    }

    // Returns whether no more is read since nothing was typed for too long.
    fn is_idle(&mut self) -> bool
        ensures { self.new.stream ≡ self.old.stream }
    {
        if self.standing.is_finished() || self.idle == 0 {
            return false;
        }
        if !self.is_past(self.heard, u64::from(self.idle)) {
            return false;
        }
        self.standing.late.store(IDLE, Ordering::SeqCst);
        self.why = Some(Why::Idle);
        true
    }

    // Returns whether no more is read since the server is to end, or the session has lasted too
    // long.
    fn has_had_its_time(&mut self) -> bool
        ensures { self.new.stream ≡ self.old.stream }
    {
        if self.standing.is_finished() || !self.standing.is_closing() {
            return self.is_too_long();
        }
        self.why = Some(Why::Closing);
        true
    }

    // Returns whether no more is read since the session has lasted too long.
    fn is_too_long(&mut self) -> bool
        ensures { self.new.stream ≡ self.old.stream }
    {
        if self.standing.is_finished() || self.longest == 0 {
            return false;
        }
        if !self.is_past(self.began, u64::from(self.longest)) {
            return false;
        }
        self.standing.late.store(TOO_LONG, Ordering::SeqCst);
        self.why = Some(Why::TooLong);
        true
    }
}

impl<H: Clock + Copy + Wait, S: AsRawFd + Drop + Read + Closing> Attended<H, S> {
    // Waits for the client's bytes, for a short time, or until a job wants the session to end. It
    // returns whether they are to be read; if no job holds the session, and once one wants that,
    // the read waits itself.
    fn comes(&self) -> bool {
        if !self.standing.held.load(Ordering::SeqCst) || self.standing.is_hung_up() {
            return true;
        }
        self.standing.bell.wait(self.stream.as_raw_fd(), LOOK)
    }

    // Waits as long as the session is held, for two seconds at most, and no longer than until a reset. What a
    // job is joined to gets the end of what was typed.
    fn hold(&self) {
        for _ in 0..HOLDS {
            if !self.standing.is_held() {
                return;
            }
            if self.standing.is_broken() {
                return self.standing.leave_onward();
            }
            self.standing.pass_end();
            thread::sleep(&self.rt, Duration::from_millis(HOLD));
        }
    }

    // Makes one read. It returns `None` if its time has passed: a peer that keepalive gave up is
    // another error.
    fn read_once(&mut self, buf: &mut [u8]) -> io::Result<Option<usize>>
        ensures bound { IfOk result (λ some. IfSome some (λ n. n ≤ length buf.new)) }
        ensures some { IfOk result (λ some. IfSome some (λ n.
            Consumes (S.remaining self.old.stream) (S.remaining self.new.stream) (take n buf.new))) }
        ensures none { IfOk result (λ some. some ≡ None →
            Keeps (S.remaining self.old.stream) (S.remaining self.new.stream)) }
    {
        if !self.comes() {
            return Ok(None);
        }
        match self.stream.read(buf) {
            Ok(count) => {
                self.hear(&buf[..count]);
                Ok(Some(count))
            },
            Err(error) if error.kind() == ErrorKind::WouldBlock => Ok(None),
            Err(error) => Err(error),
        }
    }

    // Notes when something was typed last, if that is asked for.
    fn hear(&mut self, piece: &[u8])
        ensures { self.new.stream ≡ self.old.stream }
    {
        if self.idle > 0 && self.typed.has_typed(piece) {
            self.heard = Instant::now(&self.rt).ok();
        }
    }

    // tools/progress: proctype Net
    fn read_on(&mut self, buf: &mut [u8]) -> io::Result<usize>
        ensures bound { ReadsAtMost result buf.new }
        ensures gives { GivesNext (S.remaining self.old.stream) (S.remaining self.new.stream) result buf.new }
    {
        let rt = self.rt;
        for _ in rt.forever() {
            if self.standing.is_to_end() {
                return Ok(0);
            }
            if self.has_had_its_time() {
                return Ok(0);
            }
            match self.read_once(buf) {
                Ok(Some(0)) => {
                    self.hold();
                    return Ok(0);
                },
                Ok(Some(count)) => {
                    // A session that is over discards what still comes.
                    if self.standing.is_finished() {
                        return self.discard(buf);
                    }
                    // The bytes that came while the session was busy were typed in time.
                    if self.is_idle() {
                        return Ok(0);
                    }
                    return Ok(count);
                },
                Ok(None) => {},
                Err(error) => return Err(error),
            }
            if self.is_over() {
                break;
            }
        }
        self.stream.close(Shutdown::Read);
        Ok(0)
    }

    // Reads to the end, and gives nothing.
    fn discard(&mut self, buf: &mut [u8]) -> io::Result<usize>
        ensures { IfOk result (λ n. n ≡ 0) }
    {
        let rt = self.rt;
        for _ in rt.forever() {
            if self.is_over() {
                break;
            }
            match self.read_once(buf) {
                Ok(Some(0)) => return Ok(0),
                Ok(_) => {},
                Err(error) => return Err(error),
            }
        }
        self.stream.close(Shutdown::Read);
        Ok(0)
    }
}

impl<H: Clock + Copy + Wait, S: AsRawFd + Drop + Read + Closing> Source for Attended<H, S> {
    ghost words = { λ _. last_lines };

    fn last_words(&self) -> &'static [u8]
        ensures one { IsOneOf last_lines result.now }
        ensures why { result.now ≡ line_of self.now.why }
    {
        words_of(self.why)
    }

    fn read_some(&mut self, buf: &mut [u8]) -> io::Result<usize>
        ensures bound { ReadsAtMost result buf.new }
        ensures bytes { ReadConsumes None None result buf.new }
        ensures tells { TellsCall (CountsRead result) None None }
        ensures foretells { ForetellsCall result None None }
        ensures gives { GivesNext (S.remaining self.old.stream) (S.remaining self.new.stream) result buf.new }
    {
        let read = self.read_on(buf);
        if is_last(&read) {
            self.standing.go(read.is_err());
        }
        read
    }
}

// Returns the shorter of two times, of which 0 is for ever.
fn shorter(one: u32, other: u32) -> u32 {
    if one == 0 {
        return other;
    }
    if other == 0 {
        return one;
    }
    one.min(other)
}

// Returns whether no more is read after this.
fn is_last(read: &io::Result<usize>) -> bool {
    match read {
        Ok(count) => *count == 0,
        Err(error) => error.kind() != ErrorKind::Interrupted,
    }
}
