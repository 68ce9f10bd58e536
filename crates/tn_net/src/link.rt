//! The state that the parts of a client's connection share.

ghost use Rattle.std.specs.Prelude.{◌≤◌, length};

use crate::bell::Bell;
use crate::half_line::HalfLine;
use crate::holding::Holding;
use crate::line_editor::Taken;
use crate::screen_log::ScreenLog;
use std::alloc::{AllocError, Global};
use std::fs::File;
use std::net::{Shutdown, TcpStream};
use std::os::fd::RawFd;
use std::sync::atomic::{AtomicBool, AtomicUsize, Ordering};
use std::sync::{Mutex, OnceLock, Wait};
use std::time::{Clock, Duration};
use std::{mem, thread};

/// The most waits of the sender once the user has left, and once nothing more comes. Each takes as
/// long as a write waits.
const MAX_LATE: usize = 4;

const MAX_LINGER: usize = 50;

/// A client's connection, as its parts share it. It is made before there is a connection, so that the screen
/// has it.
#[derive(Drop)]
pub struct Link {
    stream: OnceLock<TcpStream>,
    /// Nothing more comes; the bell is rung for that.
    closed: AtomicBool,
    bell: Bell,
    /// Reading from it failed.
    broken: AtomicBool,
    /// The screen takes no more.
    dark: AtomicBool,
    /// The user has left, and has done so by an interrupt or a quit.
    left: AtomicBool,
    interrupted: AtomicBool,
    /// LINEMODE is on.
    linemode: AtomicBool,
    /// The other end suppresses GO AHEAD.
    suppressed: AtomicBool,
    /// Lines may be edited at this end although LINEMODE is not on.
    has_line_mode: AtomicBool,
    /// The number of writes that could not be sent at once since the user left, or since nothing
    /// more comes.
    late: AtomicUsize,
    /// The number of keys that were typed and never came to the session.
    dropped: AtomicUsize,
    edits_here: AtomicBool,
    /// A line that LINEMODE has edited at the client may go as a whole.
    goes_whole: AtomicBool,
    echoes_there: AtomicBool,
    /// The number of bytes of a line that the client holds.
    held: AtomicUsize,
    /// A half-typed line was typed, and is held: in line mode, and by LINEMODE.
    has_half: AtomicBool,
    has_edited_half: AtomicBool,
    /// The bytes that the session shows next are an echo of keys.
    is_echoing: AtomicBool,
    /// The screen is flushed once nothing more waits to be shown.
    is_flushed: AtomicBool,
    /// Text that the screen held was not shown.
    is_missing: AtomicBool,
    /// Keys that were read wait to be taken.
    has_keys: AtomicBool,
    /// The half-typed line as it is shown, if there is a terminal to show it at.
    half: Mutex<Option<HalfLine>>,
    came: AtomicUsize,
    went: AtomicUsize,
    /// The file that gets what the screen gets, whether the time stands before each line, and
    /// whether one of all logs lacks something.
    log: Mutex<Option<ScreenLog>>,
    log_has_times: AtomicBool,
    log_lacks: AtomicBool,
}

impl Link {
    /// Makes the state before a connection.
    pub fn new() -> Link {
        Link {
            stream: OnceLock::new(),
            closed: AtomicBool::new(false),
            bell: Bell::new(),
            broken: AtomicBool::new(false),
            dark: AtomicBool::new(false),
            left: AtomicBool::new(false),
            interrupted: AtomicBool::new(false),
            linemode: AtomicBool::new(false),
            suppressed: AtomicBool::new(false),
            has_line_mode: AtomicBool::new(false),
            late: AtomicUsize::new(0),
            dropped: AtomicUsize::new(0),
            edits_here: AtomicBool::new(false),
            goes_whole: AtomicBool::new(false),
            echoes_there: AtomicBool::new(false),
            held: AtomicUsize::new(0),
            has_half: AtomicBool::new(false),
            has_edited_half: AtomicBool::new(false),
            is_echoing: AtomicBool::new(false),
            is_flushed: AtomicBool::new(false),
            is_missing: AtomicBool::new(false),
            has_keys: AtomicBool::new(false),
            half: Mutex::new(None),
            came: AtomicUsize::new(0),
            went: AtomicUsize::new(0),
            log: Mutex::new(None),
            log_has_times: AtomicBool::new(false),
            log_lacks: AtomicBool::new(false),
        }
    }

    /// Has what the screen gets appended to this file, in place of one that got it before.
    pub fn log_to<R: Wait>(&self, rt: &R, file: File) {
        let mut log = self.log.lock(rt);
        *log = Some(ScreenLog::new(file));
    }

    /// Has the time put before each line of a log.
    pub fn time_log(&self) {
        self.log_has_times.store(true, Ordering::SeqCst);
    }

    /// Ends the log. Whether there was one.
    pub(crate) fn end_log<R: Wait>(&self, rt: &R) -> bool {
        let mut log = self.log.lock(rt);
        mem::replace(&mut *log, None).is_some()
    }

    /// Returns whether each file has all that the screen got while it was the log.
    pub fn is_log_whole(&self) -> bool {
        !self.log_lacks.load(Ordering::SeqCst)
    }

    /// Notes the bytes that the screen got, in the log, if there is one.
    pub(crate) fn log<R: Clock + Wait>(&self, rt: &R, alloc: Global, bytes: &[u8]) {
        let mut log = self.log.lock(rt);
        let Some(log) = &mut *log else {
            return;
        };
        let has_times = self.log_has_times.load(Ordering::SeqCst);
        if !log.append(rt, alloc, has_times, bytes) {
            self.log_lacks.store(true, Ordering::SeqCst);
        }
    }

    /// Connects it. One that was connected before stays as it is.
    pub fn attach<R: Wait>(&self, rt: &R, stream: TcpStream) {
        let _ = self.stream.set(rt, stream);
    }

    /// Ends both directions. A read that waits for the other end returns.
    pub fn hang_up(&self) {
        self.shut(Shutdown::Both);
    }

    /// Ends the direction in which bytes go.
    pub(crate) fn end_writing(&self) {
        self.shut(Shutdown::Write);
    }

    fn shut(&self, how: Shutdown) {
        if let Some(stream) = self.stream.get() {
            let _ = stream.shutdown(how);
        }
    }

    /// Ends the connection, since the screen takes no more.
    pub(crate) fn darken(&self) {
        self.dark.store(true, Ordering::SeqCst);
        self.hang_up();
    }

    /// Returns whether the screen takes no more.
    pub fn is_dark(&self) -> bool {
        self.dark.load(Ordering::SeqCst)
    }

    /// Notes that the user leaves: a later failure is no fault, and both directions end once all
    /// was sent.
    pub(crate) fn leave(&self) {
        self.left.store(true, Ordering::SeqCst);
    }

    /// Notes that the user leaves by an interrupt or a quit.
    pub(crate) fn interrupt(&self) {
        self.interrupted.store(true, Ordering::SeqCst);
        self.leave();
    }

    /// Returns whether the user has left by an interrupt or a quit.
    pub fn is_interrupted(&self) -> bool {
        self.interrupted.load(Ordering::SeqCst)
    }

    /// Returns whether the user has left.
    pub fn is_left(&self) -> bool {
        self.left.load(Ordering::SeqCst)
    }

    /// Notes that nothing more is sent: the keys have ended, so a user who leaves has left before,
    /// or nothing that is typed has any effect any more.
    pub(crate) fn end_sending(&self) {
        if self.is_left() {
            self.hang_up();
        }
    }

    /// Returns whether bytes that cannot be sent are no fault: the user has left, or the screen
    /// takes no more.
    pub(crate) fn is_given_up(&self) -> bool {
        self.is_left() || self.is_dark()
    }

    /// Notes that something could not be sent at once. Whether it is to be tried no more.
    pub(crate) fn is_late(&self) -> bool {
        if self.is_given_up() {
            return self.late.fetch_add(1, Ordering::SeqCst) >= MAX_LATE;
        }
        self.is_closed() && self.late.fetch_add(1, Ordering::SeqCst) >= MAX_LINGER
    }

    pub(crate) fn count_dropped(&self, keys: usize) {
        self.dropped.fetch_add(keys, Ordering::SeqCst);
    }

    /// Returns the number of keys that were typed and never came to the session.
    pub fn dropped(&self) -> usize {
        self.dropped.load(Ordering::SeqCst)
    }

    /// Notes that a read failed, so that nothing more comes.
    pub(crate) fn break_off(&self) {
        self.broken.store(true, Ordering::SeqCst);
        self.close();
    }

    /// Returns whether a read from the connection failed.
    pub fn is_broken(&self) -> bool {
        self.broken.load(Ordering::SeqCst)
    }

    /// Notes that nothing more comes from the other end, or that it is no longer waited for.
    pub fn close(&self) {
        self.closed.store(true, Ordering::SeqCst);
        self.bell.ring();
    }

    /// Waits until nothing more comes, for at most this number of milliseconds.
    pub fn wait_for_close<R: Clock + Wait>(&self, rt: &R, milliseconds: u16) {
        if !self.bell.wait_for_ring(milliseconds) {
            thread::sleep(rt, Duration::from_millis(u64::from(milliseconds)));
        }
    }

    /// Returns the descriptor that can be read once nothing more comes.
    pub(crate) fn closing(&self) -> RawFd {
        self.bell.descriptor()
    }

    pub(crate) fn is_closed(&self) -> bool {
        self.closed.load(Ordering::SeqCst)
    }

    pub(crate) fn count_came(&self, bytes: usize) {
        self.came.fetch_add(bytes, Ordering::SeqCst);
    }

    pub(crate) fn count_went(&self, bytes: usize) {
        self.went.fetch_add(bytes, Ordering::SeqCst);
    }

    /// Returns the number of bytes that came.
    pub(crate) fn came(&self) -> usize {
        self.came.load(Ordering::SeqCst)
    }

    /// Returns the number of bytes that went.
    pub(crate) fn went(&self) -> usize {
        self.went.load(Ordering::SeqCst)
    }

    /// Notes whether LINEMODE is on, and whether lines are edited at the client.
    pub fn note_editing(&self, linemode: bool, here: bool) {
        self.linemode.store(linemode, Ordering::SeqCst);
        self.edits_here.store(here, Ordering::SeqCst);
    }

    /// Notes whether a line that LINEMODE has edited at the client may go as a whole, once it ends:
    /// nothing of it goes before, and it is edited by the standard characters.
    pub fn note_whole(&self, goes_whole: bool) {
        self.goes_whole.store(goes_whole, Ordering::SeqCst);
    }

    /// Notes whether the other end echoes.
    pub fn note_echo(&self, there: bool) {
        self.echoes_there.store(there, Ordering::SeqCst);
    }

    /// Notes the number of bytes of a line that the client holds.
    pub fn note_held(&self, bytes: usize) {
        self.held.store(bytes, Ordering::SeqCst);
    }

    /// Notes whether the other end suppresses GO AHEAD.
    pub fn note_suppressed(&self, suppressed: bool) {
        self.suppressed.store(suppressed, Ordering::SeqCst);
    }

    /// Begins or ends that lines are edited at this end while `is_line_mode` holds.
    pub(crate) fn set_line_mode(&self, has_line_mode: bool) {
        self.has_line_mode.store(has_line_mode, Ordering::SeqCst);
    }

    /// Keeps the half-typed line of line mode.
    pub(crate) fn edit_by<R: Wait>(&self, rt: &R, half: HalfLine) {
        let mut kept = self.half.lock(rt);
        *kept = Some(half);
    }

    /// Returns whether lines are edited at the client although LINEMODE is not on: the other end
    /// takes them whole (RFC 854, "The Network Virtual Terminal"), as long as it does not suppress
    /// GO AHEAD.
    pub(crate) fn is_line_mode(&self) -> bool {
        self.has_line_mode.load(Ordering::SeqCst)
            && !self.has_linemode()
            && !self.suppressed.load(Ordering::SeqCst)
    }

    /// Returns the lines that are held at the client until they end.
    pub(crate) fn holding(&self) -> Holding {
        if self.is_line_mode() {
            return Holding::LineMode;
        }
        let edits = self.has_linemode() && self.edits_here();
        if edits && self.goes_whole.load(Ordering::SeqCst) {
            return Holding::Edit;
        }
        Holding::Nothing
    }

    /// Notes which half-typed line is held.
    pub(crate) fn note_half(&self, half: Holding) {
        self.has_half
            .store(half == Holding::LineMode, Ordering::SeqCst);
        self.has_edited_half
            .store(half == Holding::Edit, Ordering::SeqCst);
    }

    /// Returns whether a half-typed line is held, and such lines are held no more.
    pub(crate) fn is_half_due(&self) -> bool {
        match self.holding() {
            Holding::LineMode => self.has_edited_half.load(Ordering::SeqCst),
            Holding::Edit => self.has_half.load(Ordering::SeqCst),
            Holding::Nothing => {
                self.has_half.load(Ordering::SeqCst) || self.has_edited_half.load(Ordering::SeqCst)
            },
        }
    }

    /// Returns the half-typed line that the client edits, if one is.
    pub(crate) fn half(&self) -> &Mutex<Option<HalfLine>> {
        &self.half
    }

    /// Edits the half-typed line by a key. If the line ended, `line` gets its bytes.
    pub(crate) fn edit_half<R: Wait>(
        &self,
        rt: &R,
        key: u8,
        line: &mut Vec<u8>,
    ) -> Result<Taken, AllocError> {
        let mut half = self.half.lock(rt);
        match &mut *half {
            Some(half) => half.take(key, self.echoes_there(), line),
            None => Ok(Taken::Edit),
        }
    }

    /// Returns the number of bytes of the half-typed line.
    pub(crate) fn count_half<R: Wait>(&self, rt: &R) -> usize {
        let half = self.half.lock(rt);
        match &*half {
            Some(half) => half.editor.count(),
            None => 0,
        }
    }

    /// Follows whether a line to the client itself is typed, below the half-typed line.
    pub(crate) fn follow_prompt<R: Wait>(&self, rt: &R, is_prompting: bool) {
        let mut half = self.half.lock(rt);
        if let Some(half) = &mut *half {
            half.follow_prompt(is_prompting);
        }
    }

    /// Sets the window's width; 0 if that is not known.
    pub(crate) fn resize_half<R: Wait>(&self, rt: &R, width: u16) {
        let mut half = self.half.lock(rt);
        if let Some(half) = &mut *half {
            half.resize(width);
        }
    }

    /// Notes whether keys that were read wait to be taken.
    pub(crate) fn note_keys(&self, has_keys: bool) {
        self.has_keys.store(has_keys, Ordering::SeqCst);
    }

    /// Returns whether keys that were read wait to be taken.
    pub fn has_keys(&self) -> bool {
        self.has_keys.load(Ordering::SeqCst)
    }

    /// Returns whether the bytes that come are to wait, since the user has stopped the screen of a
    /// connection that stands.
    pub(crate) fn holds_screen<R: Wait>(&self, rt: &R) -> bool {
        if self.is_left() || self.is_closed() {
            return false;
        }
        let half = self.half.lock(rt);
        match &*half {
            Some(half) => half.is_stopped(),
            None => false,
        }
    }

    /// Takes the half-typed line off the screen, since these bytes are to be shown. Returns how
    /// many of them can be shown at once: as long as the other end does not echo, a line feed goes
    /// to the left edge, as at a terminal whose ONLCR is set (POSIX.1-2017, XBD 11.2.3).
    pub(crate) fn take_half_off<R: Wait>(&self, rt: &R, bytes: &[u8]) -> usize
        ensures { result ≤ length bytes.now }
    {
        let mut half = self.half.lock(rt);
        let Some(half) = &mut *half else {
            return bytes.len();
        };
        half.take_off();
        if self.echoes_there() || !self.has_line_mode.load(Ordering::SeqCst) {
            return bytes.len();
        }
        half.count_in_row(bytes)
    }

    /// Puts the half-typed line back, once these bytes were shown.
    pub(crate) fn put_half_back<R: Wait>(&self, rt: &R, shown: &[u8]) {
        let mut half = self.half.lock(rt);
        if let Some(half) = &mut *half {
            half.put_back(shown);
        }
    }

    /// Returns how many bytes at the front of these, which the session is to show, were shown when they were typed.
    pub(crate) fn count_entered<R: Wait>(&self, rt: &R, bytes: &[u8]) -> usize
        ensures { result ≤ length bytes.now }
    {
        if !self.is_echoing.load(Ordering::SeqCst) {
            return 0;
        }
        let mut half = self.half.lock(rt);
        match &mut *half {
            Some(half) => half.count_entered(bytes),
            None => 0,
        }
    }

    /// Notes whether what the session shows next is an echo of keys.
    pub fn note_echoing(&self, is_echoing: bool) {
        self.is_echoing.store(is_echoing, Ordering::SeqCst);
    }

    /// Notes that the screen is flushed from now on once nothing more waits to be shown.
    pub fn note_flushing(&self) {
        self.is_flushed.store(true, Ordering::SeqCst);
    }

    pub(crate) fn flushes(&self) -> bool {
        self.is_flushed.load(Ordering::SeqCst)
    }

    /// Notes that text which the screen held could not be shown.
    pub(crate) fn note_missing(&self) {
        self.is_missing.store(true, Ordering::SeqCst);
    }

    /// Returns whether text that the screen held could not be shown.
    pub fn misses_text(&self) -> bool {
        self.is_missing.load(Ordering::SeqCst)
    }

    pub(crate) fn has_linemode(&self) -> bool {
        self.linemode.load(Ordering::SeqCst)
    }

    /// Returns the number of bytes of a line that the client holds.
    pub fn held(&self) -> usize {
        self.held.load(Ordering::SeqCst)
    }

    pub(crate) fn edits_here(&self) -> bool {
        self.edits_here.load(Ordering::SeqCst)
    }

    pub(crate) fn echoes_there(&self) -> bool {
        self.echoes_there.load(Ordering::SeqCst)
    }
}
