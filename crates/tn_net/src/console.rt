//! Standard input as keys: it is waited for, so that a session ends though nothing is typed, and at
//! a terminal the user speaks to the client itself after an escape character.

ghost use Rattle.std.specs.{Prelude.{◌≡◌, ◌≢◌, ◌≤◌, ◌+◌, ◌++◌, ℕ, [], None, length, take}, Io.ReadsAtMost};
ghost use Rattle.std.specs.{Io.KnownBytes.ReadConsumes, VecDeque.{deque_capacity, deque_len}};
ghost use Rattle.tn_net.specs.{Prompting.closed, Typing.{IsTakenUpTo, inputs, prompt_behind}};
ghost use Rattle.tn_net.specs.Passing.{GivesInputs, given_of, handed_on};
ghost use Rattle.tn_cores.specs.streams.{Foretelling.ForetellsCall, Telling.{CountsRead, TellsCall}};

use crate::client_files::ClientFiles;
use crate::deeds::{About, Deeds};
use crate::escaping::{Escaping, Keyboard, SessionInput};
use crate::kept;
use crate::keys::Typing;
use crate::returns::ReturnKey;
use crate::terminal::Terminal;
use libc::net::{POLLIN, poll};
use libc::types::pollfd;
use std::alloc::Global;
use std::collections::VecDeque;
use std::io::{ErrorKind, Read};
use std::sync::Wait;
use std::time::{Clock, Duration, Instant};
use std::{io, mem};
use tn_cores::streams::{Control, Source, WindowSize, nothing_to_say};

/// The descriptor of standard input (POSIX, `STDIN_FILENO`).
const STANDARD_INPUT: i32 = 0;

/// The descriptor that `poll` passes over (POSIX).
const NO_DESCRIPTOR: i32 = -1;

/// After how many milliseconds without a key it is looked whether a half-typed line is to be given.
/// The end of the session ends the wait by itself.
const LOOK: i32 = 200;

/// The number of milliseconds for which a wait lasts if keys are held back.
const HOLD: u64 = 200;

/// The most milliseconds that a terminal has to bring the next keys of a paste that is read ahead.
const REFILL: i32 = 2;

/// The most milliseconds for which a user who leaves waits until the keys before are taken.
const LEAVING: u64 = 1_000;

// The result of a wait.
#[derive(Clone, Copy)]
enum Ready {
    Size,
    /// Keys can be given, or read.
    Key,
    /// Keys can be read, and are to be kept.
    Ahead,
    /// A half-typed line that was typed before is to be given.
    HalfLine,
    Over,
}

/// Keys from standard input, and the requests of its user to the client itself. Of what is typed
/// nothing is known beforehand. While keys are held back, a user who speaks to the client itself is
/// served: the bytes that are typed are read ahead.
#[derive(Drop)]
pub struct Console<H, K> {
    rt: H,
    alloc: Global,
    typing: Typing<H, K>,
    escaping: Escaping,
    terminal: Terminal,
    // The inputs that are still to be given, whether the last read was ahead, and whether there is
    // no room for more.
    kept: VecDeque<SessionInput>,
    is_ahead: bool,
    is_full: bool,
    // The end of what is typed was read ahead.
    has_ended: bool,
    // When it was seen that the user leaves.
    left: Option<Instant>,
    // The size that came last, and has not been reported.
    resized: Option<WindowSize>,
    // The control function that is asked for after the keys that were given, and was not given.
    asked: Option<Control>,
}

impl<H: ClientFiles + Clock + Copy + Wait, K: Read + Drop> Console<H, K> {
    /// Makes keys of this source, which is standard input, with the meaning of its bytes. With an
    /// escape character its user speaks to the client itself.
    pub fn new(rt: H, alloc: Global, mut typing: Typing<H, K>, keyboard: Keyboard) -> Console<H, K>
        ensures escaping { result.escaping ≡ record { keyboard = keyboard; prompt = closed } }
        ensures keys { result.typing.keys ≡ typing.keys }
        ensures nothing_yet { (result.kept.items ≡ []) × (result.asked ≡ None) × (result.resized ≡ None) }
    {
        let terminal = typing.terminal.take();
        let terminal = terminal.unwrap_or(Terminal::new(None, None));
        Console {
            rt,
            alloc,
            typing,
            escaping: Escaping::new(keyboard),
            terminal,
            kept: VecDeque::new(alloc),
            is_ahead: false,
            is_full: false,
            has_ended: false,
            left: None,
            resized: None,
            asked: None,
        }
    }

    /// Returns whether a line to the client itself is typed.
    pub(crate) fn is_prompting(&self) -> bool {
        self.escaping.prompt.is_open
    }

    /// Returns the bytes that RETURN sends by the last line to the client itself that asked for
    /// them.
    pub(crate) fn asked_return(&self) -> Option<ReturnKey> {
        self.escaping.prompt.returns
    }

    // tools/progress: proctype ClientKeys
    // Waits until a size comes, a key can be given or read, or the session is over.
    fn wait(&self) -> Ready {
        for _ in self.rt.forever() {
            if self.typing.link.is_closed() {
                return Ready::Over;
            }
            if self.typing.link.is_half_due() {
                return Ready::HalfLine;
            }
            let ready = if self.typing.throttle.holds(0) {
                self.look_ahead()
            } else {
                self.look()
            };
            if let Some(ready) = ready {
                return ready;
            }
        }
        Ready::Over
    }

    // Returns what can be done if keys can be given, if there is anything.
    fn look(&self) -> Option<Ready> {
        if self.kept.len() > 0 {
            return Some(Ready::Key);
        }
        if self.has_ended {
            return Some(Ready::Over);
        }
        let mut waited = [
            waits_at(self.typing.sizes.descriptor()),
            waits_at(STANDARD_INPUT),
            waits_at(self.typing.link.closing()),
        ];
        if poll(&mut waited, LOOK) <= 0 {
            return None;
        }
        let [sizes, keys, _closed] = waited;
        if sizes.revents != 0 {
            return Some(Ready::Size);
        }
        if keys.revents != 0 {
            return Some(Ready::Key);
        }
        None
    }

    // Returns what can be done if keys are held back, if there is anything. A terminal brings a
    // paste in pieces.
    fn look_ahead(&self) -> Option<Ready> {
        let time = if self.is_ahead { REFILL } else { 0 };
        if self.can_read_ahead() {
            let mut waited = [waits_at(STANDARD_INPUT)];
            if poll(&mut waited, time) > 0 {
                return Some(Ready::Ahead);
            }
        }
        let _held = self.typing.throttle.holds(HOLD);
        None
    }

    fn can_read_ahead(&self) -> bool {
        self.escaping.keyboard.escape.is_some() && !self.is_full && !self.has_ended
    }

    // Takes a size, which is reported between two reads.
    fn take_size(&mut self)
        ensures keys { self.new.typing.keys ≡ self.old.typing.keys }
        ensures escaping { self.new.escaping ≡ self.old.escaping }
        ensures kept { self.new.kept ≡ self.old.kept }
        ensures asked { self.new.asked ≡ self.old.asked }
    {
        if let Some(size) = self.typing.sizes.read() {
            self.typing.width = size.width;
            self.typing.height = size.height;
            self.resized = Some(size);
        }
    }

    // Keeps what the session gets of these bytes, and does what the others ask for.
    fn sort(&mut self, bytes: &[u8])
        requires room { deque_len self.old.kept + length bytes.now ≤ deque_capacity self.old.kept }
        ensures kept { (count : ℕ)
            × IsTakenUpTo count self.old.escaping.keyboard self.old.escaping.prompt bytes.now
            × (self.new.kept.items ≡ self.old.kept.items
            ++ inputs self.old.escaping.keyboard self.old.escaping.prompt (take count bytes.now))
            × (self.new.escaping.prompt
            ≡ prompt_behind self.old.escaping.keyboard self.old.escaping.prompt (take count bytes.now)) }
        ensures keyboard { self.new.escaping.keyboard ≡ self.old.escaping.keyboard }
        ensures typing { self.new.typing ≡ self.old.typing }
        ensures asked { self.new.asked ≡ self.old.asked }
    {
        let mut deeds = Deeds {
            rt: self.rt,
            alloc: self.alloc,
            about: about(&self.typing),
            terminal: mem::replace(&mut self.terminal, Terminal::new(None, None)),
            own: self.escaping.keyboard.own,
        };
        let _taken = self.escaping.sort(bytes, &mut self.kept, &mut deeds);
        let Deeds { terminal, .. } = deeds;
        self.terminal = terminal;
    }

    // Gives the first of the keys that are kept, or has a control function reported; if there is
    // neither, it is as if a signal had come.
    fn give(&mut self, buf: &mut [u8]) -> io::Result<usize>
        ensures bound { ReadsAtMost result buf.new }
        ensures inputs { handed_on (given_of result buf.new) self.new.asked ++ self.new.kept.items
            ≡ handed_on [] self.old.asked ++ self.old.kept.items }
        ensures typing { self.new.typing ≡ self.old.typing }
        ensures escaping { self.new.escaping ≡ self.old.escaping }
    {
        if self.asked.is_some() {
            return Err(io::Error::from(ErrorKind::Interrupted));
        }
        let count = kept::give(&mut self.kept, buf);
        self.is_full = false;
        if count > 0 {
            return Ok(count);
        }
        self.asked = kept::first_control(&mut self.kept);
        Err(io::Error::from(ErrorKind::Interrupted))
    }

    // Reads what is typed, and keeps what the session gets of it. Whether there was anything.
    fn read_in(&mut self, buf: &mut [u8]) -> io::Result<bool>
        requires room { deque_len self.old.kept + length buf.old ≤ deque_capacity self.old.kept }
        ensures inputs { GivesInputs (K.remaining self.old.typing.keys) (K.remaining self.new.typing.keys)
            self.old.escaping self.new.escaping self.old.asked self.old.kept.items
            [] self.new.asked self.new.kept.items }
        ensures size { length buf.new ≡ length buf.old }
    {
        let count = self.typing.keys.read(buf)?;
        if count == 0 {
            return Ok(false);
        }
        self.sort(&buf[..count]);
        Ok(true)
    }

    // Gives what is kept, or reads what is typed and gives that.
    fn read_keys(&mut self, buf: &mut [u8]) -> io::Result<usize>
        ensures bound { ReadsAtMost result buf.new }
        ensures inputs { GivesInputs (K.remaining self.old.typing.keys) (K.remaining self.new.typing.keys)
            self.old.escaping self.new.escaping self.old.asked self.old.kept.items
            (given_of result buf.new) self.new.asked self.new.kept.items }
    {
        if !self.kept.is_empty() {
            return self.give(buf);
        }
        if !kept::makes_room(&mut self.kept, buf.len()) {
            return Err(io::Error::from(ErrorKind::OutOfMemory));
        }
        if self.read_in(buf)? {
            return self.give(buf);
        }
        Ok(0)
    }

    // Reads the bytes that are typed, if there is room to keep them. It gives nothing.
    fn read_ahead(&mut self, buf: &mut [u8]) -> io::Result<usize>
        ensures bound { ReadsAtMost result buf.new }
        ensures inputs { GivesInputs (K.remaining self.old.typing.keys) (K.remaining self.new.typing.keys)
            self.old.escaping self.new.escaping self.old.asked self.old.kept.items
            (given_of result buf.new) self.new.asked self.new.kept.items }
    {
        if kept::makes_room(&mut self.kept, buf.len()) {
            let more = self.read_in(buf)?;
            self.has_ended = !more;
        } else {
            self.is_full = true;
        }
        Err(io::Error::from(ErrorKind::Interrupted))
    }

    // Returns whether the keys that are kept are given up: the user left a while ago, or there is
    // no clock.
    fn is_late(&self) -> bool {
        let Some(left) = self.left else {
            return true;
        };
        match left.elapsed(&self.rt) {
            Ok(elapsed) => elapsed >= Duration::from_millis(LEAVING),
            Err(_) => true,
        }
    }

    // Waits, since the user leaves, until keys that are kept can be given. It returns false if none
    // will be.
    fn can_still_give(&self) -> bool {
        for _ in self.rt.forever() {
            if self.kept.len() == 0 || self.typing.link.is_closed() {
                return false;
            }
            if !self.typing.throttle.holds(0) {
                return true;
            }
            if self.is_late() {
                return false;
            }
            let _held = self.typing.throttle.holds(HOLD);
        }
        false
    }

    // Gives the keys that were typed before, once the user leaves, as long as they are taken, and
    // then ends.
    fn leave(&mut self, buf: &mut [u8]) -> io::Result<usize>
        ensures bound { ReadsAtMost result buf.new }
        ensures inputs { handed_on (given_of result buf.new) self.new.asked ++ self.new.kept.items
            ≡ handed_on [] self.old.asked ++ self.old.kept.items }
        ensures typing { self.new.typing ≡ self.old.typing }
        ensures escaping { self.new.escaping ≡ self.old.escaping }
    {
        if self.left.is_none() {
            self.left = Instant::now(&self.rt).ok();
        }
        if self.can_still_give() {
            return self.give(buf);
        }
        self.count_dropped();
        Ok(0)
    }

    // Counts the keys that are kept as given to no session.
    fn count_dropped(&self) {
        let keys = kept::count_keys(&self.kept);
        self.typing.link.count_dropped(keys);
    }
}

// Returns a session of Telnet, as the client describes it to its user.
fn about<H, K>(typing: &Typing<H, K>) -> About<'_> {
    About {
        link: &typing.link,
        host: typing.host.as_str(),
        port: typing.port,
        window: Some(WindowSize {
            width: typing.width,
            height: typing.height,
        }),
    }
}

// Returns what `poll` waits for at a descriptor.
fn waits_at(fd: i32) -> pollfd {
    pollfd {
        fd,
        events: POLLIN,
        revents: 0,
    }
}

impl<H: ClientFiles + Clock + Copy + Wait, K: Read + Drop> Source for Console<H, K> {
    ghost sizes = { λ _. None };

    ghost controls = { λ _. None };

    fn resized(&mut self) -> Option<WindowSize>
        ensures size { result ≡ self.old.resized }
    {
        self.resized.take()
    }

    fn control(&mut self) -> Option<Control>
        ensures control { result ≡ self.old.asked }
        ensures asked { self.new.asked ≡ None }
        ensures kept { self.new.kept ≡ self.old.kept }
    {
        self.asked.take()
    }

    fn last_words(&self) -> &'static [u8] {
        nothing_to_say()
    }

    fn read_some(&mut self, buf: &mut [u8]) -> io::Result<usize>
        ensures bound { ReadsAtMost result buf.new }
        ensures bytes { ReadConsumes None None result buf.new }
        ensures tells { TellsCall (CountsRead result) None None }
        ensures foretells { ForetellsCall result None None }
        ensures inputs { GivesInputs (K.remaining self.old.typing.keys) (K.remaining self.new.typing.keys)
            self.old.escaping self.new.escaping self.old.asked self.old.kept.items
            (given_of result buf.new) self.new.asked self.new.kept.items }
    {
        if self.typing.link.is_left() {
            return self.leave(buf);
        }
        let ready = self.wait();
        self.is_ahead = matches!(ready, Ready::Ahead);
        match ready {
            Ready::Over => {
                self.count_dropped();
                Ok(0)
            },
            Ready::Size => {
                self.take_size();
                Err(io::Error::from(ErrorKind::Interrupted))
            },
            Ready::HalfLine => Err(io::Error::from(ErrorKind::Interrupted)),
            Ready::Key => self.read_keys(buf),
            Ready::Ahead => self.read_ahead(buf),
        }
    }
}
