//! Waits for keys, for the service's bytes, and for room.

ghost use Rattle.std.specs.Prelude.{◌≡◌, Some, true};
ghost use Rattle.tn_connect.specs.Warnings.{count_in};
ghost use Rattle.tn_lines.specs.Openings.{warned_on};

use crate::settings::{KeySource, Plain};
use crate::warnings::Warnings;
use libc::net::{POLLIN, POLLOUT, poll};
use libc::types::pollfd;
use std::mem;
use std::sync::Wait;
use std::time::{Clock, Instant};
use tn_cores::streams::{Drain, write_all};
use tn_lines::{Await, Ready, Wants};
use tn_net::Link;

/// The descriptor of standard input (POSIX, `STDIN_FILENO`).
const STANDARD_INPUT: i32 = 0;

/// The descriptor that `poll` passes over (POSIX).
const NO_DESCRIPTOR: i32 = -1;

/// The time for which `poll` waits without an end (POSIX).
const FOR_EVER: i32 = -1;

/// The number of milliseconds after which it is checked whether the service is to get the end of
/// the stream.
const LOOK: i32 = 200;

/// The most milliseconds for which a user who leaves waits until the service has taken the lines
/// that were typed before.
const LEAVING: i32 = 1_000;

const TELNET: &[u8] = b"tn: the other end speaks Telnet: leave out --plain\n";

/// Waits by POSIX's `poll`. Keys of a reader of which nothing else is known can always be read, and so can keys that were
/// read and wait to be taken.
#[derive(Drop)]
pub(crate) struct Polling<'a, H, E> {
    rt: H,
    origin: KeySource,
    service: i32,
    /// The number of seconds after the end of the keys at which the service gets the end of the
    /// stream.
    wait: u32,
    /// The number of seconds for which the service may be silent after that; 0 for ever.
    patience: u32,
    link: &'a Link,
    /// The moment at which the keys ended.
    ended: Option<Instant>,
    /// The moment at which something passed last.
    passed: Option<Instant>,
    /// Whether the service's bytes come next, if both reading them and sending more can be done.
    hears_next: bool,
    errors: &'a mut E,
    /// The number of warnings to the user that the service speaks Telnet.
    warned: Warnings,
}

impl<'a, H, E> Polling<'a, H, E> {
    pub(crate) fn new(
        rt: H,
        plain: &Plain,
        service: i32,
        errors: &'a mut E,
        link: &'a Link,
    ) -> Polling<'a, H, E>
        ensures { count_in result.warned ≡ 0 }
    {
        Polling {
            rt,
            origin: plain.origin,
            service,
            wait: wait_of(plain),
            patience: patience_of(plain),
            link,
            ended: None,
            passed: None,
            hears_next: false,
            errors,
            warned: Warnings::new(),
        }
    }
}

// Returns the seconds to wait at the end of the keys: 0 at a terminal, whose user types the end of
// file.
fn wait_of(plain: &Plain) -> u32 {
    match plain.origin {
        KeySource::Terminal(_) => 0,
        KeySource::Reader | KeySource::Input => plain.wait,
    }
}

// Returns the seconds for which the service may be silent: 0, which is for ever, at a terminal.
fn patience_of(plain: &Plain) -> u32 {
    match plain.origin {
        KeySource::Terminal(_) => 0,
        KeySource::Reader | KeySource::Input => plain.patience,
    }
}

impl<'a, H: Clock, E> Polling<'a, H, E> {
    // Notes the moment from which the end of the stream is due to the service.
    fn note_end(&mut self)
        ensures errors { self.new.errors ≡ self.old.errors }
        ensures warned { self.new.warned ≡ self.old.warned }
    {
        if self.ended.is_none() {
            self.ended = Instant::now(&self.rt).ok();
        }
    }

    // Returns whether the time since the end of the keys has passed. Without a clock it has.
    fn is_past(&self) -> bool {
        self.wait == 0 || self.has_passed(self.ended, self.wait)
    }

    // Returns whether this number of seconds has passed. Without a clock it has.
    fn has_passed(&self, since: Option<Instant>, seconds: u32) -> bool {
        match since.map(|since| since.elapsed(&self.rt)) {
            Some(Ok(elapsed)) => elapsed.as_secs() >= u64::from(seconds),
            _ => true,
        }
    }

    // Ends a connection that has been silent for too long.
    fn look(&self) {
        if self.is_counted() && self.has_passed(self.passed, self.patience) {
            self.link.hang_up();
        }
    }

    // Returns whether the silence of the service counts: the keys have ended.
    fn is_counted(&self) -> bool {
        self.patience > 0 && self.ended.is_some()
    }
}

// Returns what `poll` waits for at a descriptor, if that is wanted.
fn waits_at(wanted: bool, fd: i32, events: i16) -> pollfd {
    pollfd {
        fd: if wanted { fd } else { NO_DESCRIPTOR },
        events,
        revents: 0,
    }
}

impl<'a, H: Clock + Copy + Wait, E> Polling<'a, H, E> {
    /// Returns the number of warnings to the user since the last call.
    pub(crate) fn take_warned(&mut self) -> Warnings
        ensures { result ≡ self.old.warned }
    {
        mem::replace(&mut self.warned, Warnings::new())
    }

    // Returns what can be done once the user leaves: the lines that were typed before are sent as
    // long as they are taken.
    fn leave(&self, wants: Wants) -> Ready {
        let mut waited = [waits_at(wants.room, self.service, POLLOUT)];
        if wants.room && poll(&mut waited, LEAVING) > 0 && waited[0].revents & POLLOUT != 0 {
            return Ready::Room;
        }
        if self.link.is_interrupted() {
            return Ready::Interrupt;
        }
        Ready::Leave
    }

    // Waits until one of them can be done.
    fn wait_for(&self, wants: Wants) -> Ready {
        for _ in self.rt.forever() {
            if wants.end && self.is_past() {
                return Ready::End;
            }
            let mut waited = [
                waits_at(wants.keys, STANDARD_INPUT, POLLIN),
                waits_at(true, self.service, POLLIN),
                waits_at(wants.room, self.service, POLLOUT),
            ];
            let time = if wants.end || self.is_counted() {
                LOOK
            } else {
                FOR_EVER
            };
            if poll(&mut waited, time) <= 0 {
                self.look();
                continue;
            }
            let [keys, bytes, room] = waited;
            if keys.revents != 0 {
                return Ready::Keys;
            }
            if room.revents != 0 && !(self.hears_next && bytes.revents != 0) {
                return Ready::Room;
            }
            if bytes.revents != 0 {
                return Ready::Bytes;
            }
        }
        Ready::Bytes
    }
}

impl<'a, H: Clock + Copy + Wait, E: Drain> Await for Polling<'a, H, E> {
    ghost warned = { λ polling. Some (count_in polling.warned) };

    fn next(&mut self, wants: Wants) -> Ready
        ensures warned { Some (count_in self.new.warned) ≡ Some (count_in self.old.warned) }
        ensures quiet { self.new.errors ≡ self.old.errors }
    {
        if self.link.is_left() {
            return self.leave(wants);
        }
        if wants.keys && (self.origin == KeySource::Reader || self.link.has_keys()) {
            return Ready::Keys;
        }
        self.hears_next = !self.hears_next;
        if wants.end {
            self.note_end();
        }
        if self.patience > 0 {
            self.passed = Instant::now(&self.rt).ok();
        }
        self.wait_for(wants)
    }

    fn hear_telnet(&mut self)
        ensures { Some (count_in self.new.warned) ≡ warned_on true (Some (count_in self.old.warned)) }
    {
        self.warned.add();
        write_all(self.errors, TELNET);
    }
}
