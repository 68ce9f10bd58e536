//! Keys whose end is reported late, so that a server that hangs up at it has time to answer.

ghost use Rattle.std.specs.{Prelude.{◌≡◌, None}, Io.{ReadsAtMost, KnownBytes.ReadConsumes}};
ghost use Rattle.tn_cores.specs.streams.Beside.{TellsNext};

use std::alloc::Global;
use std::io;
use std::io::{ErrorKind, Read};
use std::sync::atomic::{AtomicBool, Ordering};
use std::sync::{Arc, Wait};
use std::time::Clock;
use tn_cores::streams::{Source, WindowSize, nothing_to_say};
use tn_net::Link;

/// The number of milliseconds between two looks whether more can come. `LOOKS` is the number of
/// looks in a second.
pub(crate) const LOOK: u16 = 200;

pub(crate) const LOOKS: u64 = 5;

/// The patience with a server that is silent once the input has ended.
#[derive(Drop)]
pub(crate) struct Patience {
    /// The input has ended, and the server got the end of the stream.
    pub(crate) has_ended: Arc<AtomicBool, Global>,
    /// The number of seconds for which the server may be silent; 0 for ever.
    pub(crate) seconds: u32,
    /// The number of looks that passed without a byte since then.
    pub(crate) looks: u64,
}

impl Patience {
    // Notes that something came.
    fn renew(&mut self) {
        self.looks = 0;
    }

    // Counts a look at which nothing came, and returns whether that is enough.
    fn is_over(&mut self) -> bool {
        if self.seconds == 0 || !self.has_ended.load(Ordering::SeqCst) {
            return false;
        }
        self.looks = self.looks.saturating_add(1);
        self.looks >= u64::from(self.seconds) * LOOKS
    }
}

/// The bytes of a connection, each read of which waits for at most one look; the end of the bytes
/// is noted. A connection that is silent for too long is ended.
#[derive(Drop)]
pub(crate) struct Brought<R> {
    pub(crate) reader: R,
    pub(crate) is_over: Arc<AtomicBool, Global>,
    pub(crate) link: Arc<Link, Global>,
    pub(crate) patience: Patience,
}

impl<R> Brought<R> {
    // Notes the result of a read.
    fn note(&mut self, read: &io::Result<usize>)
        ensures { self.new.reader ≡ self.old.reader }
    {
        self.patience.renew();
        if is_last(read) {
            self.is_over.store(true, Ordering::SeqCst);
        }
    }

    // Counts a look that passed, at which nothing came.
    fn look(&mut self)
        ensures { self.new.reader ≡ self.old.reader }
    {
        if self.patience.is_over() {
            self.link.hang_up();
        }
    }
}

impl<R: Read> Read for Brought<R> {
    ghost remaining = { λ brought. R.Read.remaining brought.reader };

    fn read(&mut self, buf: &mut [u8]) -> io::Result<usize> {
        match self.reader.read(buf) {
            Err(error) if error.kind() == ErrorKind::WouldBlock => {
                self.look();
                Err(io::Error::from(ErrorKind::Interrupted))
            },
            read => {
                self.note(&read);
                read
            },
        }
    }
}

/// Keys of which nothing is known beforehand. Their end is reported after this number of seconds,
/// or once the connection brings nothing more. They carry no requests of a user.
#[derive(Drop)]
pub(crate) struct Patient<H, K> {
    pub(crate) rt: H,
    pub(crate) keys: K,
    pub(crate) seconds: u32,
    pub(crate) link: Arc<Link, Global>,
    pub(crate) is_over: Arc<AtomicBool, Global>,
    pub(crate) has_ended: Arc<AtomicBool, Global>,
}

impl<H: Clock + Wait, K> Patient<H, K> {
    fn wait(&self) {
        for _ in 0..u64::from(self.seconds) * LOOKS {
            if self.is_over.load(Ordering::SeqCst) {
                return;
            }
            self.link.wait_for_close(&self.rt, LOOK);
        }
    }
}

impl<H: Clock + Wait, K: Source> Source for Patient<H, K> {
    ghost sizes = { λ _. None };

    fn resized(&mut self) -> Option<WindowSize>
        ensures tells { TellsNext (K.sizes self.old.keys) result (K.sizes self.new.keys) }
        ensures keys { K.remaining self.new.keys ≡ K.remaining self.old.keys }
    {
        self.keys.resized()
    }

    fn last_words(&self) -> &'static [u8] {
        nothing_to_say()
    }

    fn read_some(&mut self, buf: &mut [u8]) -> io::Result<usize>
        ensures bound { ReadsAtMost result buf.new }
        ensures bytes { ReadConsumes None None result buf.new }
        ensures hands_on { ReadConsumes (K.remaining self.old.keys)
            (K.remaining self.new.keys) result buf.new }
    {
        let read = self.keys.read_some(buf);
        if is_last(&read) {
            self.wait();
            self.has_ended.store(true, Ordering::SeqCst);
        }
        read
    }
}

// Returns whether no more is read after this.
fn is_last(read: &io::Result<usize>) -> bool {
    match read {
        Ok(count) => *count == 0,
        Err(error) => error.kind() != ErrorKind::Interrupted,
    }
}
