//! The traffic of a connection, as a note shows it.

use std::alloc::{AllocError, Global};
use std::io;
use std::io::ErrorKind;
use std::sync::Arc;
use std::sync::atomic::{AtomicI32, AtomicU64, Ordering};
use tn_cores::streams::{Drain, Finish, Source};
use tn_net::Standing;

/// The counts of the bytes that have passed over a connection so far.
#[derive(Drop)]
pub(crate) struct Traffic {
    came: AtomicU64,
    went: AtomicU64,
    /// The system's number of the error that broke it, or 0.
    broke: AtomicI32,
}

/// The number of bytes that passed over a connection, and the error that broke it.
#[derive(Clone, Copy)]
pub(crate) struct Passed {
    pub(crate) came: u64,
    pub(crate) went: u64,
    pub(crate) broke: Option<ErrorKind>,
}

impl Traffic {
    /// Makes the counts of a connection over which nothing has passed yet.
    pub(crate) fn new(alloc: Global) -> Result<Arc<Traffic, Global>, AllocError> {
        let traffic = Traffic {
            came: AtomicU64::new(0),
            went: AtomicU64::new(0),
            broke: AtomicI32::new(0),
        };
        Ok(Arc::new(alloc, traffic)?)
    }

    pub(crate) fn passed(&self) -> Passed {
        let code = self.broke.load(Ordering::SeqCst);
        Passed {
            came: self.came.load(Ordering::SeqCst),
            went: self.went.load(Ordering::SeqCst),
            broke: if code == 0 {
                None
            } else {
                Some(io::Error::from_raw_os_error(code).kind())
            },
        }
    }

    /// Counts this number of bytes that were sent.
    pub(crate) fn count_went(&self, bytes: usize) {
        let _ = self.went.fetch_add(bytes as u64, Ordering::SeqCst);
    }

    // Notes the error that broke the connection. A call that was only interrupted is made again.
    fn fail(&self, error: &io::Error) {
        if error.kind() != ErrorKind::Interrupted {
            self.broke
                .store(error.raw_os_error().unwrap_or(0), Ordering::SeqCst);
        }
    }
}

/// The known facts of a session for the note of its end.
#[derive(Drop)]
pub(crate) struct Noted {
    pub(crate) traffic: Arc<Traffic, Global>,
    pub(crate) standing: Arc<Standing, Global>,
}

impl Noted {
    /// Makes the known facts of a session, if there is memory for them.
    pub(crate) fn of(
        traffic: &Arc<Traffic, Global>,
        standing: &Arc<Standing, Global>,
    ) -> Option<Noted> {
        Some(Noted {
            traffic: Arc::try_clone(traffic).ok()?,
            standing: Arc::try_clone(standing).ok()?,
        })
    }
}

impl Passed {
    /// Makes the counts of a connection over which nothing has passed.
    pub(crate) fn nothing() -> Passed {
        Passed {
            came: 0,
            went: 0,
            broke: None,
        }
    }
}

/// The reading side of a connection, of which each byte is counted.
#[derive(Drop)]
pub(crate) struct Counted<R> {
    pub(crate) side: R,
    pub(crate) traffic: Arc<Traffic, Global>,
}

impl<R: Source> Source for Counted<R> {
    ghost remaining = { λ counted. R.remaining counted.side };

    ghost words = { λ counted. R.words counted.side };

    fn last_words(&self) -> &'static [u8] {
        self.side.last_words()
    }

    fn read_some(&mut self, buf: &mut [u8]) -> io::Result<usize> {
        let read = self.side.read_some(buf);
        match &read {
            Ok(count) => {
                let _ = self.traffic.came.fetch_add(*count as u64, Ordering::SeqCst);
            },
            Err(error) => self.traffic.fail(error),
        }
        read
    }
}

/// The writing side of a connection, of which each byte is counted.
#[derive(Drop)]
pub(crate) struct CountedWrites<W> {
    pub(crate) side: W,
    pub(crate) traffic: Arc<Traffic, Global>,
}

impl<W: Finish> Drain for CountedWrites<W> {
    ghost contents = { λ counted. W.Drain.contents counted.side };

    ghost told = { λ counted. W.Drain.told counted.side };

    ghost sending = { λ counted. W.Drain.sending counted.side };

    fn write_some(&mut self, buf: &[u8]) -> io::Result<usize> {
        let wrote = self.side.write_some(buf);
        match &wrote {
            Ok(count) => self.traffic.count_went(*count),
            Err(error) => self.traffic.fail(error),
        }
        wrote
    }
}

impl<W: Finish> Finish for CountedWrites<W> {
    fn finish(&mut self) {
        self.side.finish();
    }
}
