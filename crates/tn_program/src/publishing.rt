//! A thread that keeps the file of a server's counts.

use crate::metrics::{Counts, Replacing};
use crossbeam_channel::{Receiver, RecvTimeoutError, Sender};
use log::{Log, warn};
use std::alloc::{AllocError, Global};
use std::sync::Arc;
use std::sync::atomic::{AtomicU64, Ordering};
use std::thread::JoinHandle;
use std::time::Duration;
use std::{io, thread};
use tn_serve::Host;

/// The number of milliseconds between two looks at the counts.
const LOOK: u64 = 1_000;

/// The thread that writes the counts to a file once a second, if they have changed, and at its end.
#[derive(Drop)]
pub(crate) struct Publisher {
    /// Dropped to end the thread.
    serves: Sender<(), Global>,
    thread: JoinHandle<()>,
}

// The parts of the thread.
#[derive(Drop)]
struct Publishing<H> {
    rt: H,
    alloc: Global,
    path: String,
    next: String,
    counts: Arc<Counts, Global>,
    dropped: Arc<AtomicU64, Global>,
    over: Receiver<(), Global>,
}

impl Publisher {
    /// Starts the thread. A file that cannot be written is noted in `log`. `None` if there is no memory or no
    /// thread.
    pub(crate) fn start<H: Host + Replacing, L: Log>(
        rt: H,
        alloc: Global,
        path: &str,
        counts: Arc<Counts, Global>,
        dropped: Arc<AtomicU64, Global>,
        log: &L,
    ) -> Option<Publisher> {
        let (serves, over) = crossbeam_channel::bounded(alloc, 1).ok()?;
        let publishing = Publishing {
            rt,
            alloc,
            path: String::from_str(alloc, path).ok()?,
            next: String::format(alloc, format_args!("{path}.next")).ok()?,
            counts,
            dropped,
            over,
        };
        if let Err(error) = publishing.publish() {
            warn!(log; target: "metrics", cause:% = error; "cannot write {}: {}", path, error);
        }
        let work = move || { publishing.run() };
        let thread = thread::spawn(&rt, work).ok()?;
        Some(Publisher { serves, thread })
    }

    /// Ends the thread, after a last look at the counts.
    pub(crate) fn finish<H: Host>(self, rt: &H) {
        let Publisher { serves, thread } = self;
        drop(serves);
        let _ = thread.join(rt);
    }
}

impl<H: Host + Replacing> Publishing<H> {
    fn run(self) {
        for _ in self.rt.forever() {
            let waited = self
                .over
                .recv_timeout(&self.rt, Duration::from_millis(LOOK));
            self.counts.set_dropped(self.dropped.load(Ordering::SeqCst));
            if self.counts.take_changed() {
                let _ = self.publish();
            }
            if !matches!(waited, Err(RecvTimeoutError::Timeout)) {
                return;
            }
        }
    }

    fn publish(&self) -> io::Result<()> {
        let text = self.counts.text(self.alloc)?;
        self.rt
            .replace(self.path.as_str(), self.next.as_str(), &text)
    }
}
