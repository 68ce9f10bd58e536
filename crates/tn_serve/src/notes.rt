//! The queue of a server's notes, which a thread of its own writes to standard error. So no session
//! waits for a reader of the notes.

use crate::logfmt::push_pairs;
use crossbeam_channel::{Receiver, Sender};
use log::kv::Source;
use log::span::Spans;
use log::{Level, Log, Metadata, Record};
use std::alloc::{AllocError, Global};
use std::fmt::Display;
use std::sync::atomic::{AtomicU64, Ordering};
use std::sync::{Arc, Wait};
use std::time::{Clock, Duration};
use std::{fmt, str, thread};
use tn_net::{Host, stamp};

/// The target of the program's own lines about faults, such as `tn: session`, which are printed as they are.
pub(crate) const FAULT: &str = "tn";

/// The most lines that wait to be written. While that many wait, a note is dropped.
const LINES: usize = 256;

/// The number of seconds for which the lines that wait at the end are written.
const LAST: u64 = 1;

/// The form of a note's line.
#[derive(Clone, Copy, PartialEq, Eq)]
pub enum NoteFormat {
    /// The time in UTC to the millisecond, and a sentence.
    Text,
    /// Pairs such as `session=0`, the first of which are the time, the level and the event.
    Logfmt,
}

/// The form of the lines of notes.
#[derive(Clone, Copy, PartialEq, Eq)]
pub struct NoteStyle {
    pub format: NoteFormat,
    /// The reader is systemd's journal: each line begins with its priority, such as `<6>`, and has no time.
    pub is_journal: bool,
}

/// A log whose records become lines of notes. It never waits: a record for which there is no room or no
/// memory is dropped, and the number of those dropped is written before the next line.
#[derive(Drop)]
pub struct NoteSink<H> {
    rt: H,
    alloc: Global,
    style: NoteStyle,
    lines: Sender<String, Global>,
    dropped: Arc<AtomicU64, Global>,
    all_dropped: Arc<AtomicU64, Global>,
}

impl<H: Clock + Wait> Log for NoteSink<H> {
    fn enabled(&self, _metadata: &Metadata<'_>) -> bool {
        true
    }

    fn log<D: Display, K: Source, S: Spans>(&self, record: &Record<'_, D, K, S>) {
        let is_queued = match line_of(&self.rt, self.alloc, self.style, record) {
            Ok(line) => self.lines.try_send(&self.rt, line).is_ok(),
            Err(_) => false,
        };
        if !is_queued {
            let _ = self.dropped.fetch_add(1, Ordering::SeqCst);
            let _ = self.all_dropped.fetch_add(1, Ordering::SeqCst);
        }
    }

    fn flush(&self) {}

    fn target(&self) -> &str {
        ""
    }
}

/// The thread that writes the lines of a `NoteSink`.
#[derive(Drop)]
pub struct NoteWriter {
    /// The channel that is disconnected once the thread has ended.
    ended: Receiver<(), Global>,
    all_dropped: Arc<AtomicU64, Global>,
}

impl NoteWriter {
    /// Starts the thread that writes to standard error. `None` if there is no memory or no thread.
    pub fn start<H: Host + Eprint>(
        rt: H,
        alloc: Global,
        style: NoteStyle,
    ) -> Option<(NoteSink<H>, NoteWriter)> {
        let (lines, queue) = crossbeam_channel::bounded(alloc, LINES).ok()?;
        let (end, ended) = crossbeam_channel::bounded::<(), Global>(alloc, 1).ok()?;
        let dropped = Arc::new(alloc, AtomicU64::new(0)).ok()?;
        let all_dropped = Arc::new(alloc, AtomicU64::new(0)).ok()?;
        let writing = Writing {
            rt,
            alloc,
            style,
            queue,
            dropped: Arc::try_clone(&dropped).ok()?,
            _end: end,
        };
        let work = move || { writing.run() };
        let _thread = thread::spawn(&rt, work).ok()?;
        let sink = NoteSink {
            rt,
            alloc,
            style,
            lines,
            dropped,
            all_dropped: Arc::try_clone(&all_dropped).ok()?,
        };
        Some((sink, NoteWriter { ended, all_dropped }))
    }

    /// Returns the number of notes that were dropped since the thread began, as it goes on.
    pub fn dropped(&self) -> Result<Arc<AtomicU64, Global>, AllocError> {
        Arc::try_clone(&self.all_dropped)
    }

    /// Waits until the lines that the sink was given are written, for one second at most. The sink has to be
    /// dropped before, since the thread ends only once no more can come.
    pub fn finish<H: Clock + Wait>(self, rt: &H) {
        let _ = self.ended.recv_timeout(rt, Duration::from_secs(LAST));
    }
}

// The parts of the thread that writes.
#[derive(Drop)]
struct Writing<H> {
    rt: H,
    alloc: Global,
    style: NoteStyle,
    queue: Receiver<String, Global>,
    dropped: Arc<AtomicU64, Global>,
    // Dropped at the thread's end: then the other end of its channel is disconnected.
    _end: Sender<(), Global>,
}

impl<H: Clock + Wait + Eprint + Drop> Writing<H> {
    fn run(self) {
        for _ in self.rt.forever() {
            let Ok(line) = self.queue.recv(&self.rt) else {
                break;
            };
            self.tell_dropped();
            let _ = self.rt.eprint(line.as_str());
        }
        self.tell_dropped();
    }

    // Writes how many notes were dropped since it was last written, if there are such.
    fn tell_dropped(&self) {
        let count = self.dropped.swap(0, Ordering::SeqCst);
        if count == 0 {
            return;
        }
        let record = Record::new(
            Metadata::new(Level::Warn, "dropped"),
            Dropped(count),
            ("notes", count),
            (),
        );
        if let Ok(line) = line_of(&self.rt, self.alloc, self.style, &record) {
            let _ = self.rt.eprint(line.as_str());
        }
    }
}

// The number of notes that were dropped.
#[derive(Drop)]
struct Dropped(u64);

impl Display for Dropped {
    fn fmt<W: fmt::Write>(&self, f: &mut fmt::Formatter<W>) -> fmt::Result {
        write!(f, "{} notes were dropped", self.0)
    }
}

// Makes the line of a record, with its end.
fn line_of<H: Clock, D: Display, K: Source, S: Spans>(
    clock: &H,
    alloc: Global,
    style: NoteStyle,
    record: &Record<'_, D, K, S>,
) -> Result<String, AllocError> {
    let mut line = String::new(alloc);
    if style.is_journal {
        line.push_str(priority(record.level()))?;
    }
    if record.target() == FAULT {
        line.write(record.args())?;
    } else {
        match style.format {
            NoteFormat::Text => push_text(clock, alloc, style, &mut line, record)?,
            NoteFormat::Logfmt => push_logfmt(clock, alloc, style, &mut line, record)?,
        }
    }
    line.push('\n')?;
    Ok(line)
}

// Appends the time, unless the journal has its own, and the sentence.
fn push_text<H: Clock, D: Display, K: Source, S: Spans>(
    clock: &H,
    alloc: Global,
    style: NoteStyle,
    line: &mut String,
    record: &Record<'_, D, K, S>,
) -> Result<(), AllocError> {
    if !style.is_journal {
        push_time(clock, alloc, line)?;
    }
    line.write(record.args())
}

// Appends the time, the level and the event, and the record's pairs, or its sentence if it has none.
fn push_logfmt<H: Clock, D: Display, K: Source, S: Spans>(
    clock: &H,
    alloc: Global,
    style: NoteStyle,
    line: &mut String,
    record: &Record<'_, D, K, S>,
) -> Result<(), AllocError> {
    if !style.is_journal {
        line.push_str("time=")?;
        push_time(clock, alloc, line)?;
    }
    line.push_str("level=")?;
    line.push_str(name_of(record.level()))?;
    line.push_str(" event=")?;
    line.push_str(record.target())?;
    if record.key_values().count() > 0 {
        push_pairs(alloc, line, record.key_values())
    } else {
        let text = String::format(alloc, record.args())?;
        push_pairs(alloc, line, &("text", text.as_str()))
    }
}

// Appends the time and a space.
fn push_time<C: Clock>(clock: &C, alloc: Global, line: &mut String) -> Result<(), AllocError> {
    let time = stamp(clock, alloc)?;
    line.push_str(str::from_utf8(&time).unwrap_or(""))
}

// Returns the priority of a line as syslog counts them (RFC 5424, 6.2.1), as systemd's journal
// reads it.
fn priority(level: Level) -> &'static str {
    match level {
        Level::Error => "<3>",
        Level::Warn => "<4>",
        Level::Info => "<6>",
        Level::Debug | Level::Trace => "<7>",
    }
}

fn name_of(level: Level) -> &'static str {
    match level {
        Level::Error => "error",
        Level::Warn => "warn",
        Level::Info => "info",
        Level::Debug | Level::Trace => "debug",
    }
}
