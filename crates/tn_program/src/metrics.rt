//! The counts of a server, in a file for a collector of metrics.

ghost use Rattle.std.specs.Prelude.{◌≤◌};

use log::kv::{Source, Value, VisitSource};
use log::span::Spans;
use log::{Log, Metadata, Record, kv};
use std::alloc::{AllocError, Global};
use std::fmt::Display;
use std::fs::{File, Files};
use std::sync::Arc;
use std::sync::atomic::{AtomicBool, AtomicU64, Ordering};
use std::{fs, io};

/// A machine that can replace a file. A thread may rest on this trait: it names no types of the files.
pub trait Replacing {
    /// Puts these bytes in place of the file at `path`, all at once: they are written to `next` before.
    fn replace(&self, path: &str, next: &str, bytes: &[u8]) -> io::Result<()>;
}

impl<H: Files<File = File>> Replacing for H {
    fn replace(&self, path: &str, next: &str, bytes: &[u8]) -> io::Result<()> {
        fs::write(self, next, bytes)?;
        fs::rename(self, next, path)
    }
}

/// One metric in the text form of Prometheus: a row for each of its labels.
#[derive(Clone, Copy)]
struct Metric {
    name: &'static str,
    kind: &'static str,
    help: &'static str,
    labels: &'static [&'static str],
}

/// The metrics. A count has the place of its row.
const METRICS: &[Metric] = &[
    Metric {
        name: "tn_connections_total",
        kind: "counter",
        help: "Connections by what they got; without the line of --proxy that is nothing.",
        labels: &["{got=\"session\"}", "{got=\"full\"}", "{got=\"nothing\"}"],
    },
    Metric {
        name: "tn_sessions_open",
        kind: "gauge",
        help: "Sessions that run.",
        labels: &[""],
    },
    Metric {
        name: "tn_sessions_ended_total",
        kind: "counter",
        help: "Sessions that ended, by cause.",
        labels: &[
            "{cause=\"hang-up\"}",
            "{cause=\"done\"}",
            "{cause=\"idle\"}",
            "{cause=\"too long\"}",
            "{cause=\"closing\"}",
            "{cause=\"reset by the client\"}",
            "{cause=\"service not reached\"}",
            "{cause=\"fault\"}",
        ],
    },
    Metric {
        name: "tn_bytes_total",
        kind: "counter",
        help: "Bytes of the sessions that ended, by way.",
        labels: &["{way=\"in\"}", "{way=\"out\"}"],
    },
    Metric {
        name: "tn_entries_total",
        kind: "counter",
        help: "Lines, signals and ends of file of the sessions that ended.",
        labels: &[""],
    },
    Metric {
        name: "tn_notes_dropped_total",
        kind: "counter",
        help: "Notes for which there was no room.",
        labels: &[""],
    },
];

/// The causes of an end as notes have them, in the order of their rows; the rest are faults.
const CAUSES: &[&str] = &[
    "hang-up",
    "done",
    "idle",
    "too long",
    "closing",
    "reset by the client",
    "service not reached",
];

const SESSION: usize = 0;

const FULL: usize = 1;

const UNPROXIED: usize = 2;

const OPEN: usize = 3;

const ENDED: usize = 4;

const IN: usize = 12;

const OUT: usize = 13;

const ENTRIES: usize = 14;

const DROPPED: usize = 15;

const ROWS: usize = 16;

/// The counts of a server.
#[derive(Drop)]
pub(crate) struct Counts {
    rows: Vec<AtomicU64>,
    has_changed: AtomicBool,
}

impl Counts {
    pub(crate) fn new(alloc: Global) -> Result<Arc<Counts, Global>, AllocError> {
        let mut rows = Vec::new(alloc);
        for _ in 0..ROWS {
            rows.push(AtomicU64::new(0))?;
        }
        let has_changed = AtomicBool::new(true);
        Ok(Arc::new(alloc, Counts { rows, has_changed })?)
    }

    fn add(&self, row: usize, count: u64) {
        if let Some(value) = self.rows.get(row) {
            let _ = value.fetch_add(count, Ordering::SeqCst);
            self.has_changed.store(true, Ordering::SeqCst);
        }
    }

    fn value(&self, row: usize) -> u64 {
        match self.rows.get(row) {
            Some(value) => value.load(Ordering::SeqCst),
            None => 0,
        }
    }

    /// Takes over how many notes were dropped.
    pub(crate) fn set_dropped(&self, count: u64) {
        let before = self.value(DROPPED);
        if count > before {
            self.add(DROPPED, count - before);
        }
    }

    /// Returns whether something was counted since the last call.
    pub(crate) fn take_changed(&self) -> bool {
        self.has_changed.swap(false, Ordering::SeqCst)
    }

    /// Returns all counts in the text form of Prometheus.
    pub(crate) fn text(&self, alloc: Global) -> Result<Vec<u8>, AllocError> {
        let mut text = String::new(alloc);
        let mut row = 0usize;
        for metric in METRICS {
            let Metric {
                name,
                kind,
                help,
                ..
            } = *metric;
            text.write(format_args!("# HELP {name} {help}\n# TYPE {name} {kind}\n"))?;
            for label in metric.labels {
                let value = self.value_at(row);
                text.write(format_args!("{name}{label} {value}\n"))?;
                row = row.saturating_add(1);
            }
        }
        Ok(text.into_bytes())
    }

    // Returns the number of sessions that run: those that began and have not ended.
    fn value_at(&self, row: usize) -> u64 {
        if row != OPEN {
            return self.value(row);
        }
        let mut open = self.value(SESSION);
        for cause in ENDED..IN {
            open = open.saturating_sub(self.value(cause));
        }
        open
    }
}

/// A log that counts its records, and hands them on.
#[derive(Drop)]
pub(crate) struct Counting<L> {
    pub(crate) log: L,
    pub(crate) counts: Arc<Counts, Global>,
    pub(crate) alloc: Global,
}

impl<L: Log> Log for Counting<L> {
    fn enabled(&self, _metadata: &Metadata<'_>) -> bool {
        true
    }

    fn log<D: Display, K: Source, S: Spans>(&self, record: &Record<'_, D, K, S>) {
        match record.target() {
            "began" => self.counts.add(SESSION, 1),
            "full" => self.counts.add(FULL, 1),
            "unproxied" => self.counts.add(UNPROXIED, 1),
            "ended" => {
                let mut ended = Ended {
                    counts: &*self.counts,
                    alloc: self.alloc,
                };
                let _ = record.key_values().visit(&mut ended);
            },
            _ => {},
        }
        if self.log.enabled(record.metadata()) {
            self.log.log(record);
        }
    }

    fn flush(&self) {
        self.log.flush();
    }

    fn target(&self) -> &str {
        self.log.target()
    }
}

// Takes the pairs of a session's end.
#[derive(Drop)]
struct Ended<'c> {
    counts: &'c Counts,
    alloc: Global,
}

impl VisitSource for Ended<'_> {
    fn visit_pair<D: Display>(&mut self, key: &str, value: Value<'_, D>) -> Result<(), kv::Error> {
        match key {
            "in" => self.counts.add(IN, value.to_u64().unwrap_or(0)),
            "out" => self.counts.add(OUT, value.to_u64().unwrap_or(0)),
            "entries" => self.counts.add(ENTRIES, value.to_u64().unwrap_or(0)),
            "cause" => {
                let cause = String::format(self.alloc, value).ok();
                self.counts.add(ENDED + place_of(cause.as_ref()), 1);
            },
            _ => {},
        }
        Ok(())
    }
}

// Returns the place of a cause among the rows of causes. The last is of faults.
fn place_of(cause: Option<&String>) -> usize
    ensures within { result ≤ 7 }
{
    let Some(cause) = cause else {
        return CAUSES.len();
    };
    for place in 0..CAUSES.len() {
        if cause.as_str().starts_with(CAUSES[place]) {
            return place;
        }
    }
    CAUSES.len()
}
