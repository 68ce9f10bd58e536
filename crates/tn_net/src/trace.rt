//! A trace of what comes and goes: a line for each item, in the order in which it passes, with the seconds
//! since the beginning.

use crate::printing::{Lines, Prefix};
use crate::trace_lines::{Side, data_lines, write_timed};
use std::alloc::{AllocError, Global};
use std::fs::File;
use std::io;
use std::io::Write;
use std::sync::{Arc, Mutex, Wait};
use std::time::{Clock, Duration, Instant};

/// The direction in which bytes pass.
#[derive(Clone, Copy)]
pub(crate) enum Direction {
    Came,
    Went,
}

// Both directions, and what their lines are written to. After a failure nothing more is written.
#[derive(Drop)]
pub(crate) struct Sides<W> {
    alloc: Global,
    came: Side,
    went: Side,
    file: W,
    failed: bool,
}

impl<W: Write> Sides<W> {
    // Writes the lines of what passes at this time. Where that fails nothing more is to be written.
    fn pass(&mut self, time: Duration, direction: Direction, piece: &[u8]) -> io::Result<()> {
        self.failed = true;
        let text = match direction {
            Direction::Came => self.came.lines_of(piece)?,
            Direction::Went => self.went.lines_of(piece)?,
        };
        write_timed(self.alloc, time, &text, &mut self.file)?;
        self.failed = false;
        Ok(())
    }
}

// The sides of a connection without Telnet, whose bytes are data.
#[derive(Drop)]
struct PlainSides {
    alloc: Global,
    came: Lines,
    went: Lines,
    file: File,
    failed: bool,
}

impl PlainSides {
    fn pass(&mut self, time: Duration, direction: Direction, piece: &[u8]) -> io::Result<()> {
        self.failed = true;
        let text = match direction {
            Direction::Came => data_lines(&mut self.came, piece)?,
            Direction::Went => data_lines(&mut self.went, piece)?,
        };
        write_timed(self.alloc, time, &text, &mut self.file)?;
        self.failed = false;
        Ok(())
    }
}

/// A trace, which notes what passes, if it is wanted, and when: what is read or written at once has
/// one time. If there is no clock, each time is that of the beginning.
#[derive(Drop)]
pub struct Trace<H> {
    rt: H,
    begin: Option<Instant>,
    sides: Option<Arc<Mutex<Sides<File>>, Global>>,
    plain: Option<Arc<Mutex<PlainSides>, Global>>,
}

impl<H: Clock + Copy + Wait> Trace<H> {
    /// Makes a trace into this file, or none.
    ///
    /// # Errors
    ///
    /// - `AllocError`: there is no memory for the trace.
    pub fn new(rt: H, alloc: Global, file: Option<File>) -> Result<Trace<H>, AllocError> {
        let begin = Instant::now(&rt).ok();
        let Some(file) = file else {
            return Ok(Trace {
                rt,
                begin,
                sides: None,
                plain: None,
            });
        };
        let sides = Sides {
            alloc,
            came: Side::new(alloc, Prefix::Came),
            went: Side::new(alloc, Prefix::Gone),
            file,
            failed: false,
        };
        let sides = Arc::new(alloc, Mutex::new(sides))?;
        Ok(Trace {
            rt,
            begin,
            sides: Some(sides),
            plain: None,
        })
    }

    /// Makes a trace of a connection without Telnet, into this file, or none.
    ///
    /// # Errors
    ///
    /// - `AllocError`: there is no memory for the trace.
    pub fn without_telnet(
        rt: H,
        alloc: Global,
        file: Option<File>,
    ) -> Result<Trace<H>, AllocError> {
        let mut trace = Trace::new(rt, alloc, None)?;
        if let Some(file) = file {
            let plain = PlainSides {
                alloc,
                came: Lines::new(alloc, Prefix::Came),
                went: Lines::new(alloc, Prefix::Gone),
                file,
                failed: false,
            };
            trace.plain = Some(Arc::new(alloc, Mutex::new(plain))?);
        }
        Ok(trace)
    }

    /// Returns the trace once more, for one more part of the connection.
    pub fn try_clone(&self) -> Result<Trace<H>, AllocError> {
        let sides = match &self.sides {
            Some(sides) => Some(Arc::try_clone(sides)?),
            None => None,
        };
        let plain = match &self.plain {
            Some(plain) => Some(Arc::try_clone(plain)?),
            None => None,
        };
        Ok(Trace {
            rt: self.rt,
            begin: self.begin,
            sides,
            plain,
        })
    }

    // Returns the time since the beginning.
    fn time(&self) -> Duration {
        match self.begin.map(|begin| begin.elapsed(&self.rt)) {
            Some(Ok(time)) => time,
            _ => Duration::ZERO,
        }
    }

    // Notes what passes without Telnet.
    fn note_data(&self, direction: Direction, bytes: &[u8]) {
        let Some(plain) = &self.plain else {
            return;
        };
        let mut plain = plain.lock(&self.rt);
        if !plain.failed {
            let _ = plain.pass(self.time(), direction, bytes);
        }
    }

    pub(crate) fn note(&self, direction: Direction, bytes: &[u8]) {
        self.note_data(direction, bytes);
        let Some(sides) = &self.sides else {
            return;
        };
        let mut sides = sides.lock(&self.rt);
        if !sides.failed {
            let _ = sides.pass(self.time(), direction, bytes);
        }
    }

    /// Returns whether all that passed was written.
    pub fn is_whole(&self) -> bool {
        match &self.sides {
            Some(sides) => !sides.lock(&self.rt).failed,
            None => self.has_all_data(),
        }
    }

    fn has_all_data(&self) -> bool {
        match &self.plain {
            Some(plain) => !plain.lock(&self.rt).failed,
            None => true,
        }
    }
}
