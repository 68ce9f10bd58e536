//! The lines that were typed before.

use std::alloc::{AllocError, Global};
use std::collections::VecDeque;

/// The most lines that are kept.
const MOST_LINES: usize = 100;

/// The most bytes that the kept lines have, all together.
const MOST_BYTES: usize = 64 * 1024;

/// The lines that a user typed before, the oldest first, and which of them the user looks at. At most 100 lines of
/// at most 64 KiB together are kept; the oldest make room for a new one.
#[derive(Drop)]
pub struct History {
    lines: VecDeque<Vec<u8>>,
    bytes: usize,
    // 0 is the line that is being typed, 1 the newest line.
    back: usize,
    typed: Vec<u8>,
}

impl History {
    /// Makes a history that keeps no line, and wants no memory.
    pub fn new(alloc: Global) -> History {
        History {
            lines: VecDeque::new(alloc),
            bytes: 0,
            back: 0,
            typed: Vec::new(alloc),
        }
    }

    /// Keeps a line, without its closing byte. An empty line, and one that is the newest already, is left out.
    /// The next `up` gives the newest line.
    ///
    /// # Errors
    ///
    /// - Out of memory: the line is not kept, but old ones may be gone.
    pub fn keep(&mut self, line: &[u8]) -> Result<(), AllocError> {
        self.back = 0;
        if line.is_empty() || line.len() > MOST_BYTES || self.is_newest(line) {
            return Ok(());
        }
        let kept = Vec::from_slice(*self.typed.allocator(), line)?;
        self.make_room(line.len());
        self.lines.push_back(kept)?;
        self.bytes = self.bytes.saturating_add(line.len());
        Ok(())
    }

    /// Looks at the line that is being typed again, once another begins.
    pub fn leave(&mut self) {
        self.back = 0;
    }

    /// Goes to the line before. `half` is the half-typed line, which `down` brings back if it is
    /// the one being typed. It is false if there is no line before.
    ///
    /// # Errors
    ///
    /// - Out of memory: the half-typed line could not be kept, and nothing changes.
    pub fn up(&mut self, half: &[u8]) -> Result<bool, AllocError> {
        if self.back >= self.lines.len() {
            return Ok(false);
        }
        if self.back == 0 {
            self.typed = Vec::from_slice(*self.typed.allocator(), half)?;
        }
        self.back = self.back.saturating_add(1);
        Ok(true)
    }

    /// Goes to the line after, which at last is the half-typed line that `up` was given. It is
    /// false if there is none.
    pub fn down(&mut self) -> bool {
        let is_back = self.back > 0;
        self.back = self.back.saturating_sub(1);
        is_back
    }

    /// Returns the line that the user looks at.
    pub fn line(&self) -> &[u8] {
        let place = self.lines.len().checked_sub(self.back);
        match place.and_then(|place| self.lines.get(place)) {
            Some(line) => line.as_slice(),
            None => self.typed.as_slice(),
        }
    }

    fn is_newest(&self, line: &[u8]) -> bool {
        match self.lines.back() {
            Some(newest) => newest.as_slice() == line,
            None => false,
        }
    }

    // Lets the oldest lines go until there is room for this number of bytes.
    fn make_room(&mut self, bytes: usize) {
        for _ in 0..self.lines.len() {
            let is_short = self.lines.len() < MOST_LINES;
            if is_short && self.bytes.saturating_add(bytes) <= MOST_BYTES {
                return;
            }
            if let Some(oldest) = self.lines.pop_front() {
                self.bytes = self.bytes.saturating_sub(oldest.len());
            }
        }
    }
}
