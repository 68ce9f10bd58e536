//! The log of a screen: a file that gets what the screen gets.

use crate::times::stamp;
use crate::trace_lines::push_timed;
use std::alloc::{AllocError, Global};
use std::fs::File;
use std::io::Write;
use std::time::Clock;

/// A file that gets what the screen gets.
#[derive(Drop)]
pub(crate) struct ScreenLog {
    file: File,
    /// A line begins with the next byte.
    begins: bool,
}

impl ScreenLog {
    /// Makes a log into this file, at the beginning of a line.
    pub(crate) fn new(file: File) -> ScreenLog {
        ScreenLog { file, begins: true }
    }

    /// Appends what the screen got, with the time before each line if that is wanted. Whether it was written.
    pub(crate) fn append<C: Clock>(
        &mut self,
        clock: &C,
        alloc: Global,
        has_times: bool,
        bytes: &[u8],
    ) -> bool {
        if !has_times {
            return self.file.write_all(bytes).is_ok();
        }
        match self.timed(clock, alloc, bytes) {
            Ok(lines) => self.file.write_all(&lines).is_ok(),
            Err(_) => false,
        }
    }

    // Returns the bytes, with the time before each line that begins with them.
    fn timed<C: Clock>(
        &mut self,
        clock: &C,
        alloc: Global,
        bytes: &[u8],
    ) -> Result<Vec<u8>, AllocError> {
        let time = stamp(clock, alloc)?;
        let mut lines = Vec::new(alloc);
        for byte in bytes {
            self.begins = push_timed(self.begins, *byte, &time, &mut lines)?;
        }
        Ok(lines)
    }
}
