//! Lines on their way to a service.

ghost use Rattle.std.specs.Prelude.{◌≡◌, ◌==◌, false, [], ◌++◌, OnOk};
ghost use Rattle.tn_lines.specs.Said.{LeadsTo, Reads, byte_said};

use crate::line_ends::LineEnd;
use std::alloc::AllocError;

/// Lines on their way to a service, of a file or of a terminal at which they were edited. This type
/// edits nothing, and a line may have any length.
#[derive(Clone, Copy, PartialEq, Eq)]
pub struct Lines {
    line_end: LineEnd,
    after_return: bool,
}

impl Lines {
    /// Makes lines of which nothing was read yet.
    pub fn new(line_end: LineEnd) -> Lines
        ensures empty { LeadsTo [] result }
        ensures line_end { result.line_end ≡ line_end }
    {
        Lines {
            line_end,
            after_return: false,
        }
    }

    /// Takes the next bytes, and puts the bytes to be sent for them into `said`, in place of its
    /// content.
    ///
    /// # Errors
    ///
    /// - `AllocError`: there is no memory for the bytes to be sent; some of the bytes were taken.
    pub fn take(&mut self, bytes: &[u8], said: &mut Vec<u8>) -> Result<(), AllocError>
        ensures { OnOk result (Reads self.old bytes.now said.new.items self.new) }
    {
        said.clear();
        for byte in bytes {
            self.byte(*byte, said)?;
        }
        Ok(())
    }

    fn byte(&mut self, byte: u8, said: &mut Vec<u8>) -> Result<(), AllocError>
        ensures says { OnOk result (said.new.items ≡
            said.old.items ++ byte_said self.old.line_end self.old.after_return byte) }
        ensures after { OnOk result (self.new.after_return ≡ (byte == 13)) }
        ensures line_end { self.new.line_end ≡ self.old.line_end }
    {
        let is_second = self.after_return && byte == b'\n';
        self.after_return = byte == b'\r';
        match byte {
            b'\n' if is_second => Ok(()),
            b'\r' | b'\n' => said.extend_from_slice(self.line_end.bytes()),
            _ => {
                said.push(byte)?;
                Ok(())
            },
        }
    }
}
