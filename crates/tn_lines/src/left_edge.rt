//! A service's bytes, as a terminal shows them.

ghost use Rattle.std.specs.Prelude.{◌≡◌, ◌==◌, false, [], ◌++◌, OnOk};
ghost use Rattle.tn_lines.specs.Edges.{HasShown, ShowsOn, byte_shown};

use std::alloc::AllocError;

/// A filter of a service's bytes on their way to a screen. At a terminal in raw mode a line feed
/// leaves the column as it is, so the filter shows a carriage return before a line feed that has
/// none.
#[derive(Clone, Copy, PartialEq, Eq)]
pub struct LeftEdge {
    at_terminal: bool,
    after_return: bool,
}

impl LeftEdge {
    /// Makes a filter that has shown nothing yet. If the screen is no terminal, all is shown as it
    /// is.
    pub fn new(at_terminal: bool) -> LeftEdge
        ensures empty { HasShown [] result }
        ensures at_terminal { result.at_terminal ≡ at_terminal }
    {
        LeftEdge {
            at_terminal,
            after_return: false,
        }
    }

    /// Takes the next bytes, and puts the bytes to be shown for them into `shown`, in place of its
    /// content.
    ///
    /// # Errors
    ///
    /// - `AllocError`: there is no memory for the bytes to be shown; some of the bytes were taken.
    pub fn take(&mut self, bytes: &[u8], shown: &mut Vec<u8>) -> Result<(), AllocError>
        ensures { OnOk result (ShowsOn self.old bytes.now shown.new.items self.new) }
    {
        shown.clear();
        for byte in bytes {
            self.byte(*byte, shown)?;
        }
        Ok(())
    }

    fn byte(&mut self, byte: u8, shown: &mut Vec<u8>) -> Result<(), AllocError>
        ensures shows { OnOk result (shown.new.items ≡
            shown.old.items ++ byte_shown self.old.at_terminal self.old.after_return byte) }
        ensures after { OnOk result (self.new.after_return ≡ (byte == 13)) }
        ensures at_terminal { self.new.at_terminal ≡ self.old.at_terminal }
    {
        let is_lone = self.at_terminal && !self.after_return;
        self.after_return = byte == b'\r';
        match byte {
            b'\n' if is_lone => shown.extend_from_slice(b"\r\n"),
            _ => {
                shown.push(byte)?;
                Ok(())
            },
        }
    }
}
