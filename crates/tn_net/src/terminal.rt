//! The terminal, as a client speaks to its user there.

ghost use Rattle.std.specs.Prelude.{◌≡◌};

use crate::escaping::{Echo, Next};
use std::fs::File;
use std::io::Write;

/// The text before a command to the client itself.
const PROMPT: &[u8] = b"\r\ntn> ";

/// The bytes that take one byte of a line from the screen.
const ERASED: &[u8] = b"\x08 \x08";

const BELL: &[u8] = b"\x07";

/// The line that asks the launcher, which set the terminal, to stop the program: SUB and a line
/// feed.
const STOPS: &[u8] = b"\x1a\n";

/// The lines to the launcher that the user leaves, and that the program is to be started again: CAN
/// or EM, and a line feed.
const LEAVES: &[u8] = b"\x18\n";

const RETURNS: &[u8] = b"\x19\n";

/// The terminal itself, whose standard output may be a file. If there is none, nothing is shown. A
/// line that cannot be written is dropped.
#[derive(Drop)]
pub struct Terminal {
    /// The file that shows lines at the terminal.
    pub screen: Option<File>,
    /// The pipe to the launcher, which set the terminal, if it waits for requests.
    pub launcher: Option<File>,
}

impl Terminal {
    /// Makes the terminal with this screen, which this launcher set.
    pub fn new(screen: Option<File>, launcher: Option<File>) -> Terminal
        ensures screen { result.screen ≡ screen }
        ensures launcher { result.launcher ≡ launcher }
    {
        Terminal { screen, launcher }
    }

    /// Shows a text.
    pub(crate) fn show(&mut self, text: &[u8]) {
        if let Some(screen) = &mut self.screen {
            let _ = screen.write_all(text);
        }
    }

    /// Shows what is typed to the client itself.
    pub(crate) fn echo(&mut self, echo: Echo) {
        match echo {
            Echo::Nothing => {},
            Echo::Prompt => self.show(PROMPT),
            Echo::Byte(byte) => self.show(&[byte]),
            Echo::Erased(0) | Echo::Refused => self.show(BELL),
            Echo::Erased(count) => {
                for _ in 0..count {
                    self.show(ERASED);
                }
            },
            Echo::End => self.show(b"\r\n"),
        }
    }

    /// Sends the launcher what becomes of the user once the connection is closed. It returns false
    /// if the user wants to connect again, and there is no launcher for that.
    pub(crate) fn leave(&mut self, next: Next) -> bool {
        let line = match next {
            Next::Leaves => LEAVES,
            Next::Returns => RETURNS,
        };
        match &mut self.launcher {
            Some(launcher) => launcher.write_all(line).is_ok() || next == Next::Leaves,
            None => next == Next::Leaves,
        }
    }

    /// Has the program stopped. It returns false if there is no launcher for that.
    pub(crate) fn stop(&mut self) -> bool {
        match &mut self.launcher {
            Some(launcher) => launcher.write_all(STOPS).is_ok(),
            None => false,
        }
    }
}
