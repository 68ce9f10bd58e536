//! A half-typed line that is edited at the client, on the screen that its user sees.

ghost use Rattle.std.specs.Prelude.{◌≤◌, length};

use crate::line_editor::{EditorSettings, LineEditor, Taken};
use std::alloc::{AllocError, Global};
use std::fs::File;
use std::io::Write;

/// The standard characters for an interrupt, a quit and a stop.
const INTR: u8 = 3;

const QUIT: u8 = 28;

const SUSP: u8 = 26;

/// A half-typed line on the screen of a terminal. It is taken off before anything else is shown
/// there, and put back after that. Bytes that the terminal does not take are dropped.
#[derive(Drop)]
pub(crate) struct HalfLine {
    pub(crate) editor: LineEditor,
    screen: Option<File>,
    /// Something else may be shown on that screen.
    is_shared: bool,
    is_off: bool,
    /// The characters that let the screen go on and stop it.
    start: Option<u8>,
    stop: Option<u8>,
    /// The user has stopped the screen.
    is_stopped: bool,
    /// A line to the client itself is typed below it.
    is_left: bool,
    /// The last byte that was shown is CR.
    after_return: bool,
    /// The bytes of lines that ended, of which the session's echo has not come.
    entered: Vec<u8>,
    /// Those of them that ended while the half-typed line was off the screen, and are to be shown
    /// before it.
    due: Vec<u8>,
}

impl HalfLine {
    /// Makes the half-typed line of this editor. If the screen is not shared, it stays there until
    /// it ends.
    pub(crate) fn new(
        alloc: Global,
        editor: LineEditor,
        editing: EditorSettings,
        screen: Option<File>,
        is_shared: bool,
    ) -> HalfLine {
        HalfLine {
            editor,
            screen,
            is_shared,
            is_off: false,
            start: editing.start,
            stop: editing.stop,
            is_stopped: false,
            is_left: false,
            after_return: false,
            entered: Vec::new(alloc),
            due: Vec::new(alloc),
        }
    }

    /// Takes a key, and shows what it did, unless the other end echoes. If the line ended, `line` gets its bytes, and
    /// the session's echo of them is not to be shown again.
    pub(crate) fn take(
        &mut self,
        key: u8,
        is_echoed: bool,
        line: &mut Vec<u8>,
    ) -> Result<Taken, AllocError> {
        if self.controls_flow(key) {
            return Ok(Taken::Edit);
        }
        self.editor.set_echo(!is_echoed);
        let draws = self.is_drawn();
        let taken = self.editor.take(key, draws, line)?;
        if !self.is_stopped {
            self.show();
        }
        if let Taken::Line(closing) = taken {
            if !is_echoed {
                self.enter(line, closing.echo())?;
            }
        }
        Ok(taken)
    }

    // Returns whether the effect of a key is shown at once.
    fn is_drawn(&self) -> bool {
        !self.is_off && !self.is_stopped
    }

    // Returns whether a key stops the screen, or lets it go on. A signal lets it go on too.
    fn controls_flow(&mut self, key: u8) -> bool {
        if Some(key) == self.stop {
            self.is_stopped = true;
            return true;
        }
        if Some(key) == self.start {
            self.go_on();
            return true;
        }
        if matches!(key, INTR | QUIT | SUSP) {
            self.go_on();
        }
        false
    }

    // Lets the screen go on, with all that was typed while it was stopped.
    fn go_on(&mut self) {
        if !self.is_stopped {
            return;
        }
        self.is_stopped = false;
        if self.is_left {
            return;
        }
        if !self.is_off {
            let _drawn = self.editor.take_off();
            self.show();
        }
        self.draw_again();
    }

    /// Returns whether the user has stopped the screen.
    pub(crate) fn is_stopped(&self) -> bool {
        self.is_stopped
    }

    // Takes the end of the line, which is shown at once, or when the half-typed line is put back.
    fn enter(&mut self, line: &[u8], end: &[u8]) -> Result<(), AllocError> {
        self.entered.extend_from_slice(line)?;
        self.entered.extend_from_slice(end)?;
        if !self.is_drawn() {
            self.due.extend_from_slice(line)?;
            self.due.extend_from_slice(end)?;
        }
        Ok(())
    }

    /// Takes the half-typed line off the screen, since something else is to be shown there.
    pub(crate) fn take_off(&mut self) {
        if self.is_shared && !self.is_left {
            let _drawn = self.editor.take_off();
            self.show();
            self.is_off = true;
        }
    }

    /// Puts it back after these bytes were shown.
    pub(crate) fn put_back(&mut self, shown: &[u8]) {
        if let Some(last) = shown.last() {
            self.after_return = *last == b'\r';
        }
        if self.is_off {
            self.editor.follow(shown);
            if !self.is_stopped {
                self.draw_again();
            }
        }
    }

    fn draw_again(&mut self) {
        self.is_off = false;
        self.show_due();
        let _drawn = self.editor.put_back();
        self.show();
    }

    /// Takes the half-typed line off the screen for good. `line` gets its bytes.
    pub(crate) fn give_up(&mut self, line: &mut Vec<u8>) -> Result<(), AllocError> {
        self.go_on();
        self.editor.copy(line)?;
        let drawn = self.editor.give_up();
        if !self.is_off {
            self.show();
        }
        drawn
    }

    /// Sets the window's width; 0 if that is not known.
    pub(crate) fn resize(&mut self, width: u16) {
        self.editor.set_window(width);
    }

    /// Follows whether a line to the client itself is typed: the half-typed line stays above it,
    /// and is shown again below it once that line ended.
    pub(crate) fn follow_prompt(&mut self, is_prompting: bool) {
        if is_prompting && !self.is_left {
            self.editor.leave();
            self.is_left = true;
        }
        if !is_prompting && self.is_left {
            self.show_again();
        }
    }

    // Shows the half-typed line again at the left edge.
    fn show_again(&mut self) {
        self.is_left = false;
        if !self.is_off {
            self.editor.follow(b"\r");
            let _drawn = self.editor.put_back();
            self.show();
        }
    }

    /// Returns how many bytes at the front of the session's echo were shown before. If it is no echo of the lines that
    /// ended, none were, and no echo is expected any more.
    pub(crate) fn count_entered(&mut self, echo: &[u8]) -> usize
        ensures { result ≤ length echo.now }
    {
        let count = echo.len().min(self.entered.len());
        if self.entered[..count] != echo[..count] {
            self.entered.clear();
            return 0;
        }
        drop(self.entered.drain(..count));
        count
    }

    /// Returns how many of these bytes can be shown at once: those before the next line feed without a CR. If
    /// they begin with one, the cursor goes to the left edge.
    pub(crate) fn count_in_row(&mut self, bytes: &[u8]) -> usize
        ensures { result ≤ length bytes.now }
    {
        if !self.is_shared {
            return bytes.len();
        }
        let mut after_return = self.after_return;
        for place in 0..bytes.len() {
            if bytes[place] == b'\n' && !after_return {
                if place > 0 {
                    return place;
                }
                self.write(b"\r");
                self.editor.follow(b"\r");
            }
            after_return = bytes[place] == b'\r';
        }
        bytes.len()
    }

    // Shows the lines that ended while the half-typed line was off the screen.
    fn show_due(&mut self) {
        if let Some(screen) = &mut self.screen {
            let _written = screen.write_all(&self.due);
        }
        self.editor.follow(&self.due);
        self.due.clear();
    }

    // Shows what the editor drew.
    fn show(&mut self) {
        if let Some(screen) = &mut self.screen {
            let _written = screen.write_all(self.editor.drawing());
        }
    }

    fn write(&mut self, bytes: &[u8]) {
        if let Some(screen) = &mut self.screen {
            let _written = screen.write_all(bytes);
        }
    }
}
