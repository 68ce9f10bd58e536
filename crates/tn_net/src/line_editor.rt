//! A line that is edited at the client: its editor, the lines before it, and how it is drawn.

use std::alloc::{AllocError, Global};
use std::mem;
use tn_discipline::{BELL, Limit, Role, Settings, Sig};
use tn_editor::{
    Arrow, Arrows, Drawn, EditKeys, EditRole, Editor, History, Pressed, Presses, Words,
    first_character,
};

/// The standard characters that take back a character and give up a line.
const ERASE: u8 = 127;

const KILL: u8 = 21;

/// The bytes that begin a row.
const END: &[u8] = b"\r\n";

/// The usual characters that take back a word and show the line again.
const WERASE: u8 = 23;

const REPRINT: u8 = 18;

/// The usual characters that let the screen go on and stop it.
const START: u8 = 17;

const STOP: u8 = 19;

/// The settings of line editing at a terminal.
#[derive(Clone, Copy, PartialEq, Eq)]
pub struct EditorSettings {
    /// The editing keys that a plain terminal lacks.
    pub keys: EditKeys,
    /// The characters that stop the screen and let it go on, if there are any (POSIX.1-2017, XBD 11.2.2, IXON).
    pub start: Option<u8>,
    pub stop: Option<u8>,
    /// Whether control characters are shown as a circumflex and a letter (ECHOCTL).
    pub echoctl: bool,
    /// Whether Up and Down bring lines that were typed before.
    pub has_history: bool,
}

impl EditorSettings {
    /// Makes the settings of a new terminal of Linux: ^W is WERASE, ^R is REPRINT, ^S stops the
    /// screen and ^Q lets it go on, characters are UTF-8, control characters are shown as a
    /// circumflex and a letter, and Up and Down bring lines that were typed before.
    pub fn usual() -> EditorSettings {
        EditorSettings {
            keys: EditKeys {
                werase: Some(WERASE),
                rprnt: Some(REPRINT),
                iutf8: true,
                words: Words::Symbols,
            },
            start: Some(START),
            stop: Some(STOP),
            echoctl: true,
            has_history: true,
        }
    }
}

/// The byte that ends a line, if one does.
#[derive(Clone, Copy, PartialEq, Eq)]
pub(crate) enum Closing {
    /// A new line.
    NewLine,
    /// End of file: the line goes as it is.
    EndOfFile,
}

impl Closing {
    /// Returns the bytes that a terminal shows of it.
    pub(crate) fn echo(self) -> &'static [u8] {
        match self {
            Closing::NewLine => b"\r\n",
            Closing::EndOfFile => b"",
        }
    }
}

/// The outcome of a key.
#[derive(Clone, Copy, PartialEq, Eq)]
pub(crate) enum Taken {
    /// The key edited the line, or did nothing.
    Edit,
    /// The key is a signal or the end of file, which goes by itself.
    Alone(u8),
    /// The key ended the line.
    Line(Closing),
}

/// A line that is edited. The standard characters edit it, and those of `EditorSettings`.
#[derive(Drop)]
pub(crate) struct LineEditor {
    editor: Editor,
    drawn: Drawn,
    history: Option<History>,
    arrows: Arrows,
    settings: Settings,
    keys: EditKeys,
    /// The most bytes in a line, with its closing byte.
    limit: Limit,
    /// A signal leaves the line as it is.
    keeps_at_signal: bool,
    /// The bytes that show what was done last.
    drawing: Vec<u8>,
    /// The line that Up or Down brings.
    recalled: Vec<u8>,
    /// The bytes of the line after the cursor, which Left has taken back and Right types again.
    rest: Vec<u8>,
}

impl LineEditor {
    /// Makes an editor at which nothing was typed yet. A line has at most `limit` bytes with its
    /// closing byte, and never more than `most`. The window has this number of columns; 0 if that
    /// is not known.
    pub(crate) fn new(
        alloc: Global,
        limit: Limit,
        most: Limit,
        editing: EditorSettings,
        window: u16,
    ) -> Result<LineEditor, AllocError> {
        let settings = Settings::standard();
        let history = if editing.has_history {
            Some(History::new(alloc))
        } else {
            None
        };
        Ok(LineEditor {
            editor: Editor::new(alloc, settings, editing.keys, limit)?,
            drawn: Drawn::new(alloc, most, editing.echoctl, window)?,
            history,
            arrows: Arrows::new(),
            settings,
            keys: editing.keys,
            limit,
            keeps_at_signal: false,
            drawing: Vec::new(alloc),
            recalled: Vec::new(alloc),
            rest: Vec::new(alloc),
        })
    }

    /// Returns the number of bytes of the half-typed line.
    pub(crate) fn count(&self) -> usize {
        self.editor
            .half_line()
            .len()
            .saturating_add(self.rest.len())
    }

    /// Puts the bytes of the half-typed line into `line`.
    pub(crate) fn copy(&self, line: &mut Vec<u8>) -> Result<(), AllocError> {
        line.clear();
        line.extend_from_slice(self.editor.half_line())?;
        line.extend_from_slice(&self.rest)
    }

    /// Returns the bytes that show what was done last.
    pub(crate) fn drawing(&self) -> &[u8] {
        &self.drawing
    }

    /// Begins an empty line of at most this number of bytes with its closing byte, in which a
    /// signal leaves it as it is, or drops it.
    pub(crate) fn begin(&mut self, limit: Limit, keeps_at_signal: bool) -> Result<(), AllocError> {
        self.keeps_at_signal = keeps_at_signal;
        if self.limit != limit {
            let alloc = *self.recalled.allocator();
            self.editor = Editor::new(alloc, self.settings, self.keys, limit)?;
            self.limit = limit;
        }
        Ok(())
    }

    /// Sets whether the line is shown.
    pub(crate) fn set_echo(&mut self, echo: bool) {
        if self.settings.flags.echo != echo {
            self.settings.flags.echo = echo;
            self.editor.set(self.settings, self.keys);
        }
    }

    pub(crate) fn set_window(&mut self, window: u16) {
        self.drawn.set_window(window);
    }

    /// Takes a key, and draws what it did if that is wanted. If the line ended, `line` gets its bytes.
    pub(crate) fn take(
        &mut self,
        key: u8,
        draws: bool,
        line: &mut Vec<u8>,
    ) -> Result<Taken, AllocError> {
        self.drawing.clear();
        let bytes = match self.arrows.take(key) {
            Pressed::Waits => return Ok(Taken::Edit),
            Pressed::Arrow(arrow) => {
                self.take_arrow(arrow, draws)?;
                return Ok(Taken::Edit);
            },
            Pressed::Bytes(bytes) => bytes,
        };
        let mut taken = Taken::Edit;
        for place in 0..bytes.len() {
            if let Some(byte) = bytes[place] {
                taken = self.take_byte(byte, draws, line)?;
            }
        }
        Ok(taken)
    }

    fn take_byte(
        &mut self,
        byte: u8,
        draws: bool,
        line: &mut Vec<u8>,
    ) -> Result<Taken, AllocError> {
        let role = self.editor.role(byte);
        let is_empty = self.count() == 0;
        if !self.rest.is_empty() {
            match role {
                EditRole::Plain(Role::Ordinary(_)) if !self.has_room(byte) => {
                    self.drawing.push(BELL)?;
                    return Ok(Taken::Edit);
                },
                EditRole::Plain(Role::Ordinary(_) | Role::Erase)
                | EditRole::EraseWord
                | EditRole::Reprint => {
                    self.edit_before_rest(byte, role, draws)?;
                    return Ok(Taken::Edit);
                },
                EditRole::Plain(Role::Signal(_)) if self.keeps_at_signal => {},
                EditRole::Plain(_) => self.join_rest(draws)?,
            }
        }
        match role {
            EditRole::Plain(Role::Signal(_)) if is_empty || self.keeps_at_signal => {
                Ok(Taken::Alone(byte))
            },
            EditRole::Plain(Role::Eof) if is_empty => Ok(Taken::Alone(byte)),
            EditRole::Plain(Role::Nl | Role::Eol(_) | Role::Eol2(_)) => {
                self.enter(byte, role, draws, line)?;
                Ok(Taken::Line(Closing::NewLine))
            },
            EditRole::Plain(Role::Eof) => {
                self.enter(byte, role, draws, line)?;
                Ok(Taken::Line(Closing::EndOfFile))
            },
            EditRole::Plain(Role::Signal(Sig::Int | Sig::Quit)) => {
                self.drop_line(byte, role, draws)?;
                Ok(Taken::Edit)
            },
            _ => {
                self.edit(byte, role, draws)?;
                Ok(Taken::Edit)
            },
        }
    }

    // Returns whether the character that a byte begins has room in the line.
    fn has_room(&self, byte: u8) -> bool {
        let wanted = first_character(&[byte, 0, 0, 0], self.keys.iutf8).len();
        let most = usize::from(self.limit.bytes());
        self.count().saturating_add(wanted) < most
    }

    // Edits what is before the cursor.
    fn edit_before_rest(
        &mut self,
        byte: u8,
        role: EditRole,
        draws: bool,
    ) -> Result<(), AllocError> {
        self.wipe_rest(draws)?;
        self.edit(byte, role, draws)?;
        self.show_rest(draws)
    }

    fn wipe_rest(&mut self, draws: bool) -> Result<(), AllocError> {
        if draws && self.settings.flags.echo && !self.rest.is_empty() {
            self.drawn.wipe_rest(&mut self.drawing)?;
        }
        Ok(())
    }

    fn show_rest(&mut self, draws: bool) -> Result<(), AllocError> {
        if draws {
            self.drawn
                .rest(&self.editor, &self.rest, &mut self.drawing)?;
        }
        Ok(())
    }

    // Types what is after the cursor, which stands at the end then.
    fn join_rest(&mut self, draws: bool) -> Result<(), AllocError> {
        self.wipe_rest(draws)?;
        let empty = Vec::new(*self.rest.allocator());
        let rest = mem::replace(&mut self.rest, empty);
        self.type_all(&rest, draws)
    }

    fn type_all(&mut self, bytes: &[u8], draws: bool) -> Result<(), AllocError> {
        for byte in bytes {
            let role = self.editor.role(*byte);
            self.edit(*byte, role, draws)?;
        }
        Ok(())
    }

    fn take_arrow(&mut self, arrow: Arrow, draws: bool) -> Result<(), AllocError> {
        match arrow {
            Arrow::Left => self.go_left(draws),
            Arrow::Right => self.go_right(draws),
            Arrow::Up | Arrow::Down => {
                self.join_rest(draws)?;
                self.recall(arrow, draws)
            },
        }
    }

    // Goes a character to the left: it is erased, and is typed again later.
    fn go_left(&mut self, draws: bool) -> Result<(), AllocError> {
        let mut line = Vec::new(*self.rest.allocator());
        line.extend_from_slice(self.editor.half_line())?;
        if line.is_empty() {
            self.drawing.push(BELL)?;
            return Ok(());
        }
        self.wipe_rest(draws)?;
        let role = self.editor.role(ERASE);
        self.edit(ERASE, role, draws)?;
        let left = self.editor.half_line().len();
        let mut rest = Vec::new(*self.rest.allocator());
        rest.extend_from_slice(line.get(left..).unwrap_or(&[]))?;
        rest.extend_from_slice(&self.rest)?;
        self.rest = rest;
        self.show_rest(draws)
    }

    // Goes a character to the right: it is typed again.
    fn go_right(&mut self, draws: bool) -> Result<(), AllocError> {
        if self.rest.is_empty() {
            self.drawing.push(BELL)?;
            return Ok(());
        }
        self.wipe_rest(draws)?;
        let empty = Vec::new(*self.rest.allocator());
        let rest = mem::replace(&mut self.rest, empty);
        let first = first_character(&rest, self.keys.iutf8);
        self.type_all(first, draws)?;
        self.rest
            .extend_from_slice(rest.get(first.len()..).unwrap_or(&[]))?;
        self.show_rest(draws)
    }

    // Drops the line at a signal, and begins a row below it.
    fn drop_line(&mut self, byte: u8, role: EditRole, draws: bool) -> Result<(), AllocError> {
        self.edit(byte, role, draws)?;
        let _kill = self.editor.key(KILL);
        if draws && self.settings.flags.echo {
            self.leave();
            self.drawing.extend_from_slice(END)?;
            self.drawn.shown(END);
        }
        Ok(())
    }

    // Ends the line. One that was not shown is not brought back.
    fn enter(
        &mut self,
        byte: u8,
        role: EditRole,
        draws: bool,
        line: &mut Vec<u8>,
    ) -> Result<(), AllocError> {
        line.clear();
        line.extend_from_slice(self.editor.half_line())?;
        if let Some(history) = &mut self.history {
            if self.settings.flags.echo {
                let _kept = history.keep(line);
            } else {
                history.leave();
            }
        }
        self.edit(byte, role, draws)
    }

    // Types a key in the editor, and draws what it did if that is wanted.
    fn edit(&mut self, byte: u8, role: EditRole, draws: bool) -> Result<(), AllocError> {
        let before = self.editor.half_line().len();
        let presses = self.editor.key(byte);
        if !draws {
            return Ok(());
        }
        self.drawn.key(&self.editor, role, &mut self.drawing)?;
        if is_dropped(role, presses, before, self.editor.half_line().len()) {
            self.drawing.push(BELL)?;
        }
        Ok(())
    }

    // Brings the line before or after, in place of the half-typed line.
    fn recall(&mut self, arrow: Arrow, draws: bool) -> Result<(), AllocError> {
        if !self.find(arrow)? {
            self.drawing.push(BELL)?;
            return Ok(());
        }
        let Some(kill) = self.editor.recalls(&self.recalled) else {
            self.drawing.push(BELL)?;
            return Ok(());
        };
        let role = self.editor.role(kill);
        self.edit(kill, role, draws)?;
        let empty = Vec::new(*self.recalled.allocator());
        let recalled = mem::replace(&mut self.recalled, empty);
        let typed = self.type_all(&recalled, draws);
        self.recalled = recalled;
        typed
    }

    // Puts the line that this key asks for into `recalled`. False if there is none.
    fn find(&mut self, arrow: Arrow) -> Result<bool, AllocError> {
        let Some(history) = &mut self.history else {
            return Ok(false);
        };
        let is_there = match arrow {
            Arrow::Up => history.up(self.editor.half_line())?,
            Arrow::Down => history.down(),
            Arrow::Right | Arrow::Left => false,
        };
        if is_there {
            self.recalled.clear();
            self.recalled.extend_from_slice(history.line())?;
        }
        Ok(is_there)
    }

    /// Draws that the half-typed line is taken off.
    pub(crate) fn take_off(&mut self) -> Result<(), AllocError> {
        self.drawing.clear();
        self.wipe_rest(true)?;
        self.drawn.away(&mut self.drawing)
    }

    /// Follows output that was shown while the half-typed line was off the screen.
    pub(crate) fn follow(&mut self, output: &[u8]) {
        self.drawn.shown(output);
    }

    /// Draws the half-typed line again.
    pub(crate) fn put_back(&mut self) -> Result<(), AllocError> {
        self.drawing.clear();
        self.drawn.again(&self.editor, &mut self.drawing)?;
        self.show_rest(true)
    }

    /// Gives the half-typed line up, and draws that it is taken off.
    pub(crate) fn give_up(&mut self) -> Result<(), AllocError> {
        let drawn = self.take_off();
        let _kill = self.editor.key(KILL);
        self.rest.clear();
        drawn
    }

    /// Leaves the half-typed line on the screen: something else begins a row below it.
    pub(crate) fn leave(&mut self) {
        let count = self.drawing.len();
        let _drawn = self.drawn.away(&mut self.drawing);
        self.drawing.truncate(count);
    }
}

// Returns whether a key of this role did not join the half-typed line, whose bytes are counted
// before and after it.
fn is_dropped(role: EditRole, presses: Presses, before: usize, after: usize) -> bool {
    matches!(role, EditRole::Plain(Role::Ordinary(_))) && presses.count > 0 && before == after
}
