//! The half-typed line on a screen.

ghost use Rattle.std.specs.Prelude.{◌≤◌};

use crate::characters::announced;
use crate::columns::Column;
use crate::edit_keys::EditRole;
use crate::editor::Editor;
use std::alloc::{AllocError, Global};
use std::str;
use tn_codes::Func;
use tn_discipline::{BELL, Limit, Role, Sig};
use unicode_width::UnicodeWidthChar;

/// Wipes the screen after the cursor (ECMA-48, ED).
const WIPE: &[u8] = b"\x1b[J";

/// Bytes that are no character are shown as U+FFFD.
const BROKEN: &[u8] = b"\xef\xbf\xbd";

/// A half-typed line on a screen: the columns that each character takes, and the place of the
/// cursor. It is drawn as a terminal with ECHO, ECHOE, ECHOK and ECHOKE draws it, over as many rows
/// as it wants.
#[derive(Drop)]
pub struct Drawn {
    widths: Vec<u8>,
    ahead: u16,
    begin: usize,
    cursor: usize,
    column: Column,
    window: u16,
    echoctl: bool,
}

/// The form in which a character is drawn.
#[derive(Clone, Copy, PartialEq, Eq)]
enum Look {
    // Its own bytes, over this number of columns.
    Own(usize),
    Tab,
    // A circumflex and this byte.
    Caret(u8),
    // No column, and its own byte.
    Raw,
    Broken,
    // More of it has to come.
    Unfinished,
}

impl Drawn {
    /// Makes an empty line, at the left edge of a window of `window` columns; 0 stands for a window
    /// without an edge. Control characters are drawn as `^X` if ECHOCTL is on, else as they are.
    ///
    /// # Errors
    ///
    /// - Out of memory: there is no room for the widths of a whole line, which is made once.
    pub fn new(
        alloc: Global,
        limit: Limit,
        echoctl: bool,
        window: u16,
    ) -> Result<Drawn, AllocError> {
        Ok(Drawn {
            widths: Vec::with_capacity(alloc, usize::from(limit.bytes()))?,
            ahead: 0,
            begin: 0,
            cursor: 0,
            column: Column::new(),
            window,
            echoctl,
        })
    }

    /// Sets how many columns the window has. A half-typed line that is drawn is taken away before,
    /// and drawn again after.
    pub fn set_window(&mut self, window: u16) {
        self.window = window;
    }

    /// Follows output that was shown while no part of a half-typed line was drawn.
    pub fn shown(&mut self, output: &[u8]) {
        let window = self.window();
        for byte in output {
            self.column.take(window, *byte);
        }
        self.begin = self.column.column();
        self.cursor = self.begin;
    }

    /// Appends what shows a key of this role, which the editor has just typed. Nothing is shown while ECHO is off in
    /// the editor's settings, but a new line if ECHONL is on.
    ///
    /// # Errors
    ///
    /// - Out of memory: a part of it was appended, or nothing.
    pub fn key(
        &mut self,
        editor: &Editor,
        role: EditRole,
        out: &mut Vec<u8>,
    ) -> Result<(), AllocError> {
        let flags = editor.roles.settings().flags;
        match role {
            EditRole::Plain(Role::Nl) => {
                if flags.echo || flags.echonl {
                    out.extend_from_slice(b"\r\n")?;
                    self.cursor = 0;
                }
                self.end(editor);
            },
            EditRole::Plain(Role::Eol(byte) | Role::Eol2(byte)) => {
                if flags.echo {
                    self.put(&[byte], look_of(&[byte], false, self.echoctl), out)?;
                }
                self.end(editor);
            },
            EditRole::Plain(Role::Eof) => self.end(editor),
            EditRole::Plain(Role::Signal(sig)) if flags.echo => self.mark(editor, sig, out)?,
            EditRole::Plain(Role::Signal(_) | Role::Ignored) => {},
            EditRole::Reprint => self.reprint(editor, out)?,
            EditRole::Plain(Role::Ordinary(_)) if flags.echo && editor.refused.length == 1 => {
                out.push(BELL)?;
            },
            _ => self.follow(editor, out)?,
        }
        Ok(())
    }

    /// Appends what takes the half-typed line off the screen, so that output can be shown in its
    /// place.
    ///
    /// # Errors
    ///
    /// - Out of memory: a part of it was appended, or nothing.
    pub fn away(&mut self, out: &mut Vec<u8>) -> Result<(), AllocError> {
        self.go_back(self.begin, out)?;
        self.close();
        Ok(())
    }

    /// Appends what shows the half-typed line again, after `away` and the output that came. After
    /// `Editor::resume` it takes note of the bytes ahead, which are on the screen already.
    ///
    /// # Errors
    ///
    /// - Out of memory: a part of it was appended, or nothing.
    pub fn again(&mut self, editor: &Editor, out: &mut Vec<u8>) -> Result<(), AllocError> {
        self.follow(editor, out)
    }

    /// Appends what shows these bytes after the half-typed line. The cursor stays at the end of the
    /// half-typed line, and what is shown is not part of it: `wipe_rest` takes it away before
    /// anything else is drawn.
    ///
    /// # Errors
    ///
    /// - Out of memory: a part of it was appended, or nothing.
    pub fn rest(
        &mut self,
        editor: &Editor,
        rest: &[u8],
        out: &mut Vec<u8>,
    ) -> Result<(), AllocError> {
        if rest.is_empty() || !editor.roles.settings().flags.echo {
            return Ok(());
        }
        let end = self.cursor;
        let mut from = 0usize;
        for _ in 0..rest.len() {
            let left = rest.get(from..).unwrap_or(&[]);
            let bytes = first_character(left, editor.keys.iutf8);
            if bytes.is_empty() {
                break;
            }
            from = from.saturating_add(bytes.len());
            self.put(
                bytes,
                whole_look(bytes, editor.keys.iutf8, self.echoctl),
                out,
            )?;
        }
        self.return_to(end, out)
    }

    /// Appends what wipes all that is shown after the cursor.
    ///
    /// # Errors
    ///
    /// - Out of memory: a part of it was appended, or nothing.
    pub fn wipe_rest(&self, out: &mut Vec<u8>) -> Result<(), AllocError> {
        out.extend_from_slice(WIPE)
    }

    // Goes back, and leaves what is there.
    fn return_to(&mut self, target: usize, out: &mut Vec<u8>) -> Result<(), AllocError> {
        let window = self.window();
        let rows = (self.cursor / window).saturating_sub(target / window);
        if rows == 0 {
            for _ in 0..self.cursor.saturating_sub(target) {
                out.push(8)?;
            }
        } else {
            self.go_up(rows, target % window, out)?;
        }
        self.cursor = target;
        Ok(())
    }

    // Goes this number of rows up, to this column.
    fn go_up(&self, rows: usize, column: usize, out: &mut Vec<u8>) -> Result<(), AllocError> {
        for _ in 0..rows {
            out.extend_from_slice(b"\x1b[A")?;
        }
        out.push(b'\r')?;
        for _ in 0..column {
            out.extend_from_slice(b"\x1b[C")?;
        }
        Ok(())
    }

    // Returns the window's columns: without an edge as many as a line can take.
    fn window(&self) -> usize
        ensures { 1 ≤ result }
    {
        if self.window == 0 {
            usize::from(u16::MAX)
        } else {
            usize::from(self.window)
        }
    }

    // Ends the line.
    fn end(&mut self, editor: &Editor) {
        self.ahead = editor.line.ahead();
        self.close();
    }

    // Begins the next line, or this one again, at the cursor.
    fn close(&mut self) {
        self.widths.clear();
        let window = self.window();
        self.begin = self.cursor % window;
        self.cursor = self.begin;
        self.column.set(self.begin);
    }

    // Shows a signal's character.
    fn mark(&mut self, editor: &Editor, sig: Sig, out: &mut Vec<u8>) -> Result<(), AllocError> {
        let func = match sig {
            Sig::Int => Func::Ip,
            Sig::Quit => Func::Abort,
            Sig::Tstp => Func::Susp,
        };
        match editor.roles.settings().chars.get(func) {
            Some(byte) => self.put(&[byte], look_of(&[byte], false, self.echoctl), out),
            None => Ok(()),
        }
    }

    // Shows REPRINT's character, and the half-typed line below.
    fn reprint(&mut self, editor: &Editor, out: &mut Vec<u8>) -> Result<(), AllocError> {
        if let Some(byte) = editor.keys.rprnt {
            self.put(&[byte], look_of(&[byte], false, self.echoctl), out)?;
        }
        out.extend_from_slice(b"\r\n")?;
        self.cursor = 0;
        self.close();
        self.follow(editor, out)
    }

    // Draws what is new of the half-typed line, and rubs out what is gone.
    fn follow(&mut self, editor: &Editor, out: &mut Vec<u8>) -> Result<(), AllocError> {
        let count = editor.line.characters().len();
        if count < self.widths.len() {
            self.rub_out(count, out)?;
        }
        self.rub_ahead(editor, out)?;
        self.draw(editor, out)
    }

    // Rubs out all but this number of characters. If a combining one goes, the one before it is drawn again.
    fn rub_out(&mut self, count: usize, out: &mut Vec<u8>) -> Result<(), AllocError> {
        let mut left = count;
        if self.widths.get(count) == Some(&0) {
            for _ in 0..count {
                left = left.saturating_sub(1);
                if self.widths.get(left) != Some(&0) {
                    break;
                }
            }
        }
        let mut gone = 0usize;
        for width in self.widths.iter().skip(left) {
            gone = gone.saturating_add(usize::from(*width));
        }
        self.widths.truncate(left);
        self.go_back(self.cursor.saturating_sub(gone), out)
    }

    // Rubs out a column for each byte ahead that is gone, since nothing is known of it.
    fn rub_ahead(&mut self, editor: &Editor, out: &mut Vec<u8>) -> Result<(), AllocError> {
        let gone = usize::from(self.ahead.saturating_sub(editor.line.ahead()));
        self.ahead = editor.line.ahead();
        if gone == 0 || !editor.roles.settings().flags.echo {
            return Ok(());
        }
        self.begin = self.begin.saturating_sub(gone);
        self.go_back(self.cursor.saturating_sub(gone), out)
    }

    // Draws the characters that are not drawn yet.
    fn draw(&mut self, editor: &Editor, out: &mut Vec<u8>) -> Result<(), AllocError> {
        let flags = editor.roles.settings().flags;
        let drawn = self.widths.len();
        let mut begin = 0usize;
        for (place, character) in editor.line.characters().iter().enumerate() {
            let end = begin.saturating_add(usize::from(character.length));
            let bytes = editor.line.held().get(begin..end).unwrap_or(&[]);
            begin = end;
            if place >= drawn {
                let is_last = end == editor.line.held().len();
                let look = match look_of(bytes, editor.keys.iutf8, self.echoctl) {
                    Look::Unfinished if is_last => return Ok(()),
                    Look::Unfinished => Look::Broken,
                    look => look,
                };
                self.draw_one(bytes, look, flags.echo, out)?;
            }
        }
        Ok(())
    }

    fn draw_one(
        &mut self,
        bytes: &[u8],
        look: Look,
        echo: bool,
        out: &mut Vec<u8>,
    ) -> Result<(), AllocError> {
        let before = self.cursor;
        if echo {
            self.put(bytes, look, out)?;
        }
        let width = self.cursor.saturating_sub(before).min(255);
        self.widths.push(width as u8)?;
        Ok(())
    }

    // Draws one character at the cursor. After the last column the cursor is sent to the next row by a space and a
    // return, since terminals else wait there for the next character.
    fn put(&mut self, bytes: &[u8], look: Look, out: &mut Vec<u8>) -> Result<(), AllocError> {
        let window = self.window();
        let column = self.cursor % window;
        let left = window - column;
        let columns = match look {
            Look::Own(width) => {
                out.extend_from_slice(bytes)?;
                // A wide character that does not fit goes to the next row.
                if width > left {
                    width.saturating_add(left)
                } else {
                    width
                }
            },
            Look::Tab => {
                let spaces = (8 - column % 8).min(left);
                for _ in 0..spaces {
                    out.push(b' ')?;
                }
                spaces
            },
            Look::Caret(byte) => {
                out.push(b'^')?;
                out.push(byte ^ 0x40)?;
                2
            },
            Look::Raw => {
                out.extend_from_slice(bytes)?;
                0
            },
            Look::Broken => {
                out.extend_from_slice(BROKEN)?;
                1
            },
            Look::Unfinished => 0,
        };
        self.cursor = self.cursor.saturating_add(columns);
        if columns > 0 && self.cursor % window == 0 {
            out.extend_from_slice(b" \r")?;
        }
        Ok(())
    }

    // Goes back, and wipes what is there. Within a row it wipes as ERASE does (XBD 11.2.5, ECHOE).
    fn go_back(&mut self, target: usize, out: &mut Vec<u8>) -> Result<(), AllocError> {
        let window = self.window();
        let rows = (self.cursor / window).saturating_sub(target / window);
        if rows == 0 {
            for _ in 0..self.cursor.saturating_sub(target) {
                out.extend_from_slice(b"\x08 \x08")?;
            }
        } else {
            self.go_up(rows, target % window, out)?;
            out.extend_from_slice(WIPE)?;
        }
        self.cursor = target;
        Ok(())
    }
}

/// Returns the bytes of the first of some characters.
pub fn first_character(bytes: &[u8], iutf8: bool) -> &[u8] {
    let Some(first) = bytes.first() else {
        return bytes;
    };
    let length = usize::from(announced(iutf8, *first)).min(bytes.len());
    bytes.get(..length).unwrap_or(bytes)
}

// Returns the form in which a character is drawn that has these bytes, and no more.
fn whole_look(bytes: &[u8], iutf8: bool, echoctl: bool) -> Look {
    match look_of(bytes, iutf8, echoctl) {
        Look::Unfinished => Look::Broken,
        look => look,
    }
}

// Returns the form in which a character is drawn that has these bytes.
fn look_of(bytes: &[u8], iutf8: bool, echoctl: bool) -> Look {
    let Some(first) = bytes.first() else {
        return Look::Unfinished;
    };
    match *first {
        b'\t' => Look::Tab,
        0..=0x1f | 0x7f if echoctl => Look::Caret(*first),
        0..=0x1f | 0x7f => Look::Raw,
        0x20..=0x7e => Look::Own(1),
        _ if !iutf8 => Look::Own(1),
        _ if bytes.len() < usize::from(announced(true, *first)) => Look::Unfinished,
        _ => match str::from_utf8(bytes) {
            Ok(text) => look_of_text(text),
            Err(_) => Look::Broken,
        },
    }
}

fn look_of_text(text: &str) -> Look {
    match text.chars().next().and_then(|c| c.width()) {
        Some(width) => Look::Own(width),
        None => Look::Broken,
    }
}
