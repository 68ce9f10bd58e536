//! Keys that are edited as lines at the client while the other end takes whole lines.

ghost use Rattle.std.specs.{Prelude.{◌≡◌, None}, Io.{ReadsAtMost, KnownBytes.ReadConsumes}};
ghost use Rattle.tn_cores.specs.streams.{Foretelling.ForetellsCall, Telling.{CountsRead, TellsCall}};

use crate::client_files::ClientFiles;
use crate::console::Console;
use crate::escaping::SessionInput;
use crate::half_line::HalfLine;
use crate::holding::Holding;
use crate::kept;
use crate::line_editor::{Closing, EditorSettings, LineEditor, Taken};
use crate::link::Link;
use crate::returns::ReturnKey;
use libc::isatty;
use std::alloc::{AllocError, Global};
use std::collections::VecDeque;
use std::fs::File;
use std::io;
use std::io::{ErrorKind, Read};
use std::sync::{Arc, Wait};
use std::time::Clock;
use tn_cores::streams::{Control, Source, WindowSize, nothing_to_say};
use tn_discipline::Limit;

/// The descriptor of standard output (POSIX, `STDOUT_FILENO`).
const STANDARD_OUTPUT: i32 = 1;

/// The standard characters for an interrupt, a quit and the end of file, and those that take back a character and
/// give up a line.
const INTR: u8 = 3;

const QUIT: u8 = 28;

const EOF: u8 = 4;

const ERASE: u8 = 127;

const KILL: u8 = 21;

const RETURN: u8 = b'\r';

/// The way in which lines are edited at the client.
#[derive(Drop)]
pub struct LineMode {
    /// The most bytes in a line of line mode, if there is line mode.
    pub limit: Option<Limit>,
    /// The most bytes in a line that LINEMODE has edited at the client.
    pub session_limit: Limit,
    pub editing: EditorSettings,
    /// The bytes that RETURN sends, if the user has chosen them.
    pub returns: Option<ReturnKey>,
    /// The screen of the terminal, and its width in columns; 0 if that is not known.
    pub screen: Option<File>,
    pub width: u16,
}

/// The keys of a console. A line that is edited at the client is shown there unless the other end
/// echoes, and goes once it ends. The session's echo of its keys is not shown again. A line is
/// edited at the client in line mode, and while LINEMODE has the client edit (RFC 1184, section
/// 2.2, EDIT) by the standard characters and without a forward mask. Line mode lasts as long as the
/// other end neither has LINEMODE on nor suppresses GO AHEAD (RFC 854, "The Network Virtual
/// Terminal"), and a line of it goes with CR LF if the user chose nothing else. At any other time
/// each key goes at once, and a half-typed line goes before it.
#[derive(Drop)]
pub struct LineKeys<H, K> {
    rt: H,
    console: Console<H, K>,
    link: Arc<Link, Global>,
    returns: Option<ReturnKey>,
    line_limit: Limit,
    session_limit: Limit,
    /// The lines that the editor is set for.
    holding: Holding,
    /// The beginning of a line has gone, and its end has not.
    is_midline: bool,
    /// The line that ended last.
    line: Vec<u8>,
    /// Keys and control functions that are still to be given.
    due: VecDeque<SessionInput>,
    /// The control function that comes after the keys that were given, and was not given.
    asked: Option<Control>,
    /// RETURN was typed, which the console gives as a new line.
    is_returned: bool,
}

impl<H: ClientFiles + Clock + Copy + Wait, K: Read + Drop> LineKeys<H, K> {
    /// Makes the keys of this console, for this connection.
    ///
    /// # Errors
    ///
    /// - `AllocError`: there is no memory for a line.
    pub fn new(
        rt: H,
        alloc: Global,
        console: Console<H, K>,
        link: Arc<Link, Global>,
        mode: LineMode,
    ) -> Result<LineKeys<H, K>, AllocError> {
        let LineMode {
            limit,
            session_limit,
            editing,
            returns,
            screen,
            width,
        } = mode;
        let line_limit = limit.unwrap_or(session_limit);
        let most = if line_limit.bytes() > session_limit.bytes() {
            line_limit
        } else {
            session_limit
        };
        let editor = LineEditor::new(alloc, line_limit, most, editing, width)?;
        let is_shared = isatty(STANDARD_OUTPUT) == 1;
        let half = HalfLine::new(alloc, editor, editing, screen, is_shared);
        link.edit_by(&rt, half);
        link.set_line_mode(limit.is_some());
        Ok(LineKeys {
            rt,
            console,
            link,
            returns,
            line_limit,
            session_limit,
            holding: Holding::LineMode,
            is_midline: false,
            line: Vec::new(alloc),
            due: VecDeque::new(alloc),
            asked: None,
            is_returned: false,
        })
    }

    // Returns the lines that are held at present. The end of a line whose beginning has gone goes
    // as it is typed, so that ERASE still takes back the bytes that have gone.
    fn held(&self) -> Holding {
        match self.link.holding() {
            Holding::Edit if self.is_midline => Holding::Nothing,
            holding => holding,
        }
    }

    // Sets the editor for the lines that are held at present, and returns which these are. The
    // half-typed line of others goes.
    fn begin(&mut self) -> io::Result<Holding> {
        if self.held() != self.holding {
            self.give_half_up()?;
            self.holding = self.held();
            self.set_editor()?;
        }
        Ok(self.holding)
    }

    fn set_editor(&mut self) -> Result<(), AllocError> {
        let (limit, keeps_at_signal) = match self.holding {
            Holding::Nothing => return Ok(()),
            Holding::LineMode => (self.line_limit, false),
            Holding::Edit => (self.session_limit, true),
        };
        let mut half = self.link.half().lock(&self.rt);
        if let Some(half) = &mut *half {
            half.editor.begin(limit, keeps_at_signal)?;
        }
        Ok(())
    }

    // Takes a key: it edits the line, or goes after the half-typed line.
    fn take(&mut self, key: u8) -> io::Result<()> {
        if self.begin()? != Holding::Nothing {
            return self.edit(key);
        }
        self.follow(key);
        self.push(SessionInput::Key(key))
    }

    // Takes RETURN, which the console gave as a new line.
    fn take_return(&mut self) -> io::Result<()> {
        if self.begin()? != Holding::Nothing {
            return self.edit(RETURN);
        }
        self.is_midline = false;
        self.push(SessionInput::Control(Control::NewLine))
    }

    // Follows a key that goes at once.
    fn follow(&mut self, key: u8) {
        match key {
            RETURN | b'\n' | EOF | KILL => self.is_midline = false,
            ERASE => {},
            _ => self.is_midline = true,
        }
    }

    // Edits the line by a key.
    fn edit(&mut self, key: u8) -> io::Result<()> {
        match self.type_key(key)? {
            Taken::Edit => Ok(()),
            Taken::Alone(key) => self.push(self.alone(key)),
            Taken::Line(closing) => {
                self.push_line()?;
                match self.ended_by(closing) {
                    Some(input) => self.push(input),
                    None => Ok(()),
                }
            },
        }
    }

    fn type_key(&mut self, key: u8) -> Result<Taken, AllocError> {
        let taken = self.link.edit_half(&self.rt, key, &mut self.line)?;
        let half = if self.link.count_half(&self.rt) == 0 {
            Holding::Nothing
        } else {
            self.holding
        };
        self.link.note_half(half);
        Ok(taken)
    }

    // Has the bytes of a line given as keys.
    fn push_line(&mut self) -> io::Result<()> {
        if !kept::makes_room(&mut self.due, self.line.len()) {
            return Err(io::Error::from(ErrorKind::OutOfMemory));
        }
        for key in &self.line {
            let _pushed = self.due.push_back(SessionInput::Key(*key));
        }
        Ok(())
    }

    // Takes the half-typed line off the screen, and has its bytes given as keys.
    fn give_half_up(&mut self) -> io::Result<()> {
        if self.take_half()? {
            self.link.note_half(Holding::Nothing);
            self.is_midline = true;
            return self.push_line();
        }
        Ok(())
    }

    // Takes the half-typed line off the screen, into `line`. False if there is none.
    fn take_half(&mut self) -> Result<bool, AllocError> {
        let mut half = self.link.half().lock(&self.rt);
        match &mut *half {
            Some(half) => {
                half.give_up(&mut self.line)?;
                Ok(!self.line.is_empty())
            },
            None => Ok(false),
        }
    }

    fn push(&mut self, input: SessionInput) -> io::Result<()> {
        if !kept::makes_room(&mut self.due, 1) {
            return Err(io::Error::from(ErrorKind::OutOfMemory));
        }
        let _pushed = self.due.push_back(input);
        Ok(())
    }

    // Returns the input that goes after a line, if any does.
    fn ended_by(&self, closing: Closing) -> Option<SessionInput> {
        match (closing, self.holding) {
            (Closing::NewLine, Holding::Edit) => Some(SessionInput::Key(RETURN)),
            (Closing::NewLine, _) => Some(self.new_line()),
            (Closing::EndOfFile, Holding::Edit) => Some(SessionInput::Key(EOF)),
            (Closing::EndOfFile, _) => None,
        }
    }

    // The input that a special character is which goes by itself: the session knows what it is under LINEMODE. In line
    // mode an interrupt goes as IP, a quit as BREAK, and the two others as they are.
    fn alone(&self, key: u8) -> SessionInput {
        match key {
            INTR if self.holding == Holding::LineMode => SessionInput::Control(Control::Ip),
            QUIT if self.holding == Holding::LineMode => SessionInput::Control(Control::Brk),
            _ => SessionInput::Key(key),
        }
    }

    // Returns the input that RETURN is after a line of line mode.
    fn new_line(&self) -> SessionInput {
        match self.console.asked_return().or(self.returns) {
            Some(ReturnKey::CrNul) => SessionInput::Key(RETURN),
            Some(ReturnKey::Lf) => SessionInput::Key(b'\n'),
            Some(ReturnKey::CrLf) | None => SessionInput::Control(Control::NewLine),
        }
    }

    // Gives the first of what is due, or has a control function asked for; if there is neither, it is as if a
    // signal had come.
    fn give(&mut self, buf: &mut [u8]) -> io::Result<usize>
        ensures bound { ReadsAtMost result buf.new }
    {
        let count = kept::give(&mut self.due, buf);
        if count > 0 {
            return Ok(count);
        }
        self.asked = kept::first_control(&mut self.due);
        Err(io::Error::from(ErrorKind::Interrupted))
    }

    fn count_half(&self) -> usize {
        self.link.count_half(&self.rt)
    }

    // Reads keys, and takes them.
    fn read_keys(&mut self, buf: &mut [u8]) -> io::Result<usize>
        ensures bound { ReadsAtMost result buf.new }
    {
        let read = self.console.read_some(buf);
        let is_prompting = self.console.is_prompting();
        self.link.follow_prompt(&self.rt, is_prompting);
        let count = read?;
        if count == 0 {
            let half = self.count_half();
            self.link.count_dropped(half);
            return Ok(0);
        }
        if self.held() == Holding::Nothing && self.count_half() == 0 {
            for key in &buf[..count] {
                self.follow(*key);
            }
            return Ok(count);
        }
        for place in 0..count {
            self.take(buf[place])?;
        }
        self.give(buf)
    }
}

impl<H: ClientFiles + Clock + Copy + Wait, K: Read + Drop> Source for LineKeys<H, K> {
    ghost sizes = { λ _. None };

    ghost controls = { λ _. None };

    fn resized(&mut self) -> Option<WindowSize> {
        let size = self.console.resized()?;
        self.link.resize_half(&self.rt, size.width);
        Some(size)
    }

    fn control(&mut self) -> Option<Control> {
        if self.asked.is_some() {
            return self.asked.take();
        }
        let asked = self.console.control();
        if asked == Some(Control::NewLine) {
            self.is_returned = true;
            return None;
        }
        asked
    }

    fn last_words(&self) -> &'static [u8] {
        nothing_to_say()
    }

    fn read_some(&mut self, buf: &mut [u8]) -> io::Result<usize>
        ensures bound { ReadsAtMost result buf.new }
        ensures bytes { ReadConsumes None None result buf.new }
        ensures tells { TellsCall (CountsRead result) None None }
        ensures foretells { ForetellsCall result None None }
    {
        if self.is_returned {
            self.is_returned = false;
            self.take_return()?;
        }
        if self.link.is_half_due() {
            self.give_half_up()?;
        }
        if !self.due.is_empty() {
            return self.give(buf);
        }
        self.read_keys(buf)
    }
}
