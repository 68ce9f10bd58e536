//! One typed byte after another.

ghost use Rattle.std.specs.Prelude.{◌≡◌, ◌≤◌, ◌+◌, ◌++◌, List, Option, None, [], ◌∷◌, length, take};
ghost use Rattle.std.specs.VecDeque.{deque_capacity, deque_len};
ghost use Rattle.tn_net.specs.{Prompting.{closed, edit_of}, Typing.{typed_as, of_bytes, prompt_after}};
ghost use Rattle.tn_net.specs.Typing.{prompt_behind, reading, typed_again, IsTakenUpTo, Obeys, command};
ghost use Rattle.tn_net.specs.Typing.{commands, inputs, is_escape, is_one, meant, returned, returns_of};

use crate::own_characters::OwnCharacters;
use crate::prompt::{Edit, Prompt, edit_of};
use crate::returns::{ReturnKey, is};
use std::collections::VecDeque;
use tn_cores::streams::Control;

/// The fate of a user whose connection is closed.
#[derive(Clone, Copy, PartialEq, Eq)]
pub enum Next {
    Leaves,
    /// The user connects again.
    Returns,
}

/// A request of the user to the client itself.
#[derive(Clone, Copy, PartialEq, Eq)]
pub enum EscapeCommand {
    /// `quit`, `close` or `q`: close the connection; and `again`: close it, and connect again.
    Close(Next),
    /// `help` or `?`: show the commands.
    Help,
    /// `status` or `s`: show the state of the session.
    Status,
    /// `suspend` or `z`: stop, until the shell goes on with it.
    Suspend,
    /// `log` and the name of a file: append to it what the screen gets.
    LogTo,
    /// `log off`: end that.
    LogOff,
    /// `mode` and `auto` or `char`: choose when the keys go.
    Mode,
    /// `return` and `crnul`, `crlf` or `lf`: send that at RETURN.
    Return,
    /// Any other line: it means nothing.
    Unknown,
}

/// The input that a typed byte is.
#[derive(Clone, Copy, PartialEq, Eq)]
pub enum Typed {
    /// A key of the session.
    Key(u8),
    /// The byte ends a line that asks for a control function: `send brk`, `send ip`, `send ayt`, or
    /// one letter.
    Control(Control),
    /// The byte ends a line that is a command to the client itself.
    Command(EscapeCommand),
    /// The byte begins such a line, edits it, or ends an empty one.
    Nothing,
}

/// The text that is shown of a byte that is typed to the client itself.
#[derive(Clone, Copy, Debug, PartialEq, Eq)]
pub enum Echo {
    Nothing,
    /// The line begins.
    Prompt,
    /// The byte joins the line.
    Byte(u8),
    /// This many bytes of the line are given up.
    Erased(usize),
    /// The line ends.
    End,
    /// The byte has no meaning, or no room.
    Refused,
}

/// An input of a session, of the bytes that are typed.
#[derive(Clone, Copy, PartialEq, Eq)]
pub enum SessionInput {
    Key(u8),
    Control(Control),
}

/// Does what the user asks the client itself for.
pub trait Obey {
    ghost use Rattle.tn_net.specs.declared.escaping.EscapeCommand.{EscapeCommand};

    // The commands that were obeyed, if they are known.
    ghost obeyed: { Self → Option (List EscapeCommand) } = { λ _. None };

    /// Obeys the command, which this line asks for.
    fn obey(&mut self, command: EscapeCommand, line: &[u8])
        ensures { Obeys (obeyed self.old) (command ∷ []) (obeyed self.new) };

    /// Shows this. No command is obeyed by it.
    fn echo(&mut self, echo: Echo)
        ensures { Obeys (obeyed self.old) [] (obeyed self.new) };
}

// Returns a key as it is given to a session: CR, which goes as CR NUL, is RETURN.
fn given(returns: ReturnKey, key: u8) -> Typed
    ensures { result ≡ typed_as (returned returns key) }
{
    match returns {
        ReturnKey::CrLf if key == b'\r' => Typed::Control(Control::NewLine),
        ReturnKey::Lf if key == b'\r' => Typed::Key(b'\n'),
        _ => Typed::Key(key),
    }
}

/// The meaning of the bytes that are typed.
#[derive(Clone, Copy, PartialEq, Eq)]
pub struct Keyboard {
    /// The escape character, if there is one. It comes first, also if it is one of the user's own characters.
    pub escape: Option<u8>,
    /// The characters that keys of a session are taken by.
    pub own: OwnCharacters,
    /// The characters that edit a line which is typed to the client itself.
    pub editing: OwnCharacters,
    /// The bytes that RETURN sends.
    pub returns: ReturnKey,
    /// Whether a line to the client itself may change those.
    pub may_change: bool,
}

impl Keyboard {
    /// Makes the meaning by which every byte is a key, and stands for itself.
    pub fn of_bytes() -> Keyboard
        ensures { result ≡ of_bytes }
    {
        Keyboard {
            escape: None,
            own: OwnCharacters::none(),
            editing: OwnCharacters::none(),
            returns: ReturnKey::CrNul,
            may_change: false,
        }
    }
}

/// Sorts what is typed into keys, control functions and commands.
#[derive(Drop)]
pub struct Escaping {
    pub keyboard: Keyboard,
    /// The line that is typed to the client itself.
    pub prompt: Prompt,
}

impl Escaping {
    /// Makes the state in which nothing was typed yet.
    pub fn new(keyboard: Keyboard) -> Escaping
        ensures { result ≡ record { keyboard = keyboard; prompt = closed } }
    {
        Escaping {
            keyboard,
            prompt: Prompt::new(),
        }
    }

    /// Returns the input that this byte is, after those before it. The escape character begins a
    /// line to the client itself; on an empty one it is a key. No other byte of such a line is a
    /// key.
    pub fn take(&mut self, byte: u8) -> Typed
        ensures typed { result ≡ reading self.old byte }
        ensures keyboard { self.new.keyboard ≡ self.old.keyboard }
        ensures prompt { self.new.prompt ≡ prompt_after self.old.keyboard self.old.prompt byte }
    {
        let typed = self.typed(byte);
        self.advance(byte);
        typed
    }

    // Returns the input that this byte is.
    fn typed(&self, byte: u8) -> Typed
        ensures { result ≡ reading self.now byte }
    {
        let escape = self.is_escape(byte);
        if self.prompt.is_open {
            if escape {
                return typed_again(self.prompt.line.as_slice(), byte);
            }
            return match self.edit_of(byte) {
                Edit::Enter => meant(self.prompt.line.as_slice()),
                _ => Typed::Nothing,
            };
        }
        if escape {
            return Typed::Nothing;
        }
        given(self.returns(), self.keyboard.own.mapped(byte))
    }

    // Returns what RETURN sends.
    fn returns(&self) -> ReturnKey
        ensures { result ≡ returns_of self.now.keyboard self.now.prompt }
    {
        match self.prompt.returns {
            Some(returns) if self.keyboard.may_change => returns,
            _ => self.keyboard.returns,
        }
    }

    // Returns the line after this byte.
    fn advance(&mut self, byte: u8)
        ensures keyboard { self.new.keyboard ≡ self.old.keyboard }
        ensures prompt { self.new.prompt ≡ prompt_after self.old.keyboard self.old.prompt byte }
    {
        let escape = self.is_escape(byte);
        if !self.prompt.is_open {
            if escape {
                self.prompt.open();
            }
            return;
        }
        if escape {
            self.prompt.take_escape();
            return;
        }
        let edit = self.edit_of(byte);
        self.prompt.take(edit, byte);
    }

    fn edit_of(&self, byte: u8) -> Edit
        ensures { result ≡ edit_of self.now.keyboard.editing self.now.prompt.sequence byte }
    {
        edit_of(&self.keyboard.editing, self.prompt.sequence, byte)
    }

    // Returns the text that is shown of this byte.
    pub(crate) fn echo(&self, byte: u8) -> Echo {
        if !self.prompt.is_open {
            return if self.is_escape(byte) {
                Echo::Prompt
            } else {
                Echo::Nothing
            };
        }
        let count = self.prompt.line.as_slice().len();
        if self.is_escape(byte) {
            return if count == 0 { Echo::End } else { Echo::Refused };
        }
        match self.edit_of(byte) {
            Edit::Enter | Edit::Leave => Echo::End,
            Edit::Erase => Echo::Erased(count.min(1)),
            Edit::Kill => Echo::Erased(count),
            Edit::Add if self.prompt.has_room() => Echo::Byte(byte),
            Edit::Skip(_) => Echo::Nothing,
            Edit::Add | Edit::Refuse => Echo::Refused,
        }
    }

    /// Keeps what a session gets of these bytes, after what is kept, and has each command obeyed once; both
    /// in their order. Returns how many bytes were taken: those after one that asks to close are not.
    pub fn sort<O: Obey>(
        &mut self,
        bytes: &[u8],
        kept: &mut VecDeque<SessionInput>,
        obeying: &mut O,
    ) -> usize
        requires room { deque_len kept.old + length bytes.now ≤ deque_capacity kept.old }
        ensures inputs { kept.new.items ≡ kept.old.items
            ++ inputs self.old.keyboard self.old.prompt (take result bytes.now) }
        ensures commands { Obeys (O.obeyed obeying.old)
            (commands self.old.keyboard self.old.prompt (take result bytes.now)) (O.obeyed obeying.new) }
        ensures taken { IsTakenUpTo result self.old.keyboard self.old.prompt bytes.now }
        ensures keyboard { self.new.keyboard ≡ self.old.keyboard }
        ensures prompt { self.new.prompt
            ≡ prompt_behind self.old.keyboard self.old.prompt (take result bytes.now) }
    {
        for place in 0..bytes.len() {
            obeying.echo(self.echo(bytes[place]));
            match self.take(bytes[place]) {
                Typed::Key(key) => {
                    let _pushed = kept.push_back(SessionInput::Key(key));
                },
                Typed::Control(control) => {
                    let _pushed = kept.push_back(SessionInput::Control(control));
                },
                Typed::Command(EscapeCommand::Close(next)) => {
                    obeying.obey(EscapeCommand::Close(next), self.prompt.line.as_slice());
                    let taken = place + 1;
                    return taken;
                },
                Typed::Command(command) => obeying.obey(command, self.prompt.line.as_slice()),
                Typed::Nothing => {},
            }
        }
        bytes.len()
    }

    fn is_escape(&self, byte: u8) -> bool
        ensures { result ≡ is_escape self.now.keyboard.escape byte }
    {
        match self.keyboard.escape {
            Some(character) => byte == character,
            None => false,
        }
    }
}

// Returns the input that the escape character is after these bytes of a line.
fn typed_again(line: &[u8], byte: u8) -> Typed
    ensures { result ≡ typed_again line.now byte }
{
    if line.is_empty() {
        return Typed::Key(byte);
    }
    Typed::Nothing
}

// Returns the input that a line to the client itself is.
fn meant(line: &[u8]) -> Typed
    ensures { result ≡ meant line.now }
{
    if line.is_empty() {
        return Typed::Nothing;
    }
    if is_one(line, b"b", b"send brk") {
        return Typed::Control(Control::Brk);
    }
    if is_one(line, b"i", b"send ip") {
        return Typed::Control(Control::Ip);
    }
    if is_one(line, b"a", b"send ayt") {
        return Typed::Control(Control::Ayt);
    }
    Typed::Command(command_of(line))
}

fn command_of(line: &[u8]) -> EscapeCommand
    ensures { result ≡ command line.now }
{
    if is_one(line, b"q", b"quit") || is(line, b"close") {
        return EscapeCommand::Close(Next::Leaves);
    }
    if is(line, b"again") {
        return EscapeCommand::Close(Next::Returns);
    }
    if is_one(line, b"?", b"help") {
        return EscapeCommand::Help;
    }
    if is_one(line, b"s", b"status") {
        return EscapeCommand::Status;
    }
    if is_one(line, b"z", b"suspend") {
        return EscapeCommand::Suspend;
    }
    if is(line, b"log off") {
        return EscapeCommand::LogOff;
    }
    if line.starts_with(b"log ") {
        return EscapeCommand::LogTo;
    }
    if is_one(line, b"mode auto", b"mode char") {
        return EscapeCommand::Mode;
    }
    if ReturnKey::asked(line).is_some() {
        return EscapeCommand::Return;
    }
    EscapeCommand::Unknown
}

// Returns whether the line is one of these.
fn is_one(line: &[u8], letter: &[u8], word: &[u8]) -> bool
    ensures { result ≡ is_one line.now letter.now word.now }
{
    is(line, letter) || is(line, word)
}
