//! The line that a user types to the client itself, after the escape character.

ghost use Rattle.std.specs.Prelude.{◌≡◌, [], false};
ghost use Rattle.tn_net.specs.Prompting.{after_edit, after_escape, closed, edit_by, edit_of, opened};
ghost use Rattle.tn_net.specs.Prompting.{last_return, plain_edit, with_added, without_last};

use crate::own_characters::OwnCharacters;
use crate::returns::ReturnKey;
use arrayvec::ArrayVec;
use std::marker::Model;

/// The most bytes of the line.
const MOST: usize = 255;

/// The bytes of the line.
#[derive(Drop)]
pub struct PromptLine {
    bytes: ArrayVec<u8, MOST>,
}

impl Model for PromptLine {
    ghost use Rattle.std.specs.Prelude.{List, ℕ};

    ghost Value = { List ℕ };

    ghost view = { λ line. line.bytes.items };
}

impl PromptLine {
    /// Makes an empty line.
    pub(crate) fn new() -> PromptLine
        ensures { result ≡ [] }
    {
        PromptLine {
            bytes: ArrayVec::new(),
        }
    }

    /// Returns the bytes, in the order in which they were typed.
    pub fn as_slice(&self) -> &[u8]
        ensures { result.now ≡ self.now }
    {
        self.bytes.as_slice()
    }

    // Takes one byte more, unless the line is full.
    fn add(&mut self, byte: u8)
        ensures { self.new ≡ with_added self.old byte }
    {
        if self.bytes.len() < MOST {
            self.bytes.push(byte);
        }
    }

    // Gives up the last byte.
    fn erase(&mut self)
        ensures { self.new ≡ without_last self.old }
    {
        let _last = self.bytes.pop();
    }

    fn clear(&mut self)
        ensures { self.new ≡ [] }
    {
        self.bytes.clear();
    }
}

/// The part that has come of the bytes that a key such as Up sends (ECMA-48, 5.4; DEC STD 070 of
/// SS3).
#[derive(Clone, Copy, Debug, PartialEq, Eq)]
pub enum Sequence {
    /// Nothing, or all.
    Nothing,
    /// ESC.
    Escape,
    /// ESC and a bracket, and what stands between that and the last byte.
    Control,
    /// ESC and the letter O: one byte more.
    Letter,
}

/// The effect of a byte on the line.
#[derive(Clone, Copy, Debug, PartialEq, Eq)]
pub enum Edit {
    /// The byte ends the line.
    Enter,
    /// The byte gives the line up.
    Leave,
    Erase,
    Kill,
    /// The byte joins it.
    Add,
    /// The byte is part of what a key such as Up sends.
    Skip(Sequence),
    /// The byte has no meaning.
    Refuse,
}

/// Whether a line is typed to the client itself, and the bytes of it so far.
#[derive(Drop)]
pub struct Prompt {
    pub is_open: bool,
    /// The line; of one that ended, what it was.
    pub line: PromptLine,
    pub sequence: Sequence,
    /// The bytes that RETURN is to send by the last line that asked for that.
    pub returns: Option<ReturnKey>,
}

impl Prompt {
    /// Makes the state in which no line is typed.
    pub(crate) fn new() -> Prompt
        ensures { result ≡ closed }
    {
        Prompt {
            is_open: false,
            line: PromptLine::new(),
            sequence: Sequence::Nothing,
            returns: None,
        }
    }

    /// Begins a line.
    pub(crate) fn open(&mut self)
        ensures { self.new ≡ opened self.old }
    {
        self.line.clear();
        self.is_open = true;
        self.sequence = Sequence::Nothing;
    }

    /// Takes the escape character once more. It ends an empty line, and no other.
    pub(crate) fn take_escape(&mut self)
        ensures { self.new ≡ after_escape self.old }
    {
        self.is_open = !self.line.as_slice().is_empty();
        self.sequence = Sequence::Nothing;
    }

    /// Applies this edit, by this byte, to the line.
    pub(crate) fn take(&mut self, edit: Edit, byte: u8)
        ensures { self.new ≡ after_edit edit byte self.old }
    {
        self.sequence = Sequence::Nothing;
        match edit {
            Edit::Enter => self.enter(),
            Edit::Leave => self.is_open = false,
            Edit::Erase => self.line.erase(),
            Edit::Kill => self.line.clear(),
            Edit::Add => self.line.add(byte),
            Edit::Skip(sequence) => self.sequence = sequence,
            Edit::Refuse => {},
        }
    }

    // Ends the line.
    fn enter(&mut self)
        ensures { self.new
            ≡ record self.old { is_open = false; returns = last_return self.old.line self.old.returns } }
    {
        self.is_open = false;
        if let Some(asked) = ReturnKey::asked(self.line.as_slice()) {
            self.returns = Some(asked);
        }
    }

    /// Returns whether the line has room for one byte more.
    pub(crate) fn has_room(&self) -> bool {
        !self.line.bytes.is_full()
    }
}

/// Returns the effect of a byte on a line, at a terminal with these special characters, after this
/// part of a sequence.
pub(crate) fn edit_of(own: &OwnCharacters, sequence: Sequence, byte: u8) -> Edit
    ensures { result ≡ edit_of own.now sequence byte }
{
    match sequence {
        Sequence::Nothing => plain_edit(own, byte),
        Sequence::Escape => match byte {
            b'[' => Edit::Skip(Sequence::Control),
            b'O' => Edit::Skip(Sequence::Letter),
            _ => plain_edit(own, byte),
        },
        Sequence::Control => match byte {
            32..=63 => Edit::Skip(Sequence::Control),
            64..=126 => Edit::Skip(Sequence::Nothing),
            _ => plain_edit(own, byte),
        },
        Sequence::Letter => match byte {
            32..=126 => Edit::Skip(Sequence::Nothing),
            _ => plain_edit(own, byte),
        },
    }
}

// Returns the effect of a byte that is part of no sequence: both RETURN and a line feed end a line.
fn plain_edit(own: &OwnCharacters, byte: u8) -> Edit
    ensures { result ≡ plain_edit own.now byte }
{
    match byte {
        10 | 13 => Edit::Enter,
        27 => Edit::Skip(Sequence::Escape),
        _ => edit_by(own.mapped(byte)),
    }
}

// Returns the effect of a standard character: BS erases as DEL does.
fn edit_by(character: u8) -> Edit
    ensures { result ≡ edit_by character }
{
    match character {
        8 | 127 => Edit::Erase,
        21 => Edit::Kill,
        3 => Edit::Leave,
        32..=126 => Edit::Add,
        _ => Edit::Refuse,
    }
}
