//! The entries that reads of a terminal return.

ghost use Rattle.std.specs.{Prelude.{◌≡◌, nat_eq}, Cmp.Lexicographic.{pointwise, nat_list_eq_equiv}};
ghost use Rattle.std.specs.Cmp.{partial_equiv_from_equiv};

use std::marker::Model;

/// A signal that a key sends to the foreground job (POSIX.1-2017, XBD 11.1.9).
#[derive(Clone, Copy, Debug, PartialEq, Eq)]
pub enum Sig {
    /// SIGINT, of the INTR character.
    Int,
    /// SIGQUIT, of the QUIT character.
    Quit,
    /// SIGTSTP, of the SUSP character.
    Tstp,
}

/// The bytes of a line.
#[derive(Debug, Drop)]
pub struct Text {
    bytes: Vec<u8>,
}

impl Model for Text {
    ghost use Rattle.std.specs.Prelude.{List, ℕ};

    ghost Value = { List ℕ };

    ghost view = { λ text. text.bytes.items };
}

impl Text {
    /// Returns the bytes, in the order in which they were typed.
    pub fn as_slice(&self) -> &[u8]
        ensures { result.now ≡ self.now }
    {
        self.bytes.as_slice()
    }
}

impl From<Vec<u8>> for Text {
    ghost from_gives = { λ bytes text. text ≡ bytes.items };

    fn from(bytes: Vec<u8>) -> Text {
        Text { bytes }
    }
}

impl From<Text> for Vec<u8> {
    ghost from_gives = { λ text bytes. bytes.items ≡ text };

    fn from(text: Text) -> Vec<u8> {
        let Text { bytes } = text;
        bytes
    }
}

impl PartialEq for Text {
    ghost eq = { pointwise nat_eq };

    ghost laws = { partial_equiv_from_equiv nat_list_eq_equiv };

    fn eq(&self, other: &Text) -> bool {
        self.bytes == other.bytes
    }
}

impl Eq for Text {
    ghost laws = { nat_list_eq_equiv };
}

/// An entry: the result of one read of the terminal.
#[derive(Debug, PartialEq, Eq, Drop)]
pub enum Entry {
    /// A line with its closing byte, or without one if EOF ended it.
    Text(Text),
    /// EOF came when nothing was typed.
    Eof,
    /// A signal, which leaves the line as it is.
    Signal(Sig),
}
