//! The characters of a half-typed line.

ghost use Rattle.std.specs.Prelude.{◌≡◌, ◌<◌, ◌≤◌, true};
ghost use Rattle.tn_editor.specs.{Edited.no_character, EditedLines.times_erased};
ghost use Rattle.tn_editor.specs.Grouping.{announced, continues, parts_words, is_word_byte};

use crate::edit_keys::Words;

/// A character of a half-typed line: its first byte, and how many of its bytes came.
#[derive(Clone, Copy, Debug, PartialEq, Eq)]
pub(crate) struct Character {
    pub(crate) first: u8,
    pub(crate) length: u8,
}

impl Character {
    /// Makes the lack of a character, which has no byte.
    pub(crate) fn none() -> Character
        ensures { result ≡ no_character }
    {
        Character {
            first: 0,
            length: 0,
        }
    }

    /// Returns the number of ERASEs that take the character back at a plain terminal. It is 1 if
    /// there is no character.
    pub(crate) fn erases(self) -> u16
        ensures { result ≡ times_erased self }
    {
        if self.length == 0 {
            1
        } else {
            u16::from(self.length)
        }
    }
}

/// Returns the number of bytes of the character that begins with this byte (RFC 3629, section 4).
pub(crate) fn announced(iutf8: bool, byte: u8) -> u8
    ensures value { result ≡ announced iutf8 byte }
    ensures few { result ≤ 4 }
{
    if !iutf8 {
        return 1;
    }
    match byte {
        0xc2..=0xdf => 2,
        0xe0..=0xef => 3,
        0xf0..=0xf4 => 4,
        _ => 1,
    }
}

/// Returns whether the byte goes on with this character.
pub(crate) fn continues(iutf8: bool, character: Character, byte: u8) -> bool
    ensures value { result ≡ continues iutf8 character byte }
    ensures some { result ≡ true → 1 ≤ character.length }
    ensures few { result ≡ true → character.length < 4 }
{
    let is_more = 0x80 <= byte && byte <= 0xbf;
    is_more && 0 < character.length && character.length < announced(iutf8, character.first)
}

/// Returns whether the character parts words.
pub(crate) fn parts_words(words: Words, character: Character) -> bool
    ensures { result ≡ parts_words words character }
{
    let byte = character.first;
    match words {
        Words::Blanks => byte == b' ' || byte == b'\t',
        Words::Symbols => byte < 0x80 && !is_word_byte(byte),
    }
}

fn is_word_byte(byte: u8) -> bool
    ensures { result ≡ is_word_byte byte }
{
    b'0' <= byte && byte <= b'9'
        || b'A' <= byte && byte <= b'Z'
        || b'a' <= byte && byte <= b'z'
        || byte == b'_'
}
