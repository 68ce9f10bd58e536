//! The half-typed line, in characters.

ghost use Rattle.std.specs.Prelude.{◌≡◌, ◌<◌, ◌≤◌, ◌+◌, [], ◌∷◌, ◌++◌, length, take, IfOk};
ghost use Rattle.tn_editor.specs.{Grouping.past, EditedLines.{cut_to, is_parting}};
ghost use Rattle.tn_editor.specs.EditedLines.{HeldLine, newest_look, rest_of, weigh, AreSome, begun, grown};
ghost use Rattle.tn_editor.specs.EditedLines.{line_length, line_joined, line_erased, line_word_erased};

use crate::characters::{Character, continues, parts_words};
use crate::edit_keys::Words;
use std::alloc::{AllocError, Global};
use std::marker::Model;
use tn_discipline::Limit;

/// A half-typed line: the number of bytes ahead, of which nothing is known, and the bytes after
/// them in characters.
#[derive(Debug, Drop)]
pub(crate) struct EditedLine {
    ahead: u16,
    held: Vec<u8>,
    characters: Vec<Character>,
    limit: Limit,
}

impl Model for EditedLine {
    ghost use Rattle.std.specs.Prelude.{◌≡◌, ◌<◌, ◌≤◌, ◌+◌, reverse, vec_len, vec_capacity};
    ghost use Rattle.tn_editor.specs.EditedLines.{HeldLine, weigh, AreSome};

    ghost Value = { HeldLine };

    ghost view = { λ l. record {
      ahead = l.ahead;
      held = l.held.items;
      characters = reverse l.characters.items;
      limit = l.limit;
    } };

    ghost invariant = { λ l. (weigh (reverse l.characters.items) ≡ vec_len l.held)
        × AreSome (reverse l.characters.items)
        × (l.ahead + vec_len l.held < l.limit)
        × (l.limit ≤ vec_capacity l.held) × (l.limit ≤ vec_capacity l.characters) };
}

impl EditedLine {
    /// Makes an empty line, with room for a whole line, which it takes once.
    pub(crate) fn new(alloc: Global, limit: Limit) -> Result<EditedLine, AllocError>
        ensures { IfOk result
            (λ l. l ≡ record { ahead = 0; held = []; characters = []; limit = limit }) }
    {
        let room = usize::from(limit.bytes());
        Ok(EditedLine {
            ahead: 0,
            held: Vec::with_capacity(alloc, room)?,
            characters: Vec::with_capacity(alloc, room)?,
            limit,
        })
    }

    /// Returns the number of bytes of the half-typed line, with those ahead.
    pub(crate) fn bytes(&self) -> u16
        ensures value { result ≡ line_length self.now }
        ensures within { result < self.now.limit }
    {
        // No code is needed; the proof that the sum fits begins with the range of every limit.
        let _limit = self.limit.bytes();
        self.ahead + self.held.len() as u16
    }

    /// Returns the bytes after those ahead.
    pub(crate) fn held(&self) -> &[u8]
        ensures value { result.now ≡ self.now.held }
        ensures whole { weigh self.now.characters ≡ length self.now.held }
    {
        self.held.as_slice()
    }

    /// Returns the number of bytes ahead.
    pub(crate) fn ahead(&self) -> u16
        ensures { result ≡ self.now.ahead }
    {
        self.ahead
    }

    /// Returns the characters of the bytes that are held, from the first to the last.
    pub(crate) fn characters(&self) -> &[Character] {
        self.characters.as_slice()
    }

    pub(crate) fn limit(&self) -> Limit
        ensures { result ≡ self.now.limit }
    {
        self.limit
    }

    /// Returns the last character; one without a byte if there is none.
    pub(crate) fn newest(&self) -> Character
        ensures value { result ≡ newest_look self.now.characters }
        ensures some { AreSome self.now.characters }
        ensures whole { weigh self.now.characters ≡ length self.now.held }
    {
        match self.characters.last() {
            Some(character) => *character,
            None => Character {
                first: 0,
                length: 0,
            },
        }
    }

    /// Takes the last character away, or the last byte ahead if there is no character.
    pub(crate) fn erase(&mut self)
        ensures { self.new ≡ line_erased self.old }
    {
        match self.characters.pop() {
            Some(character) => {
                let left = self.held.len() - usize::from(character.length);
                self.held.truncate(left);
            },
            None => self.ahead = self.ahead.saturating_sub(1),
        }
    }

    /// Takes the last word away, or the last byte ahead if there is no character.
    pub(crate) fn erase_word(&mut self, words: Words)
        ensures { self.new ≡ line_word_erased words self.old }
    {
        if self.newest().length == 0 {
            self.erase();
        } else {
            self.take_word(words);
        }
    }

    fn take_word(&mut self, words: Words)
        requires { 1 ≤ (newest_look self.old.characters).length }
        ensures { self.new ≡ line_word_erased words self.old }
    {
        self.take_while(words, true);
        self.take_while(words, false);
    }

    /// Takes the whole half-typed line away.
    pub(crate) fn clear(&mut self)
        ensures { self.new ≡
            record { ahead = 0; held = []; characters = []; limit = self.old.limit } }
    {
        self.ahead = 0;
        self.held.clear();
        self.characters.clear();
    }

    /// Takes all away, and leaves this number of bytes ahead.
    pub(crate) fn resume(&mut self, ahead: u16)
        requires { ahead < self.old.limit }
        ensures { self.new ≡
            record { ahead = ahead; held = []; characters = []; limit = self.old.limit } }
    {
        self.ahead = ahead;
        self.held.clear();
        self.characters.clear();
    }

    /// Types a byte for which there is room.
    pub(crate) fn join(&mut self, iutf8: bool, byte: u8)
        requires { line_length self.old + 1 < self.old.limit }
        ensures { self.new ≡ line_joined iutf8 self.old byte }
    {
        if continues(iutf8, self.newest(), byte) {
            self.grow(byte);
        } else {
            self.begin(byte);
        }
    }

    fn begin(&mut self, byte: u8)
        requires { line_length self.old + 1 < self.old.limit }
        ensures { self.new ≡ record {
          ahead = self.old.ahead;
          held = self.old.held ++ byte ∷ [];
          characters = begun byte ∷ self.old.characters;
          limit = self.old.limit;
        } }
    {
        self.characters.push_reserved(Character {
            first: byte,
            length: 1,
        });
        self.held.push_reserved(byte);
    }

    fn grow(&mut self, byte: u8)
        requires room { line_length self.old + 1 < self.old.limit }
        requires some { 1 ≤ (newest_look self.old.characters).length }
        requires few { (newest_look self.old.characters).length < 4 }
        ensures { self.new ≡ record {
          ahead = self.old.ahead;
          held = self.old.held ++ byte ∷ [];
          characters = grown (newest_look self.old.characters) ∷ rest_of self.old.characters;
          limit = self.old.limit;
        } }
    {
        if let Some(newest) = self.characters.pop() {
            self.characters.push_reserved(Character {
                first: newest.first,
                length: newest.length + 1,
            });
            self.held.push_reserved(byte);
        }
    }

    // Takes the last characters away up to the first that does not part words, or up to the first that does.
    fn take_while(&mut self, words: Words, parting: bool)
        ensures { self.new ≡ cut_to self.old (past (is_parting parting words) self.old.characters) }
    {
        let _whole = self.held();
        for _ in 0..self.characters.len() {
            if parts_words(words, self.newest()) != parting {
                return;
            }
            self.erase();
        }
    }
}
