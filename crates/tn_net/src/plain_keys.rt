//! The keys that a user without Telnet types, who speaks to the client itself after an escape character.

ghost use Rattle.std.specs.Prelude.{◌≡◌, ◌≤◌, ◌++◌, IsFalse, List, ℕ, false, length, option_map, take};
ghost use Rattle.tn_net.specs.{PlainKeys.{asks_to_leave, keys_left}, Prompting.closed};

use crate::client_files::ClientFiles;
use crate::deeds::{About, Deeds};
use crate::escaping::{EscapeCommand, Escaping, Keyboard, Obey, Typed};
use crate::terminal::Terminal;
use std::alloc::Global;
use std::io::{ErrorKind, Read};
use std::sync::Wait;
use std::{io, mem};

/// The number of bytes that are read at once.
const PIECE_BYTES: usize = 4_096;

/// The keys that the bytes of a reader are. What their user asks the client itself for is done at once; once
/// he asks to leave, the keys end.
#[derive(Drop)]
pub struct PlainKeys<'a, H, K> {
    rt: H,
    alloc: Global,
    keys: K,
    escaping: Escaping,
    has_left: bool,
    terminal: Terminal,
    about: About<'a>,
}

impl<'a, H: ClientFiles + Copy + Wait, K> PlainKeys<'a, H, K> {
    /// Makes the keys of this source.
    pub fn new(
        rt: H,
        alloc: Global,
        keys: K,
        keyboard: Keyboard,
        terminal: Terminal,
        about: About<'a>,
    ) -> PlainKeys<'a, H, K>
        ensures keys { result.keys ≡ keys }
        ensures escaping { result.escaping ≡ record { keyboard = keyboard; prompt = closed } }
        ensures stays { IsFalse result.has_left }
    {
        PlainKeys {
            rt,
            alloc,
            keys,
            escaping: Escaping::new(keyboard),
            has_left: false,
            terminal,
            about,
        }
    }

    /// Returns whether a line to the client itself is typed.
    pub(crate) fn is_prompting(&self) -> bool {
        self.escaping.prompt.is_open
    }

    // Writes the keys that these bytes are to the front of a buffer, and does what the others ask for.
    // Returns how many keys there are. What follows a command to leave is not taken.
    fn sort(&mut self, bytes: &[u8], buf: &mut [u8]) -> usize
        requires stays { IsFalse self.old.has_left }
        requires fits { length bytes.now ≤ length buf.old }
        ensures bound { result ≤ length buf.new }
        ensures size { length buf.new ≡ length buf.old }
        ensures keys { (rest : List ℕ) → take result buf.new
            ++ keys_left self.new.has_left self.new.escaping rest
            ≡ keys_left self.old.has_left self.old.escaping (bytes.now ++ rest) }
        ensures reader { self.new.keys ≡ self.old.keys }
    {
        let mut deeds = Deeds {
            rt: self.rt,
            alloc: self.alloc,
            about: self.about,
            terminal: mem::replace(&mut self.terminal, Terminal::new(None, None)),
            own: self.escaping.keyboard.own,
        };
        let (count, has_left) = keys_of(&mut self.escaping, bytes, buf, &mut deeds);
        let Deeds { terminal, .. } = deeds;
        self.terminal = terminal;
        self.has_left = has_left;
        count
    }
}

// Writes the keys to the front of a buffer, with who does what the others ask for. Returns how many keys
// there are, and whether the user leaves.
fn keys_of<H: ClientFiles + Wait>(
    escaping: &mut Escaping,
    bytes: &[u8],
    buf: &mut [u8],
    deeds: &mut Deeds<'_, H>,
) -> (usize, bool)
    requires fits { length bytes.now ≤ length buf.old }
    ensures bound { result.0 ≤ length buf.new }
    ensures size { length buf.new ≡ length buf.old }
    ensures keys { (rest : List ℕ) → take result.0 buf.new ++ keys_left result.1 escaping.new rest
        ≡ keys_left false escaping.old (bytes.now ++ rest) }
{
    let mut count = 0usize;
    for place in 0..bytes.len() {
        deeds.echo(escaping.echo(bytes[place]));
        let typed = escaping.take(bytes[place]);
        if asks_to_leave(typed) {
            deeds.obey_alone(typed);
            return (count, true);
        }
        match typed {
            Typed::Key(key) => {
                buf[count] = key;
                count += 1;
            },
            Typed::Command(command) => deeds.obey(command, escaping.prompt.line.as_slice()),
            Typed::Control(_) => deeds.refuse_control(),
            Typed::Nothing => {},
        }
    }
    (count, false)
}

fn asks_to_leave(typed: Typed) -> bool
    ensures { result ≡ asks_to_leave typed }
{
    matches!(typed, Typed::Command(EscapeCommand::Close(_)))
}

impl<'a, H: ClientFiles + Copy + Wait, K: Read> Read for PlainKeys<'a, H, K> {
    ghost remaining = { λ k. option_map (keys_left k.has_left k.escaping) (K.Read.remaining k.keys) };

    fn read(&mut self, buf: &mut [u8]) -> io::Result<usize> {
        if self.has_left {
            return Ok(0);
        }
        let mut piece = [0; PIECE_BYTES];
        let most = buf.len().min(PIECE_BYTES);
        let came = self.keys.read(&mut piece[..most])?;
        if came == 0 {
            return Ok(0);
        }
        let count = self.sort(&piece[..came], buf);
        if count == 0 && !self.has_left {
            return Err(io::Error::from(ErrorKind::Interrupted));
        }
        Ok(count)
    }
}
