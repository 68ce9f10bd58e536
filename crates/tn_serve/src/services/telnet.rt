//! Telnet in a service's bytes, which is no part of its text.

ghost use Rattle.std.specs.Prelude.{◌≤◌, length};

/// The byte that begins a command (RFC 854).
const IAC: u8 = 255;

/// The commands that an option's code follows: WILL, WONT, DO and DONT.
const FIRST_VERB: u8 = 251;

const LAST_VERB: u8 = 254;

/// The command that begins a subnegotiation, and the one that ends it.
const SB: u8 = 250;

const SE: u8 = 240;

/// The place of the next byte.
#[derive(Clone, Copy, PartialEq, Eq)]
enum Place {
    Text,
    Command,
    Option,
    Subnegotiation,
    CommandWithin,
}

/// The state of a service's stream: it speaks Telnet once it has sent IAC and WILL, WONT, DO or
/// DONT. From then on its commands are no text; before that, IAC is a letter of some code.
#[derive(Clone, Copy)]
pub(crate) struct Speech {
    speaks_telnet: bool,
    place: Place,
}

impl Speech {
    pub(crate) fn new() -> Speech {
        Speech {
            speaks_telnet: false,
            place: Place::Text,
        }
    }

    pub(crate) fn speaks_telnet(&self) -> bool {
        self.speaks_telnet
    }

    /// Moves the text of these bytes, which come next, to their front. Returns how many bytes it has.
    pub(crate) fn keep_text(&mut self, bytes: &mut [u8]) -> usize
        ensures { result ≤ length bytes.new }
    {
        let mut kept = 0usize;
        for place in 0..bytes.len() {
            let byte = bytes[place];
            let next = bytes.get(place + 1).copied();
            if !self.is_text(byte, next) {
                continue;
            }
            if let Some(slot) = bytes.get_mut(kept) {
                *slot = byte;
                kept += 1;
            }
        }
        kept.min(bytes.len())
    }

    // Returns whether a byte is text. If the service has sent nothing of Telnet, the next byte
    // shows whether it begins.
    fn is_text(&mut self, byte: u8, next: Option<u8>) -> bool {
        if !self.speaks_telnet {
            return !self.begins(byte, next);
        }
        let (place, is_text) = after(self.place, byte);
        self.place = place;
        is_text
    }

    // Returns whether Telnet begins with this byte. An IAC that came last is shown, and the command
    // after it is not.
    fn begins(&mut self, byte: u8, next: Option<u8>) -> bool {
        let was_command = self.place == Place::Command;
        self.place = Place::Text;
        if was_command && is_verb(byte) {
            self.speaks_telnet = true;
            self.place = Place::Option;
            return true;
        }
        if byte != IAC {
            return false;
        }
        self.place = Place::Command;
        self.speaks_telnet = next.is_some_and(is_verb);
        self.speaks_telnet
    }
}

fn is_verb(byte: u8) -> bool {
    FIRST_VERB <= byte && byte <= LAST_VERB
}

// Returns the place of the byte after this one, and whether this one is text.
fn after(place: Place, byte: u8) -> (Place, bool) {
    match (place, byte) {
        (Place::Text, IAC) => (Place::Command, false),
        (Place::Text, _) => (Place::Text, true),
        (Place::Command, IAC) => (Place::Text, true),
        (Place::Command, SB) => (Place::Subnegotiation, false),
        (Place::Command, _) if is_verb(byte) => (Place::Option, false),
        (Place::Command | Place::Option, _) => (Place::Text, false),
        (Place::Subnegotiation, IAC) => (Place::CommandWithin, false),
        (Place::CommandWithin, SE) => (Place::Text, false),
        (Place::Subnegotiation | Place::CommandWithin, _) => (Place::Subnegotiation, false),
    }
}
