//! The first bytes of a service, which show whether it speaks Telnet.

ghost use Rattle.std.specs.Prelude.{◌≡◌};
ghost use Rattle.tn_lines.specs.Openings.{Hears, is_option};

/// The first byte of a command of Telnet (RFC 854), and the least and the greatest of the second of one that
/// negotiates an option.
const IAC: u8 = 255;

const WILL: u8 = 251;

const DONT: u8 = 254;

/// The part that has come of the two bytes by which a service is known.
#[derive(Clone, Copy, PartialEq, Eq)]
pub(crate) enum Opening {
    Nothing,
    First(u8),
    Both,
}

impl Opening {
    /// Takes the next bytes. Returns whether with them the first two of all are a command of Telnet
    /// that negotiates an option.
    pub(crate) fn hear(&mut self, bytes: &[u8]) -> bool
        ensures { Hears self.old bytes.now result self.new }
    {
        let (next, negotiates) = heard(*self, bytes);
        *self = next;
        negotiates
    }
}

fn heard(opening: Opening, bytes: &[u8]) -> (Opening, bool)
    ensures { Hears opening bytes.now result.1 result.0 }
{
    match opening {
        Opening::Nothing => match bytes {
            [] => (opening, false),
            [first] => (Opening::First(*first), false),
            [first, second, ..] => (Opening::Both, is_option(*first, *second)),
        },
        Opening::First(first) => match bytes {
            [] => (opening, false),
            [second, ..] => (Opening::Both, is_option(first, *second)),
        },
        Opening::Both => (opening, false),
    }
}

// Returns whether these two bytes are a command that negotiates an option.
fn is_option(first: u8, second: u8) -> bool
    ensures { result ≡ is_option first second }
{
    first == IAC && (WILL <= second && second <= DONT)
}
